ghost use Rattle.std.specs.Prelude.{◌≡◌, ◌↔◌, ℕ, List, Option, true};
ghost use Rattle.world_rules.specs.declared.entry.Entry.{Entry};
ghost use Rattle.world_rules.specs.declared.life.Birth.{Birth};
ghost use Rattle.world_rules.specs.Views.{Given, Giving, deed_of};
ghost use Rattle.world_rules.specs.World.{World, core_of, is_away};
ghost use Rattle.world_rules.specs.Rules.{next};
ghost use Rattle.world_rules.specs.Births.{Terms};
ghost use Rattle.world_rules.specs.Allowed.{Allowed};
ghost use Rattle.world_rules.specs.Told.{all_after, AllAllowed};
ghost use Rattle.world_rules.specs.Sound.{IsSound};
ghost use Rattle.kept_world.specs.Kept.{kept, brought, GivesNone, NoneGives};

use world_rules::sound;

/// What workers have, and what has happened, doesn't matter to what becomes of the rest: an entry makes the same of what is
/// kept, and is allowed alike, where only that is there; of a Give what its worker brings back is there besides. It
/// computes nothing.
pub fn unread()
    ensures others { (births : List Birth) (w : World) (entry : Entry) → GivesNone (deed_of entry) →
        kept (next births w entry) ≡ kept (next births (kept w) entry) }
    ensures gives { (births : List Birth) (w : World) (entry : Entry) (give : Given) → deed_of entry ≡ Giving give →
        kept (next births w entry) ≡
        kept (next births (brought give.pid (core_of (w.process give.pid)) (kept w)) entry) }
    ensures others_allowed { (terms : Option Terms) (births : List Birth) (w : World) (entry : Entry) →
        GivesNone (deed_of entry) → Allowed terms births w entry ↔ Allowed terms births (kept w) entry }
    ensures gives_allowed { (terms : Option Terms) (births : List Birth) (w : World) (entry : Entry) (give : Given) →
        deed_of entry ≡ Giving give → Allowed terms births w entry ↔
        Allowed terms births (brought give.pid (core_of (w.process give.pid)) (kept w)) entry }
{}

/// A worker brings back what it took: while it has a process, or the process is doomed under it, the entries that come
/// leave what it has. It computes nothing.
pub fn brings()
    ensures { (terms : Option Terms) (births : List Birth) (w : World) (entries : List Entry) (pid : ℕ) → IsSound w →
        is_away (w.process pid).stage ≡ true → AllAllowed terms births w entries → NoneGives pid entries →
        core_of ((all_after births w entries).process pid) ≡ core_of (w.process pid) }
{
    sound();
}
