ghost use Rattle.std.specs.Prelude.{◌≡◌, ℕ, List, ◌++◌, Option, Some, None, true};
ghost use Rattle.world_rules.specs.declared.entry.Entry.{Entry};
ghost use Rattle.world_rules.specs.declared.life.Birth.{Birth};
ghost use Rattle.world_rules.specs.Views.{deed_of};
ghost use Rattle.world_rules.specs.World.{World, core_of, is_away};
ghost use Rattle.world_rules.specs.Rules.{next};
ghost use Rattle.world_rules.specs.Births.{Terms};
ghost use Rattle.world_rules.specs.Allowed.{Allowed};
ghost use Rattle.world_rules.specs.Told.{AllAllowed, all_after};
ghost use Rattle.world_rules.specs.laws.CarryLaws.{IsFresh, IsItsGive};

/// An allowed entry makes the same world, and stays allowed, where further births stand behind those there are. It
/// computes nothing.
pub fn next_extends()
    ensures same { (terms : Option Terms) (births more : List Birth) (w : World) (entry : Entry) →
        Allowed terms births w entry → next births w entry ≡ next (births ++ more) w entry }
    ensures allowed { (terms : Option Terms) (births more : List Birth) (w : World) (entry : Entry) →
        Allowed terms births w entry → Allowed terms (births ++ more) w entry }
{}

/// Further births behind those there are change no world that was told. It computes nothing.
pub fn told_extends()
    ensures { (terms : Option Terms) (births more : List Birth) (w : World) (entries : List Entry) →
        AllAllowed terms births w entries → all_after births w entries ≡ all_after (births ++ more) w entries }
{}

/// What is allowed under terms is allowed where no terms are known. It computes nothing.
pub fn allowed_untested()
    ensures { (terms : Terms) (births : List Birth) (w : World) (entry : Entry) →
        Allowed (Some terms) births w entry → Allowed None births w entry }
{}

/// While a worker has a process, or it is doomed under the worker, no entry but its own Give changes what the worker relies
/// on: its start, calls, fuel and part and the request that it owes. It computes nothing.
pub fn carry()
    ensures core { (births : List Birth) (w : World) (entry : Entry) (pid : ℕ) → IsFresh w →
        (IsItsGive pid (deed_of entry) → ⊥) → is_away (w.process pid).stage ≡ true →
        core_of ((next births w entry).process pid) ≡ core_of (w.process pid) }
    ensures away { (births : List Birth) (w : World) (entry : Entry) (pid : ℕ) → IsFresh w →
        (IsItsGive pid (deed_of entry) → ⊥) → is_away (w.process pid).stage ≡ true →
        is_away ((next births w entry).process pid).stage ≡ true }
{}
