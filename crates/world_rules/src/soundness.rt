ghost use Rattle.std.specs.Prelude.{ℕ, List, Option, true, ◌≡◌};
ghost use Rattle.world_rules.specs.declared.entry.Entry.{Entry};
ghost use Rattle.world_rules.specs.declared.life.Birth.{Birth};
ghost use Rattle.world_rules.specs.Views.{deed_of};
ghost use Rattle.world_rules.specs.World.{World, first_world, core_of, is_away};
ghost use Rattle.world_rules.specs.Rules.{next};
ghost use Rattle.world_rules.specs.Births.{Terms};
ghost use Rattle.world_rules.specs.Allowed.{Allowed};
ghost use Rattle.world_rules.specs.Book.{Book};
ghost use Rattle.world_rules.specs.Told.{told, TellsStart, IsTold};
ghost use Rattle.world_rules.specs.Sound.{IsSound};
ghost use Rattle.world_rules.specs.laws.CarryLaws.{IsItsGive};

/// Each world that a journal tells is sound: the first world is, and each allowed entry keeps it so. It computes nothing.
pub fn sound()
    ensures first { (births : List Birth) → TellsStart births → IsSound (first_world births) }
    ensures kept { (terms : Option Terms) (births : List Birth) (w : World) (entry : Entry) → IsSound w →
        Allowed terms births w entry → IsSound (next births w entry) }
    ensures all_told { (book : Book) → IsTold book → IsSound (told book) }
{}

/// What `carry` says, of each world that a journal tells: while a worker has a process, or it is doomed under the worker,
/// no entry but its own Give changes what the worker relies on. It computes nothing.
pub fn told_carries()
    ensures core { (book : Book) (births : List Birth) (entry : Entry) (pid : ℕ) → IsTold book →
        (IsItsGive pid (deed_of entry) → ⊥) → is_away ((told book).process pid).stage ≡ true →
        core_of ((next births (told book) entry).process pid) ≡ core_of ((told book).process pid) }
    ensures away { (book : Book) (births : List Birth) (entry : Entry) (pid : ℕ) → IsTold book →
        (IsItsGive pid (deed_of entry) → ⊥) → is_away ((told book).process pid).stage ≡ true →
        is_away ((next births (told book) entry).process pid).stage ≡ true }
{}
