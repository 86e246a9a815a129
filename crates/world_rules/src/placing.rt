ghost use Rattle.std.specs.Prelude.{ℕ, List, Option, Some, true, ◌≡◌};
ghost use Rattle.world_rules.specs.declared.entry.Entry.{Entry};
ghost use Rattle.world_rules.specs.declared.life.Birth.{Birth};
ghost use Rattle.world_rules.specs.Views.{deed_of};
ghost use Rattle.world_rules.specs.Moves.{Place, handled};
ghost use Rattle.world_rules.specs.World.{World, first_world, is_away};
ghost use Rattle.world_rules.specs.Rules.{next};
ghost use Rattle.world_rules.specs.Births.{Terms};
ghost use Rattle.world_rules.specs.Allowed.{Allowed};
ghost use Rattle.world_rules.specs.Book.{Book};
ghost use Rattle.world_rules.specs.Told.{told, IsTold};
ghost use Rattle.world_rules.specs.Sound.{IsSound};
ghost use Rattle.world_rules.specs.Placed.{IsPlaced, is_in_hand, StreamsGo};
ghost use Rattle.world_rules.specs.laws.CarryLaws.{IsItsGive};

/// In each world that a journal tells every stream stands in one place, where the moves alone have it, and the streams
/// were closed in the order in which the moves close them: it is so of the first world, and each allowed entry of a sound
/// world keeps it. It computes nothing.
pub fn placed()
    ensures first { (births : List Birth) → IsPlaced (first_world births) }
    ensures kept { (terms : Option Terms) (births : List Birth) (w : World) (entry : Entry) → IsSound w → IsPlaced w →
        Allowed terms births w entry → IsPlaced (next births w entry) }
    ensures all_told { (book : Book) → IsTold book → IsPlaced (told book) }
{}

/// What an entry doesn't do to streams: it takes no move and no closing back; and while a worker has a process, or it is
/// doomed under the worker, no entry but its own Give moves a stream of its table or of its scratch message. It computes
/// nothing.
pub fn streams_stay()
    ensures goes_on { (terms : Option Terms) (births : List Birth) (w : World) (entry : Entry) → IsSound w →
        Allowed terms births w entry → StreamsGo w (next births w entry) }
    ensures in_hand { (terms : Option Terms) (births : List Birth) (w : World) (entry : Entry) (pid handle : ℕ) (place : Place) →
        IsSound w → IsPlaced w → Allowed terms births w entry → (IsItsGive pid (deed_of entry) → ⊥) →
        is_away (w.process pid).stage ≡ true → is_in_hand pid place ≡ true → (handled w.moves).owner handle ≡ Some place →
        (handled (next births w entry).moves).owner handle ≡ Some place }
{}
