ghost use Rattle.std.specs.Prelude.{◌≡◌, ◌≤◌, ◌+◌, ◌∷◌, ℕ, List, [], Some, false, length};
ghost use Rattle.world_rules.specs.declared.entry.Entry.{Entry};
ghost use Rattle.world_rules.specs.declared.entry.Entry.TheVariants as EntryIs;
ghost use Rattle.world_rules.specs.declared.life.Birth.{Birth};
ghost use Rattle.world_rules.specs.declared.life.Ended.{Ended as EndMemory};
ghost use Rattle.world_rules.specs.Allowed.{Allowed};
ghost use Rattle.world_rules.specs.Book.{Book, KeepsAll};
ghost use Rattle.world_rules.specs.Lives.{Setting, TurnIsRun, terms_of};
ghost use Rattle.world_rules.specs.Rules.{happened, giver_of, row_after};
ghost use Rattle.world_rules.specs.Told.{told};
ghost use Rattle.world_rules.specs.Views.{deed_of};
ghost use Rattle.world_rules.specs.World.{World};
ghost use Rattle.node_state.specs.Seats.{meaning};
ghost use Rattle.node_mirror.specs.Fits.{Records};
ghost use Rattle.node_mirror.specs.Held.{Held, Mirrors, StandsFor, kept_places};
ghost use Rattle.node_mirror.specs.Slots.{is_giving};
ghost use Rattle.node_mirror.specs.Steps.{Requeued, taken};

use host_port::Engine;
use world_rules::sound;

/// An entry that is allowed, with the births that came with it, and whose steps the node has made, makes the node stand
/// for its journal again: its steps mirror what happened, it has queued who came home, and its row is the world's.
pub fn an_entry_stands<E: Engine>()
    ensures { (setting : Setting E.Program) (old new : Book) (was is : Held E) (v : World) (entry : Entry)
        (births : List Birth) (more : List EndMemory) →
        StandsFor (meaning E.stands E.phase E.memory) setting old (told old) was →
        Records old new entry births more →
        Allowed (Some (terms_of setting)) new.births (told old) entry →
        TurnIsRun setting (told old) (deed_of entry) →
        happened new.births (told old) (deed_of entry) ≡ v →
        Mirrors (meaning E.stands E.phase E.memory) setting v is new.ends →
        is.births ≡ length new.births →
        Requeued was.ready (giver_of (deed_of entry)) is →
        is.row ≡ row_after (told old) (deed_of entry) →
        ((pid : ℕ) → is_giving (is.slots pid) ≡ false) →
        kept_places is.out is.over ≤ new.entry_room →
        StandsFor (meaning E.stands E.phase E.memory) setting new (told new) is }
{}

/// A Take of the front of the ready list: the process leaves its home for the worker.
pub fn a_take_stands<E: Engine>()
    ensures { (setting : Setting E.Program) (old new : Book) (was : Held E) (rest : List ℕ) (pid worker : ℕ) →
        StandsFor (meaning E.stands E.phase E.memory) setting old (told old) was → was.over ≡ false →
        was.ready ≡ pid ∷ rest → Records old new (EntryIs.Take worker pid) [] [] →
        was.out + 3 ≤ old.entry_room →
        StandsFor (meaning E.stands E.phase E.memory) setting new (told new)
        (record (taken was pid worker) { ready = rest }) }
{
    sound();
}

/// More room in the journal changes nothing.
pub fn more_room_stands<E: Engine>()
    ensures { (setting : Setting E.Program) (old new : Book) (held : Held E) →
        StandsFor (meaning E.stands E.phase E.memory) setting old (told old) held → KeepsAll old new →
        StandsFor (meaning E.stands E.phase E.memory) setting new (told new) held }
{}
