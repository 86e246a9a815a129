ghost use Rattle.std.specs.Prelude.{◌≡◌, ◌++◌, ℕ, List, [], ◌∷◌, None, true, false};
ghost use Rattle.world_rules.specs.declared.entry.Side.TheVariants as SideIs;
ghost use Rattle.world_rules.specs.declared.halt.Halt.TheVariants as HaltIs;
ghost use Rattle.world_rules.specs.declared.halt.End.{End};
ghost use Rattle.world_rules.specs.declared.life.Ended.{Ended as EndMemory};
ghost use Rattle.world_rules.specs.Book.{Book};
ghost use Rattle.world_rules.specs.Lives.{Setting};
ghost use Rattle.world_rules.specs.Mail.{mail_handles};
ghost use Rattle.world_rules.specs.Told.{told};
ghost use Rattle.world_rules.specs.Views.{Ends, want_of};
ghost use Rattle.node_state.specs.Seats.{meaning, part_handles};
ghost use Rattle.node_state.specs.Slots.{Home, Away, Fated, Gone};
ghost use Rattle.node_state.specs.Held.{Held, StandsFor};
ghost use Rattle.node_state.specs.Fits.{Brought, TurnFits, ShowMemory, IsLastOf, entry_of};
ghost use Rattle.node_state.specs.Posts.{time_beside, drawn_beside, opened_number};
ghost use Rattle.node_state.specs.Changes.{Records, GivesBack, Counts, Closes};

use host_port::Engine;
use world_rules::{sound, touches};

/// A Give of a process that a bound of its turn has stopped keeps a node standing for its journal.
pub fn a_slice_keeps<E: Engine>()
    ensures { (setting : Setting E.Program) (old new : Book) (was is : Held E) (pid worker : ℕ) (brought : Brought E) →
        StandsFor (meaning E.stands E.phase E.memory) setting old (told old) was → was.over ≡ false →
        was.slots pid ≡ Away worker → brought.halt ≡ HaltIs.Slice → brought.side ≡ SideIs.Nothing →
        TurnFits (meaning E.stands E.phase E.memory) setting old.births (told old) worker pid brought →
        GivesBack was is pid (Home brought.seat) true (was.mail pid) (was.deadlines pid) →
        Counts was is was.sends was.time 0 → Closes was is was.streams brought.shed →
        Records old new (entry_of worker pid brought SideIs.Nothing) [] →
        StandsFor (meaning E.stands E.phase E.memory) setting new (told new) is }
{}

/// A Give of a process that ends by its halt does, with the memory of its end; process 1 is alone, so the run is over.
/// What its calls closed is closed first, then its streams in hand, then those of its mailbox.
pub fn an_end_keeps<E: Engine>()
    ensures { (setting : Setting E.Program) (old new : Book) (was is : Held E) (pid worker : ℕ) (brought : Brought E)
        (end : End) (memory : EndMemory) →
        ShowMemory (meaning E.stands E.phase E.memory) setting →
        StandsFor (meaning E.stands E.phase E.memory) setting old (told old) was → was.over ≡ false →
        was.slots pid ≡ Away worker → want_of brought.halt ≡ Ends end → brought.side ≡ SideIs.Nothing →
        TurnFits (meaning E.stands E.phase E.memory) setting old.births (told old) worker pid brought →
        IsLastOf (meaning E.stands E.phase E.memory) pid brought.seat.engine memory →
        GivesBack was is pid Gone false [] None → is.over ≡ true →
        is.sends ≡ was.sends → is.time ≡ was.time → is.row ≡ 0 →
        Closes was is was.streams
        (brought.shed ++ part_handles brought.seat.part ++ mail_handles (was.mail pid)) →
        Records old new (entry_of worker pid brought SideIs.Nothing) (memory ∷ []) →
        StandsFor (meaning E.stands E.phase E.memory) setting new (told new) is }
{
    sound();
    touches();
}

/// A Give of a process that was doomed while it was out does, with the memory of its end; its halt isn't performed. A
/// stream that was opened for it is closed behind those that its calls closed, and before those in hand.
pub fn a_doomed_give_keeps<E: Engine>()
    ensures { (setting : Setting E.Program) (old new : Book) (was is : Held E) (pid worker : ℕ) (brought : Brought E)
        (end : End) (memory : EndMemory) →
        ShowMemory (meaning E.stands E.phase E.memory) setting →
        StandsFor (meaning E.stands E.phase E.memory) setting old (told old) was →
        was.slots pid ≡ Fated worker end →
        TurnFits (meaning E.stands E.phase E.memory) setting old.births (told old) worker pid brought →
        IsLastOf (meaning E.stands E.phase E.memory) pid brought.seat.engine memory →
        GivesBack was is pid Gone false [] None → is.over ≡ true →
        is.sends ≡ was.sends → is.time ≡ time_beside brought.side was.time → is.row ≡ 0 →
        Closes was is (drawn_beside brought.side was.streams)
        (brought.shed ++ opened_number brought.side was.streams ++ part_handles brought.seat.part) →
        Records old new (entry_of worker pid brought brought.side) (memory ∷ []) →
        StandsFor (meaning E.stands E.phase E.memory) setting new (told new) is }
{
    sound();
    touches();
}
