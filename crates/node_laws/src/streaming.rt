ghost use Rattle.std.specs.Prelude.{◌≡◌, ◌≢◌, ◌⊎◌, ◌+◌, ◌<◌, ◌≤◌, ◌++◌, ℕ, List, [], length, true, false};
ghost use Rattle.resource_table.specs.Steps.{told as telling};
ghost use Rattle.world_rules.specs.declared.entry.Entry.{Entry};
ghost use Rattle.world_rules.specs.declared.entry.Side.{Side};
ghost use Rattle.world_rules.specs.declared.entry.Side.TheVariants as SideIs;
ghost use Rattle.world_rules.specs.declared.life.Ended.{Ended as EndMemory};
ghost use Rattle.world_rules.specs.Book.{Book};
ghost use Rattle.world_rules.specs.Lives.{Setting};
ghost use Rattle.world_rules.specs.Mail.{mail_handles};
ghost use Rattle.world_rules.specs.Part.{is_among, most_handles};
ghost use Rattle.world_rules.specs.Told.{told};
ghost use Rattle.world_rules.specs.Views.{Given, Giving, deed_of};
ghost use Rattle.node_state.specs.Seats.{IsOnce, meaning, part_handles};
ghost use Rattle.node_state.specs.Held.{Held, StandsFor};
ghost use Rattle.node_state.specs.Fits.{Brought, TurnFits, give_of, entry_of};
ghost use Rattle.node_state.specs.Streaming.{
  BroughtStreams,
  Kept,
  StreamsFit,
  StreamsStand,
  AreOwned,
  HandsOn,
  streamed_after,
  arrived_as,
};
ghost use Rattle.node_state.specs.Changes.{Records};

use host_port::Engine;
use outside::Stream;
use world_rules::{placed, sound, streams_stay, touches};

/// An entry keeps the streams of a node standing, where those of one process are handed on as the entry says.
///
/// `others`: an entry that is no Give, where the streams of one process stay, leave the node with it, or are closed.
/// `given`: a Give, where those that come back with the process, those of its mailbox and the one that was opened are
/// handed on or closed, and those that its calls closed are closed. A send that memory was refused to stands beside
/// another side than came.
pub fn streams_keep_standing<E: Engine, S: Stream>()
    ensures others { (setting : Setting E.Program) (old new : Book) (held after : Held E) (was is : Kept S) (pid : ℕ)
        (entry : Entry) (ends : List EndMemory) →
        StandsFor (meaning E.stands E.phase E.memory) setting old (told old) held →
        ((give : Given) → deed_of entry ≢ Giving give) → Records old new entry ends →
        StandsFor (meaning E.stands E.phase E.memory) setting new (told new) after →
        StreamsStand (telling S.taken S.put S.faults S.waits S.empties S.down) (told old) was →
        HandsOn (telling S.taken S.put S.faults S.waits S.empties S.down) was is pid (was.hands pid ++ was.mail pid) [] →
        StreamsStand (telling S.taken S.put S.faults S.waits S.empties S.down) (told new) is }
    ensures given { (setting : Setting E.Program) (old new : Book) (held after : Held E) (was is : Kept S)
        (worker pid : ℕ) (brought : Brought E) (streams : BroughtStreams S) (side : Side) (ends : List EndMemory) →
        StandsFor (meaning E.stands E.phase E.memory) setting old (told old) held →
        TurnFits (meaning E.stands E.phase E.memory) setting old.births (told old) worker pid brought →
        ∥ (side ≡ brought.side) ⊎ ((brought.side ≡ SideIs.Nothing) × (side ≡ SideIs.NoMemory)) ∥₁ →
        Records old new (entry_of worker pid brought side) ends →
        StandsFor (meaning E.stands E.phase E.memory) setting new (told new) after →
        StreamsStand (telling S.taken S.put S.faults S.waits S.empties S.down) (told old) was → AreOwned (told old) was →
        StreamsFit (telling S.taken S.put S.faults S.waits S.empties S.down)
        (streamed_after ((told old).process pid) (give_of worker pid brought) (told old).streamed) brought.side streams →
        HandsOn (telling S.taken S.put S.faults S.waits S.empties S.down) was is pid
        (streams.hands ++ was.mail pid ++ arrived_as (told old).streams streams.arrived) streams.shed →
        StreamsStand (telling S.taken S.put S.faults S.waits S.empties S.down) (told new) is }
{
    sound();
    touches();
    placed();
    streams_stay();
}

/// Where the streams of a node's world stand. No stream is twice in hand. There are no more closed streams than numbers
/// were drawn, also with those that a process has, or brings back, closed besides. A number that is drawn for an opened
/// stream is of none in hand, and the table has a place for it.
pub fn streams_stand_apart<E: Engine>()
    ensures once { (setting : Setting E.Program) (book : Book) (held : Held E) (pid : ℕ) →
        StandsFor (meaning E.stands E.phase E.memory) setting book (told book) held →
        IsOnce ((told book).process pid).part }
    ensures room { (setting : Setting E.Program) (book : Book) (held : Held E) (pid : ℕ) →
        StandsFor (meaning E.stands E.phase E.memory) setting book (told book) held →
        length (told book).closed + (length (part_handles ((told book).process pid).part)
        + length (mail_handles ((told book).process pid).mail)) ≤ (told book).streams }
    ensures room_given { (setting : Setting E.Program) (book : Book) (held : Held E) (worker pid : ℕ)
        (brought : Brought E) →
        StandsFor (meaning E.stands E.phase E.memory) setting book (told book) held →
        TurnFits (meaning E.stands E.phase E.memory) setting book.births (told book) worker pid brought →
        length (told book).closed + (length brought.shed + (length (part_handles brought.seat.part)
        + length (mail_handles ((told book).process pid).mail))) ≤ (told book).streams }
    ensures once_given { (setting : Setting E.Program) (book : Book) (held : Held E) (worker pid : ℕ)
        (brought : Brought E) →
        StandsFor (meaning E.stands E.phase E.memory) setting book (told book) held →
        TurnFits (meaning E.stands E.phase E.memory) setting book.births (told book) worker pid brought →
        IsOnce brought.seat.part }
    ensures undrawn { (setting : Setting E.Program) (book : Book) (held : Held E) (worker pid : ℕ)
        (brought : Brought E) →
        StandsFor (meaning E.stands E.phase E.memory) setting book (told book) held →
        TurnFits (meaning E.stands E.phase E.memory) setting book.births (told book) worker pid brought →
        is_among (part_handles brought.seat.part) (told book).streams ≡ false }
    ensures place { (setting : Setting E.Program) (book : Book) (held : Held E) (worker pid : ℕ) (brought : Brought E) →
        StandsFor (meaning E.stands E.phase E.memory) setting book (told book) held →
        TurnFits (meaning E.stands E.phase E.memory) setting book.births (told book) worker pid brought →
        brought.side ≡ SideIs.Opened → length brought.seat.part.handles < most_handles }
{
    sound();
    placed();
}
