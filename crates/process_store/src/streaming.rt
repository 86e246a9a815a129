ghost use Rattle.std.specs.Prelude.{◌≡◌, ◌≢◌, ◌⊎◌, ◌+◌, ◌<◌, ◌≤◌, ◌++◌, ℕ, List, [], false, length};
ghost use Rattle.resource_table.specs.Handles.{Handle, numbers_of};
ghost use Rattle.resource_table.specs.Steps.{told as telling};
ghost use Rattle.world_rules.specs.declared.entry.Entry.{Entry};
ghost use Rattle.world_rules.specs.declared.entry.Side.{Side};
ghost use Rattle.world_rules.specs.declared.entry.Side.TheVariants as SideIs;
ghost use Rattle.world_rules.specs.declared.life.Birth.{Birth};
ghost use Rattle.world_rules.specs.declared.life.Ended.{Ended as EndMemory};
ghost use Rattle.world_rules.specs.Book.{Book};
ghost use Rattle.world_rules.specs.Lives.{Setting};
ghost use Rattle.world_rules.specs.Part.{is_among, most_handles};
ghost use Rattle.world_rules.specs.Told.{told};
ghost use Rattle.world_rules.specs.Views.{Given, Giving, deed_of};
ghost use Rattle.node_state.specs.Seats.{IsOnce, meaning, part_handles};
ghost use Rattle.node_state.specs.Fits.{Brought, entry_of, give_of};
ghost use Rattle.node_state.specs.Streaming.{
  AreOwned,
  BroughtStreams,
  Kept,
  StreamsFit,
  StreamsStand,
  arrived_as,
  streamed_after,
};
ghost use Rattle.node_mirror.specs.Held.{Held, StandsFor};
ghost use Rattle.node_mirror.specs.Fits.{Records, TurnFits};
ghost use Rattle.process_store.specs.declared.store.Store.{Store};
ghost use Rattle.process_store.specs.Holds.{held_of, kept_of};
ghost use Rattle.process_store.specs.Keeps.{stream_count};
ghost use Rattle.process_store.specs.PassOn.{PassesOn};

use host_port::Engine;
use outside::{Outside, Stream};
use world_rules::{placed, sound, streams_stay, touches};

/// An entry keeps the streams of a node standing, where they are passed on.
///
/// `others`: an entry that is no Give, where nothing comes and nothing is shed. `given`: a Give, where those that come
/// back with the process and the one that was opened come in, and those that its calls closed are closed. A send that
/// memory was refused to stands beside another side than came.
pub fn streams_pass_on<E: Engine, S: Stream>()
    ensures others { (setting : Setting E.Program) (old new : Book) (held after : Held E) (was is : Kept S)
        (entry : Entry) (births : List Birth) (ends : List EndMemory) →
        StandsFor (meaning E.stands E.phase E.memory) setting old (told old) held →
        ((give : Given) → deed_of entry ≢ Giving give) → Records old new entry births ends →
        StandsFor (meaning E.stands E.phase E.memory) setting new (told new) after →
        StreamsStand (telling S.taken S.put S.faults S.waits S.empties S.down) (told old) was →
        PassesOn (telling S.taken S.put S.faults S.waits S.empties S.down) was is [] [] →
        StreamsStand (telling S.taken S.put S.faults S.waits S.empties S.down) (told new) is }
    ensures given { (setting : Setting E.Program) (old new : Book) (held after : Held E) (was is : Kept S)
        (worker pid : ℕ) (brought : Brought E) (streams : BroughtStreams S) (side : Side) (births : List Birth)
        (ends : List EndMemory) →
        StandsFor (meaning E.stands E.phase E.memory) setting old (told old) held →
        TurnFits (meaning E.stands E.phase E.memory) setting old.births (told old) worker pid brought →
        ∥ (side ≡ brought.side) ⊎ ((brought.side ≡ SideIs.Nothing) × (side ≡ SideIs.NoMemory)) ∥₁ →
        Records old new (entry_of worker pid brought side) births ends →
        StandsFor (meaning E.stands E.phase E.memory) setting new (told new) after →
        StreamsStand (telling S.taken S.put S.faults S.waits S.empties S.down) (told old) was → AreOwned (told old) was →
        StreamsFit (telling S.taken S.put S.faults S.waits S.empties S.down)
        (streamed_after ((told old).process pid) (give_of worker pid brought) (told old).streamed) brought.side streams →
        PassesOn (telling S.taken S.put S.faults S.waits S.empties S.down) was is
        (streams.hands ++ arrived_as (told old).streams streams.arrived) streams.shed →
        StreamsStand (telling S.taken S.put S.faults S.waits S.empties S.down) (told new) is }
{
    sound();
    touches();
    placed();
    streams_stay();
}

/// Where the streams of a node's world stand: no stream is twice in hand, also of what comes back; a number that is drawn
/// for an opened stream is of none in hand, and the table has a place for it.
pub fn streams_stand_once<E: Engine>()
    ensures once { (setting : Setting E.Program) (book : Book) (held : Held E) (pid : ℕ) →
        StandsFor (meaning E.stands E.phase E.memory) setting book (told book) held →
        IsOnce ((told book).process pid).part }
    ensures once_given { (setting : Setting E.Program) (book : Book) (held : Held E) (worker pid : ℕ)
        (brought : Brought E) →
        StandsFor (meaning E.stands E.phase E.memory) setting book (told book) held →
        TurnFits (meaning E.stands E.phase E.memory) setting book.births (told book) worker pid brought →
        IsOnce brought.seat.part }
    ensures undrawn { (setting : Setting E.Program) (book : Book) (held : Held E) (worker pid : ℕ)
        (brought : Brought E) →
        StandsFor (meaning E.stands E.phase E.memory) setting book (told book) held →
        TurnFits (meaning E.stands E.phase E.memory) setting book.births (told book) worker pid brought →
        is_among (part_handles brought.seat.part) (told book).streams ≡ false }
    ensures place { (setting : Setting E.Program) (book : Book) (held : Held E) (worker pid : ℕ) (brought : Brought E) →
        StandsFor (meaning E.stands E.phase E.memory) setting book (told book) held →
        TurnFits (meaning E.stands E.phase E.memory) setting book.births (told book) worker pid brought →
        brought.side ≡ SideIs.Opened → length brought.seat.part.handles < most_handles }
{
    sound();
    placed();
}

/// There are no more streams than numbers were drawn, also with those that a process brings back.
pub fn streams_are_few<E: Engine, O: Outside>()
    ensures given { (setting : Setting E.Program) (book : Book) (store : Store E O E.Program O.Stream O.Listener)
        (worker pid : ℕ) (brought : Brought E) (hands shed : List (Handle O.Stream)) →
        StandsFor (meaning E.stands E.phase E.memory) setting book (told book) (held_of store) →
        AreOwned (told book) (kept_of store) →
        TurnFits (meaning E.stands E.phase E.memory) setting book.births (told book) worker pid brought →
        numbers_of hands ≡ part_handles brought.seat.part → numbers_of shed ≡ brought.shed →
        stream_count store + length hands + length shed ≤ store.streams }
{
    sound();
    placed();
}
