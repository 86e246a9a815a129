ghost use Rattle.std.specs.Prelude.{◌≡◌, ◌≢◌, ◌<◌, ◌≤◌, [], IfOk, IfErr, OnOk, Some, None};
ghost use Rattle.std.specs.Prelude.{map, slice_get, length, true};
ghost use Rattle.std.specs.Arc.{arc_value};
ghost use Rattle.resource_table.specs.Steps.{told};
ghost use Rattle.host_port.specs.declared.start.StartRefusal.TheVariants.{NoMemory as NoMemoryLeft};
ghost use Rattle.world_rules.specs.Book.{KeepsAll};
ghost use Rattle.world_rules.specs.Lives.{IsRun};
ghost use Rattle.node_state.specs.Rows.{AllHaveRows};
ghost use Rattle.process_store.specs.Seen.{KeepsStreams, setting_of, world_of};
ghost use Rattle.process_store.specs.Takes.{SameTerms, BeginsWith, away_in};

mod ask;
mod give;
mod network;
mod take;
mod tick;

use crate::Store;
use host_port::{Engine, Start, StartRefusal};
use journal::Journal;
use memory_refusal::NoMemory;
use node_mirror::{first_node_stands, more_room_stands};
use outside::Outside;
use resource_table::Owned;
use std::alloc::Global;
use std::marker::Model;
use std::sync::Arc;
use world_rules::{Birth, sound, touches};

/// One state of all processes, with its journal.
///
/// After every call the journal is a run: each process at home is its program's run on its own start and replies, and
/// each reply is the one-thread world's.
pub struct Node<E: Engine, O: Outside> {
    programs: Vec<Arc<E::Program>>,
    live: u32,
    idle: u64,
    journal: Journal,
    store: Store<E, O>,
    /// How many entries may be recorded beside the Gives that are to come, and Starve.
    spare: u32,
}

impl<E: Engine, O: Outside> Model for Node<E, O> {
    ghost use Rattle.std.specs.Prelude.{map};
    ghost use Rattle.std.specs.Arc.{arc_value};
    ghost use Rattle.node_state.specs.Seats.{meaning};
    ghost use Rattle.resource_table.specs.Steps.{told};
    ghost use Rattle.process_store.specs.Seen.{Seen, seen, setting_of};
    ghost use Rattle.process_store.specs.Holds.{hands_at, streams_of};
    ghost use Rattle.process_store.specs.NodeKeeps.{NodeKeeps};

    ghost Value = { Seen E.Program O.Stream };

    ghost view = { λ a.
        seen (map arc_value a.programs.items) a.journal a.live a.idle a.spare
        (map hands_at a.store.places.items) (map streams_of a.store.mail.items) a.store.closed.items };

    ghost invariant = { λ a.
        NodeKeeps (meaning E.stands E.phase E.memory) E.may_ask
        (told O.Stream.taken O.Stream.put O.Stream.faults O.Stream.waits O.Stream.empties O.Stream.down)
        (setting_of E.begin E.at (seen (map arc_value a.programs.items) a.journal a.live a.idle 0
        (map hands_at a.store.places.items) (map streams_of a.store.mail.items) a.store.closed.items))
        a.journal a.store a.spare };
}

/// The entries of a tick, and of one take and its give.
const SPARE: u32 = 3;

/// A journal of the birth of process 1, with a place for a Starve.
fn first_journal(alloc: Global, start: &Start) -> Result<Journal, NoMemory>
    ensures begins { IfOk result (λ journal. BeginsWith start.now journal) }
    ensures place { IfOk result (λ journal. 0 < journal.entry_room) }
{
    let mut journal = Journal::new(alloc);
    journal.reserve(1)?;
    let copy = start.try_clone()?;
    journal.born(Birth::Born(copy));
    Ok(journal)
}

impl<E: Engine, O: Outside> Node<E, O> {
    /// A node in which process 1 is born with this start, and nothing has happened. `live` and `idle` are the terms of
    /// its run: how many processes may live at once, and how long it may be idle.
    ///
    /// It is refused with what the program's begin says, or for want of memory, and then the begin refuses nothing.
    pub fn new(
        alloc: Global,
        programs: Vec<Arc<E::Program>>,
        start: Start,
        live: u32,
        idle: u64,
    ) -> Result<Node<E, O>, StartRefusal>
        requires program { start.module < length programs.items }
        requires first { start.pid ≡ 1 }
        requires rows { AllHaveRows E.may_ask (map arc_value programs.items) }
        ensures programs { IfOk result (λ node. node.programs ≡ map arc_value programs.items) }
        ensures live { IfOk result (λ node. node.live ≡ live) }
        ensures idle { IfOk result (λ node. node.idle ≡ idle) }
        ensures begins { IfOk result (λ node. BeginsWith start node.book) }
        ensures closed { IfOk result (λ node. node.closed_kept ≡ []) }
        ensures streams { IfOk result (λ node. KeepsStreams
            (told O.Stream.taken O.Stream.put O.Stream.faults O.Stream.waits O.Stream.empties O.Stream.down) node) }
        ensures run { IfOk result (λ node. IsRun (setting_of E.begin E.at node) node.book) }
        ensures refused { IfErr result (λ why. why ≢ NoMemoryLeft → (program : E.Program) →
            slice_get (map arc_value programs.items) start.module ≡ Some program → E.begin program start ≡ Some why) }
        ensures wants { IfErr result (λ why. why ≡ NoMemoryLeft → (program : E.Program) →
            slice_get (map arc_value programs.items) start.module ≡ Some program → E.begin program start ≡ None) }
    {
        first_node_stands::<E>();
        let engine = E::start(alloc, &programs[start.module as usize], &start)?;
        let Ok(journal) = first_journal(alloc, &start) else {
            return Err(StartRefusal::NoMemory);
        };
        let Ok(store) = Store::new(alloc, engine, start) else {
            return Err(StartRefusal::NoMemory);
        };
        Ok(Node {
            programs,
            live,
            idle,
            journal,
            store,
            spare: 0,
        })
    }

    /// Makes room for the entries of a tick, and of one take and its give, beside what is reserved for those that are
    /// out, and for one closed stream more than each that was drawn. NoMemory leaves all as it was.
    pub fn reserve_turn(&mut self) -> Result<(), NoMemory>
        ensures same { SameTerms self.old self.new }
        ensures kept { KeepsAll self.old.book self.new.book }
        ensures reserved { OnOk result (3 ≤ self.new.spare) }
        ensures spare { self.old.spare ≤ self.new.spare }
        ensures streams { KeepsStreams
            (told O.Stream.taken O.Stream.put O.Stream.faults O.Stream.waits O.Stream.empties O.Stream.down) self.new }
        ensures run { IsRun (setting_of E.begin E.at self.new) self.new.book }
    {
        more_room_stands::<E>();
        let Ok(places) = u32::try_from(self.store.out().saturating_add(4)) else {
            return Err(NoMemory);
        };
        self.store.reserve(4)?;
        self.journal.reserve(places)?;
        self.spare = SPARE;
        Ok(())
    }

    /// How many processes are out to workers, the doomed among them.
    pub fn out(&self) -> u64
        ensures { result ≡ away_in (world_of self.now) }
    {
        self.store.out()
    }

    /// Gives up the journal of a run that is over, when no worker has a process, and the closed streams, in the order
    /// of closing.
    pub fn close(self) -> (Journal, Vec<Owned<O::Stream>>)
        requires over { (world_of self).over ≡ true }
        requires home { away_in (world_of self) ≡ 0 }
        ensures journal { result.0 ≡ self.book }
        ensures closed { result.1.items ≡ self.closed_kept }
        ensures streams { KeepsStreams
            (told O.Stream.taken O.Stream.put O.Stream.faults O.Stream.waits O.Stream.empties O.Stream.down) self }
        ensures run { IsRun (setting_of E.begin E.at self) result.0 }
    {
        sound();
        touches();
        let Node {
            programs: _,
            live: _,
            idle: _,
            journal,
            store,
            spare: _,
        } = self;
        (journal, store.close())
    }
}
