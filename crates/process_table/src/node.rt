ghost use Rattle.std.specs.Prelude.{◌≡◌, ◌≢◌, ◌<◌, ◌≤◌, List, [], ◌∷◌, IfOk, IfErr, OnOk, Some, None};
ghost use Rattle.std.specs.Prelude.{map, slice_get, length, true, vec_capacity};
ghost use Rattle.std.specs.Arc.{arc_value};
ghost use Rattle.std.specs.FinMap.{empty};
ghost use Rattle.resource_table.specs.Steps.{told};
ghost use Rattle.host_port.specs.declared.start.StartRefusal.TheVariants.{NoMemory as NoMemoryLeft};
ghost use Rattle.world_rules.specs.Book.{KeepsAll};
ghost use Rattle.world_rules.specs.Lives.{IsRun};
ghost use Rattle.node_state.specs.Rows.{AllHaveRows};
ghost use Rattle.process_table.specs.declared.place.Place.TheVariants.{Nobody, Home};
ghost use Rattle.process_table.specs.Seen.{KeepsStreams, setting_of, world_of};
ghost use Rattle.process_table.specs.Takes.{SameTerms, BeginsWith, away_in};
ghost use Rattle.process_table.specs.Begins.{HoldsNothing};

mod ask;
mod give;
mod network;
mod take;
mod tick;

use crate::Letter;
use crate::place::{Place, let_go};
use host_calls::Proc;
use host_port::{Engine, Start, StartRefusal};
use journal::Journal;
use memory_refusal::NoMemory;
use node_laws::streams_stand_apart;
use outside::{Outside, Stream};
use resource_table::{Owned, Shed};
use run_queue::Queue;
use std::alloc::Global;
use std::marker::Model;
use std::sync::Arc;
use tagged_mailbox::Mailbox;
use world_rules::{Birth, sound, touches};

/// One state of all processes, with its journal.
///
/// After every call the journal is a run: each process at home is its program's run on its own start and replies, and
/// each reply is the one-thread world's.
pub struct Node<E: Engine, O: Outside> {
    alloc: Global,
    programs: Vec<Arc<E::Program>>,
    live: u32,
    idle: u64,
    journal: Journal,
    /// What stands at each number.
    places: Vec<Place<E, O>>,
    /// The mailbox of each number.
    mail: Vec<Mailbox<Letter<O::Stream>>>,
    /// The processes that are ready, and the deadlines of those that wait.
    queue: Queue,
    /// How many sends were answered 0.
    sends: u64,
    /// The time in milliseconds.
    time: u64,
    /// How many Pending gives and early Ticks the last entries are, Takes left aside.
    row: u64,
    /// How many processes a worker has.
    out: u32,
    over: bool,
    /// How many stream numbers were drawn.
    streams: u64,
    /// The closed streams, in the order of closing. There is room for each that was drawn.
    closed: Vec<Owned<O::Stream>>,
    /// Through it the streams of mailboxes are closed. It is empty between calls.
    shed: Shed<O::Stream>,
    /// How many entries may be recorded beside the Gives that are to come, and Starve.
    spare: u32,
}

impl<E: Engine, O: Outside> Model for Node<E, O> {
    ghost use Rattle.std.specs.Prelude.{map, vec_capacity};
    ghost use Rattle.std.specs.Arc.{arc_value};
    ghost use Rattle.node_state.specs.Seats.{meaning};
    ghost use Rattle.resource_table.specs.Steps.{told};
    ghost use Rattle.process_table.specs.Seen.{Seen, seen, setting_of};
    ghost use Rattle.process_table.specs.Holds.{NodeKeeps, hands_at, streams_of};

    ghost Value = { Seen E.Program O.Stream };

    ghost view = { λ a.
        seen (map arc_value a.programs.items) a.journal a.live a.idle a.spare
        (map hands_at a.places.items) (map streams_of a.mail.items) a.closed.items };

    ghost invariant = { λ a.
        NodeKeeps (meaning E.stands E.phase E.memory) E.may_ask
        (told O.Stream.taken O.Stream.put O.Stream.faults O.Stream.waits O.Stream.empties O.Stream.down)
        (setting_of E.begin E.at (seen (map arc_value a.programs.items) a.journal a.live a.idle 0
        (map hands_at a.places.items) (map streams_of a.mail.items) a.closed.items)) a.journal
        (record {
          places = a.places.items;
          mail = a.mail.items;
          queue = a.queue;
          sends = a.sends;
          time = a.time;
          row = a.row;
          out = a.out;
          over = a.over;
          streams = a.streams;
          closed = a.closed.items;
          closed_room = vec_capacity a.closed;
          shed = a.shed;
          spare = a.spare;
        }) };
}

/// The number of the first process.
const FIRST: u64 = 1;

/// How many numbers there are, from 0 on.
const NUMBERS: usize = 2;

/// The entries of a tick, and of one take and its give.
const SPARE: u32 = 3;

/// What a node holds where process 1 is at home, and nothing else is there.
struct Holdings<E: Engine, O: Outside> {
    places: Vec<Place<E, O>>,
    mail: Vec<Mailbox<Letter<O::Stream>>>,
    shed: Shed<O::Stream>,
}

/// The places of the numbers 0 and 1: process 1 is at home.
fn fill_places<E: Engine, O: Outside>(places: &mut Vec<Place<E, O>>, proc: Proc<E, O>)
    requires empty { places.old.items ≡ [] }
    requires room { 2 ≤ vec_capacity places.old }
    ensures { places.new.items ≡ Nobody ∷ Home proc ∷ [] }
{
    places.push_reserved(Place::Nobody);
    places.push_reserved(Place::Home(proc));
}

/// An empty mailbox for each of the numbers 0 and 1.
fn fill_mail<S: Stream>(alloc: Global, mail: &mut Vec<Mailbox<Letter<S>>>)
    requires empty { mail.old.items ≡ [] }
    requires room { 2 ≤ vec_capacity mail.old }
    ensures { map (λ box. box.items) mail.new.items ≡ [] ∷ [] ∷ [] }
{
    mail.push_reserved(Mailbox::new(alloc));
    mail.push_reserved(Mailbox::new(alloc));
}

/// Process 1 at home, with this engine and this start, and an empty mailbox.
fn first_holdings<E: Engine, O: Outside>(
    alloc: Global,
    engine: E,
    start: Start,
) -> Result<Holdings<E, O>, NoMemory>
    ensures { IfOk result (λ holdings. HoldsNothing engine start holdings) }
{
    let shed = Shed::new(alloc)?;
    let mut places = match Vec::with_capacity(alloc, NUMBERS) {
        Ok(places) => places,
        Err(_) => {
            shed.destroy_empty();
            return Err(NoMemory);
        }
    };
    let mut mail = match Vec::with_capacity(alloc, NUMBERS) {
        Ok(mail) => mail,
        Err(_) => {
            shed.destroy_empty();
            places.destroy_empty();
            return Err(NoMemory);
        }
    };
    let proc = match Proc::new(alloc, engine, start) {
        Ok(proc) => proc,
        Err(NoMemory) => {
            shed.destroy_empty();
            places.destroy_empty();
            mail.destroy_empty();
            return Err(NoMemory);
        }
    };
    fill_places(&mut places, proc);
    fill_mail(alloc, &mut mail);
    Ok(Holdings { places, mail, shed })
}

/// A queue in which process 1 is ready and nobody waits.
fn first_queue(alloc: Global) -> Result<Queue, NoMemory>
    ensures ready { IfOk result (λ queue. queue.ready ≡ 1 ∷ []) }
    ensures deadlines { IfOk result (λ queue. queue.deadlines ≡ empty) }
    ensures room { IfOk result (λ queue. 2 ≤ queue.room) }
{
    let mut queue = Queue::new(alloc);
    queue.reserve(NUMBERS as u32)?;
    queue.push_reserved(FIRST);
    Ok(queue)
}

/// A journal of the birth of process 1, with a place for a Starve.
fn first_journal(alloc: Global, start: &Start) -> Result<Journal, NoMemory>
    ensures begins { IfOk result (λ journal. BeginsWith start.now journal) }
    ensures place { IfOk result (λ journal. 0 < journal.entry_room) }
{
    let mut journal = Journal::new(alloc);
    journal.reserve(1)?;
    let copy = start.try_clone()?;
    journal.born(Birth::Born(copy));
    Ok(journal)
}

impl<E: Engine, O: Outside> Node<E, O> {
    /// A node in which process 1 is born with this start, and nothing has happened. `live` and `idle` are the terms of
    /// its run: how many processes may live at once, and how long it may be idle.
    ///
    /// It is refused with what the program's begin says, or for want of memory, and then the begin refuses nothing.
    pub fn new(
        alloc: Global,
        programs: Vec<Arc<E::Program>>,
        start: Start,
        live: u32,
        idle: u64,
    ) -> Result<Node<E, O>, StartRefusal>
        requires program { start.module < length programs.items }
        requires first { start.pid ≡ 1 }
        requires rows { AllHaveRows E.may_ask (map arc_value programs.items) }
        ensures programs { IfOk result (λ node. node.programs ≡ map arc_value programs.items) }
        ensures live { IfOk result (λ node. node.live ≡ live) }
        ensures idle { IfOk result (λ node. node.idle ≡ idle) }
        ensures begins { IfOk result (λ node. BeginsWith start node.book) }
        ensures closed { IfOk result (λ node. node.closed_kept ≡ []) }
        ensures streams { IfOk result (λ node. KeepsStreams
            (told O.Stream.taken O.Stream.put O.Stream.faults O.Stream.waits O.Stream.empties O.Stream.down) node) }
        ensures run { IfOk result (λ node. IsRun (setting_of E.begin E.at node) node.book) }
        ensures refused { IfErr result (λ why. why ≢ NoMemoryLeft → (program : E.Program) →
            slice_get (map arc_value programs.items) start.module ≡ Some program → E.begin program start ≡ Some why) }
        ensures wants { IfErr result (λ why. why ≡ NoMemoryLeft → (program : E.Program) →
            slice_get (map arc_value programs.items) start.module ≡ Some program → E.begin program start ≡ None) }
    {
        let engine = E::start(alloc, &programs[start.module as usize], &start)?;
        let Ok(journal) = first_journal(alloc, &start) else {
            return Err(StartRefusal::NoMemory);
        };
        let Ok(queue) = first_queue(alloc) else {
            return Err(StartRefusal::NoMemory);
        };
        let Holdings { places, mail, shed } = match first_holdings(alloc, engine, start) {
            Ok(holdings) => holdings,
            Err(NoMemory) => return Err(StartRefusal::NoMemory),
        };
        Ok(Node {
            alloc,
            programs,
            live,
            idle,
            journal,
            places,
            mail,
            queue,
            sends: 0,
            time: 0,
            row: 0,
            out: 0,
            over: false,
            streams: 0,
            closed: Vec::new(alloc),
            shed,
            spare: 0,
        })
    }

    /// Makes room for the entries of a tick, and of one take and its give, beside what is reserved for those that are
    /// out, and for one closed stream more than each that was drawn. NoMemory leaves all as it was.
    pub fn reserve_turn(&mut self) -> Result<(), NoMemory>
        ensures same { SameTerms self.old self.new }
        ensures kept { KeepsAll self.old.book self.new.book }
        ensures reserved { OnOk result (3 ≤ self.new.spare) }
        ensures spare { self.old.spare ≤ self.new.spare }
        ensures streams { KeepsStreams
            (told O.Stream.taken O.Stream.put O.Stream.faults O.Stream.waits O.Stream.empties O.Stream.down) self.new }
        ensures run { IsRun (setting_of E.begin E.at self.new) self.new.book }
    {
        streams_stand_apart::<E>();
        let Some(places) = self.out.checked_add(4) else {
            return Err(NoMemory);
        };
        let Some(streams) = self.streams.checked_add(places as u64) else {
            return Err(NoMemory);
        };
        self.closed.reserve(streams as usize - self.closed.len())?;
        self.journal.reserve(places)?;
        self.spare = SPARE;
        Ok(())
    }

    /// How many processes are out to workers, the doomed among them.
    pub fn out(&self) -> u32
        ensures { result ≡ away_in (world_of self.now) }
    {
        self.out
    }

    /// Gives up the journal of a run that is over, when no worker has a process, and the closed streams, in the order
    /// of closing.
    pub fn close(self) -> (Journal, Vec<Owned<O::Stream>>)
        requires over { (world_of self).over ≡ true }
        requires home { away_in (world_of self) ≡ 0 }
        ensures journal { result.0 ≡ self.book }
        ensures closed { result.1.items ≡ self.closed_kept }
        ensures streams { KeepsStreams
            (told O.Stream.taken O.Stream.put O.Stream.faults O.Stream.waits O.Stream.empties O.Stream.down) self }
        ensures run { IsRun (setting_of E.begin E.at self) result.0 }
    {
        sound();
        touches();
        let Node {
            alloc: _,
            programs: _,
            live: _,
            idle: _,
            journal,
            places,
            mail,
            queue: _,
            sends: _,
            time: _,
            row: _,
            out: _,
            over: _,
            streams: _,
            closed,
            shed,
            spare: _,
        } = self;
        let mut left = places;
        while let Some(place) = left.pop() {
            let_go(place);
        }
        left.destroy_empty();
        let mut boxes = mail;
        while let Some(empty) = boxes.pop() {
            empty.destroy_empty();
        }
        boxes.destroy_empty();
        shed.destroy_empty();
        (journal, closed)
    }
}
