ghost use Rattle.std.specs.Prelude.{◌≡◌};
ghost use Rattle.node_mirror.specs.Slots.{is_live_slot};
ghost use Rattle.node_state.specs.Posts.{time_at};
ghost use Rattle.process_store.specs.Keeps.{StoreKeeps};
ghost use Rattle.process_store.specs.Holds.{place_at};

mod answer;
mod arrive;
mod begin;
mod bring;
mod end;
mod late;
mod names;
mod post;
mod queueing;
mod receive;
mod room;
mod strike;
mod tag;
mod take;
mod wait;

use crate::place::is_live;
use crate::{Item, Place};
use host_port::Engine;
use link_signals::Links;
use name_registry::Registry;
use outside::Outside;
use resource_table::{Owned, Shed};
use run_queue::Queue;
use std::alloc::Global;
use tagged_mailbox::Mailbox;

/// The processes of a node, by their numbers, with all that stands between them.
pub struct Store<E: Engine, O: Outside> {
    alloc: Global,
    /// What stands at each number.
    places: Vec<Place<E, O>>,
    /// The mailbox of each number.
    mail: Vec<Mailbox<Item<O::Stream>>>,
    /// The processes that are ready, among those that have ended meanwhile; and the deadlines of those that wait.
    queue: Queue,
    /// Who came home in this entry.
    came: Vec<u64>,
    /// Who came back from its worker in this entry, and goes behind the others.
    giver: Option<u64>,
    names: Registry,
    links: Links,
    /// How many births the journal has.
    births: u64,
    /// How many processes haven't ended.
    unended: u64,
    /// How many processes a worker has.
    out: u64,
    /// How many sends were answered 0.
    sends: u64,
    /// The time in milliseconds.
    time: u64,
    /// How many Pending gives and early Ticks the last entries are, Takes left aside.
    row: u64,
    over: bool,
    /// How many stream numbers were drawn.
    streams: u64,
    /// The closed streams, in the order of closing.
    closed: Vec<Owned<O::Stream>>,
    /// Through it the streams of mailboxes are closed. It is empty between calls.
    shed: Shed<O::Stream>,
}

impl<E: Engine, O: Outside> Store<E, O> {
    /// Whether a live process has this number.
    pub fn is_live(&self, pid: u64) -> bool
        ensures { result ≡ is_live_slot (place_at self.now pid) }
    {
        is_live(&self.places, pid)
    }

    /// The time in milliseconds.
    pub fn time(&self) -> u64
        ensures { result ≡ self.now.time }
    {
        self.time
    }

    /// Sets the time to the clock's, where that is later.
    pub fn set_time(&mut self, now: u64)
        requires keeps { StoreKeeps self.old }
        ensures keeps { StoreKeeps self.new }
        ensures time { self.new ≡ record self.old { time = time_at self.old.time now } }
    {
        self.time = self.time.max(now);
    }

    /// Sets how many Pending gives and early Ticks the last entries are, Takes left aside.
    pub fn set_row(&mut self, row: u64)
        requires keeps { StoreKeeps self.old }
        ensures keeps { StoreKeeps self.new }
        ensures row { self.new ≡ record self.old { row = row } }
    {
        self.row = row;
    }
}
