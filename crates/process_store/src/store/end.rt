ghost use Rattle.std.specs.Prelude.{◌≡◌, ◌+◌, ◌<◌, ◌≤◌, ◌^◌, ◌++◌, ℕ, [], None, length, vec_len, vec_capacity};
ghost use Rattle.resource_table.specs.Handles.{numbers_of};
ghost use Rattle.resource_table.specs.Steps.{Sheds, told};
ghost use Rattle.world_rules.specs.declared.halt.End.{End};
ghost use Rattle.node_state.specs.Seats.{meaning, part_handles};
ghost use Rattle.node_state.specs.Streaming.{arrived_as};
ghost use Rattle.node_mirror.specs.Slots.{Away, Fated, Gone};
ghost use Rattle.node_mirror.specs.Steps.{back, gone};
ghost use Rattle.host_calls.specs.Shown.{hands_of, shown_part};
ghost use Rattle.process_store.specs.Keeps.{StoreKeeps, stream_count};
ghost use Rattle.process_store.specs.PassOn.{PassesOn};
ghost use Rattle.process_store.specs.Holds.{Becomes, held_of, kept_of, place_at};
ghost use Rattle.process_store.specs.Telling.{AddsEndOf, HasEndRoom};

use super::Store;
use super::strike::last_of;
use crate::Place;
use crate::closing::{close_all, close_mail, close_proc};
use crate::place::set_place;
use host_calls::Proc;
use host_port::Engine;
use journal::Journal;
use outside::{Outside, Stream};
use resource_table::{Owned, Shed};
use std::mem::replace;
use tagged_mailbox::Mailbox;

/// A stream that was opened for a doomed process gets this number, is shut, and moves behind the closed ones. The
/// result is the next number. The shed is empty before and after.
fn close_arrived<S: Stream>(
    closed: &mut Vec<Owned<S>>,
    shed: &mut Shed<S>,
    number: u64,
    arrived: Option<S>,
) -> u64
    requires empty { shed.old ≡ [] }
    requires room { vec_len closed.old + 1 ≤ vec_capacity closed.old }
    requires few { number + 1 < 2 ^ 63 }
    ensures closed { Sheds (told S.taken S.put S.faults S.waits S.empties S.down) (arrived_as number arrived)
        closed.old.items closed.new.items }
    ensures shed { shed.new ≡ [] }
    ensures capacity { vec_capacity closed.new ≡ vec_capacity closed.old }
    ensures next { result ≡ number + length (arrived_as number arrived) }
{
    let Some(stream) = arrived else {
        return number;
    };
    shed.shut(Owned::of(number, stream));
    close_all(closed, shed);
    number + 1
}

impl<E: Engine, O: Outside> Store<E, O> {
    /// Takes back a process that has ended by its own halt: what its calls closed is closed first, then what it has in
    /// hand, then what lies in its mailbox; no name names it. What is kept of its memory is recorded.
    pub fn bring_ended(&mut self, journal: &mut Journal, mut proc: Proc<E, O>)
        requires keeps { StoreKeeps self.old }
        requires away { (worker : ℕ) × (place_at self.old proc.start.pid ≡ Away worker) }
        requires few { stream_count self.old + length (hands_of proc) + length proc.shed ≤ self.old.streams }
        requires room { HasEndRoom self.old journal.old }
        ensures keeps { StoreKeeps self.new }
        ensures held { Becomes self.new (gone
            (back (held_of self.old) proc.start.pid Gone self.old.time (numbers_of proc.shed)) proc.start.pid
            (part_handles (shown_part proc))) }
        ensures ended { AddsEndOf (meaning E.stands E.phase E.memory) proc.start.pid proc.engine journal.old
            journal.new }
        ensures room { HasEndRoom self.new journal.new }
        ensures giver { self.new.giver ≡ self.old.giver }
        ensures came { self.new.came ≡ self.old.came }
        ensures links { self.new.links ≡ self.old.links }
        ensures ready { self.new.queue.ready ≡ self.old.queue.ready }
        ensures rooms { vec_capacity self.new.closed ≡ vec_capacity self.old.closed }
        ensures streams { PassesOn
            (told O.Stream.taken O.Stream.put O.Stream.faults O.Stream.waits O.Stream.empties O.Stream.down)
            (kept_of self.old) (kept_of self.new) (hands_of proc) proc.shed }
    {
        let pid = proc.start.pid;
        close_all(&mut self.closed, &mut proc.shed);
        journal.ended(last_of(pid, &proc));
        close_proc(proc, &mut self.closed);
        set_place(&mut self.places, pid, Place::Gone);
        let mail = replace(&mut self.mail[pid as usize], Mailbox::new(self.alloc));
        close_mail(mail, &mut self.shed, &mut self.closed);
        self.names.remove_process(pid);
        self.unended -= 1;
        self.out -= 1;
    }

    /// Takes back a process that was doomed while it was out, at this time: it has ended, and what is kept of its
    /// memory is recorded. A stream that was opened for it gets its number, and is closed before what the process has
    /// in hand.
    pub fn bring_doomed(
        &mut self,
        journal: &mut Journal,
        mut proc: Proc<E, O>,
        arrived: Option<O::Stream>,
        time: u64,
    )
        requires keeps { StoreKeeps self.old }
        requires fated { (worker : ℕ) × (end : End) × (place_at self.old proc.start.pid ≡ Fated worker end) }
        requires few { stream_count self.old + length (hands_of proc) + length proc.shed ≤ self.old.streams }
        requires numbers { self.old.streams + 1 < 2 ^ 63 }
        requires room { HasEndRoom self.old journal.old }
        ensures keeps { StoreKeeps self.new }
        ensures held { Becomes self.new (record (gone (back (held_of self.old) proc.start.pid Gone time
            (numbers_of proc.shed ++ numbers_of (arrived_as self.old.streams arrived))) proc.start.pid
            (part_handles (shown_part proc))) {
              streams = self.old.streams + length (arrived_as self.old.streams arrived);
            }) }
        ensures ended { AddsEndOf (meaning E.stands E.phase E.memory) proc.start.pid proc.engine journal.old
            journal.new }
        ensures room { HasEndRoom self.new journal.new }
        ensures giver { self.new.giver ≡ self.old.giver }
        ensures came { self.new.came ≡ self.old.came }
        ensures links { self.new.links ≡ self.old.links }
        ensures ready { self.new.queue.ready ≡ self.old.queue.ready }
        ensures rooms { vec_capacity self.new.closed ≡ vec_capacity self.old.closed }
        ensures streams { PassesOn
            (told O.Stream.taken O.Stream.put O.Stream.faults O.Stream.waits O.Stream.empties O.Stream.down)
            (kept_of self.old) (kept_of self.new) (hands_of proc ++ arrived_as self.old.streams arrived) proc.shed }
    {
        let pid = proc.start.pid;
        close_all(&mut self.closed, &mut proc.shed);
        self.streams = close_arrived(&mut self.closed, &mut proc.shed, self.streams, arrived);
        journal.ended(last_of(pid, &proc));
        close_proc(proc, &mut self.closed);
        set_place(&mut self.places, pid, Place::Gone);
        let mail = replace(&mut self.mail[pid as usize], Mailbox::new(self.alloc));
        close_mail(mail, &mut self.shed, &mut self.closed);
        self.names.remove_process(pid);
        self.unended -= 1;
        self.out -= 1;
        self.time = time;
    }
}
