ghost use Rattle.std.specs.Prelude.{vec_capacity, ◌≡◌, ◌+◌, ◌<◌, ◌≤◌, ◌^◌, ℕ, [], Contains, Some, None, length, slice_get, true, false};
ghost use Rattle.host_port.specs.declared.ask.Ask.{Ask};
ghost use Rattle.resource_table.specs.Handles.{Handle};
ghost use Rattle.resource_table.specs.Steps.{told};
ghost use Rattle.world_rules.specs.Answers.{number_reply};
ghost use Rattle.world_rules.specs.Mail as MailIs;
ghost use Rattle.world_rules.specs.Part.{Scratch};
ghost use Rattle.world_rules.specs.Settled.{settled, SentOff};
ghost use Rattle.node_state.specs.declared.outcome.Post.TheVariants.{Put};
ghost use Rattle.node_state.specs.Seats.{Seat, meaning};
ghost use Rattle.node_mirror.specs.Slots.{Giving, is_live_slot};
ghost use Rattle.node_mirror.specs.Steps.{home};
ghost use Rattle.process_store.specs.Keeps.{StoreKeeps, stream_count};
ghost use Rattle.process_store.specs.PassOn.{PassesOn};
ghost use Rattle.process_store.specs.Holds.{Becomes, held_of, item_of, item_streams, kept_of, place_at};
ghost use Rattle.process_store.specs.Telling.{HasPlace, HasScratch, IsPost, MayBeTold, Tells};

use super::Store;
use crate::place::{is_live, set_place};
use crate::replies::number_reply;
use crate::{Item, Place};
use host_port::Engine;
use memory_refusal::NoMemory;
use node_state::Post;
use outside::Outside;
use std::mem::replace;

impl<E: Engine, O: Outside> Store<E, O> {
    /// What becomes of a message of this tag that is sent to this number: where it can be put, a place is reserved for
    /// it. A count at the end of its type is want of memory too.
    pub fn prepare_post(&mut self, to: u64, tag: u64) -> Post
        requires keeps { StoreKeeps self.old }
        ensures keeps { StoreKeeps self.new }
        ensures post { IsPost (place_at self.old to) ((held_of self.old).mail to) result }
        ensures place { result ≡ Put → HasPlace self.new to tag }
        ensures counted { result ≡ Put → self.old.sends + 1 < 2 ^ 64 }
        ensures held { held_of self.new ≡ held_of self.old }
        ensures kept { kept_of self.new ≡ kept_of self.old }
        ensures same { self.new ≡ record self.old { mail = self.new.mail } }
    {
        if !is_live(&self.places, to) {
            return Post::Nobody;
        }
        if self.mail[to as usize].full() {
            return Post::Full;
        }
        if self.sends == u64::MAX {
            return Post::Refused;
        }
        match self.mail[to as usize].reserve(tag) {
            Ok(()) => Post::Put,
            Err(NoMemory) => Post::Refused,
        }
    }

    /// Takes the scratch message of a process whose send is answered 0, as an item of the next number: the process is
    /// told 0 and is at home.
    pub fn send_off(&mut self, pid: u64) -> Item<O::Stream>
        requires keeps { StoreKeeps self.old }
        requires giving { MayBeTold E.phase E.memory (place_at self.old pid) (number_reply 0) }
        requires scratch { HasScratch (place_at self.old pid) }
        requires counted { self.old.sends + 1 < 2 ^ 64 }
        ensures keeps { StoreKeeps self.new }
        ensures held { Tells (meaning E.stands E.phase E.memory) (place_at self.old pid) (number_reply 0)
            (λ seat engine. Becomes self.new (record (home (held_of self.old) pid
            (record seat { engine = engine; part = settled seat.part SentOff })) { sends = self.old.sends + 1 })) }
        ensures item { (seat : Seat E) (ask : Ask) → place_at self.old pid ≡ Giving seat ask →
            (scratch : Scratch) × (seat.part.scratch ≡ Some scratch)
            × (item_of result ≡ MailIs.Letter self.old.sends scratch.message) }
        ensures from { (handle : Handle O.Stream) → Contains (item_streams result) handle →
            Contains ((kept_of self.old).hands pid) handle }
        ensures few { stream_count self.new + length (item_streams result) ≡ stream_count self.old }
        ensures drawn { self.new.streams ≡ self.old.streams }
        ensures giver { self.new.giver ≡ self.old.giver }
        ensures came { self.new.came ≡ self.old.came }
        ensures links { self.new.links ≡ self.old.links }
        ensures queue { self.new.queue ≡ self.old.queue }
        ensures mail { self.new.mail ≡ self.old.mail }
        ensures same { self.new ≡ record self.old { places = self.new.places; sends = self.new.sends } }
        ensures rooms { vec_capacity self.new.closed ≡ vec_capacity self.old.closed }
        ensures streams { PassesOn
            (told O.Stream.taken O.Stream.put O.Stream.faults O.Stream.waits O.Stream.empties O.Stream.down)
            (kept_of self.old) (kept_of self.new) [] [] }
    {
        let place = replace(&mut self.places[pid as usize], Place::Gone);
        let Place::Giving(mut proc, _) = place else {
            unreachable!()
        };
        let Some(message) = proc.scratch.let_go() else {
            unreachable!()
        };
        let number = self.sends;
        self.sends = number + 1;
        proc.engine.answer(&number_reply(0));
        set_place(&mut self.places, pid, Place::Home(proc));
        Item::of_letter(number, message)
    }
}
