ghost use Rattle.std.specs.Prelude.{◌≡◌, ◌+◌, ◌<◌, ◌≤◌, [], List, length, true};
ghost use Rattle.resource_table.specs.Steps.{told};
ghost use Rattle.world_rules.specs.declared.life.Ended.{Ended as EndMemory};
ghost use Rattle.world_rules.specs.Lives.{Setting};
ghost use Rattle.world_rules.specs.Mail.{is_message, message_count, most_messages, tag_of};
ghost use Rattle.world_rules.specs.Receive.{arrived};
ghost use Rattle.world_rules.specs.World.{World};
ghost use Rattle.node_state.specs.Seats.{meaning};
ghost use Rattle.node_mirror.specs.Held.{Mirrors};
ghost use Rattle.node_mirror.specs.Slots.{is_live_slot};
ghost use Rattle.process_store.specs.Keeps.{StoreKeeps, stream_count};
ghost use Rattle.process_store.specs.PassOn.{PassesOn};
ghost use Rattle.process_store.specs.Performing.{GivesStay, MayBeWoken, StayGone, StaysBeside};
ghost use Rattle.process_store.specs.Holds.{held_of, item_of, item_streams, kept_of, place_at};
ghost use Rattle.process_store.specs.Telling.{HasPlace};

use super::Store;
use crate::closing::close_all;
use crate::delivery::deliver;
use crate::place::set_place;
use crate::replies::number_reply;
use crate::waking::wakes;
use crate::{Item, Place};
use host_port::Engine;
use node_mirror::an_arrival_mirrors;
use outside::Outside;
use std::mem::replace;

impl<E: Engine, O: Outside> Store<E, O> {
    /// An item arrives at a live process, for which a place is kept in its mailbox: where it waits in a receive that wants
    /// the item, it gets it, and comes home; else the item goes behind the others of the mailbox.
    pub fn arrive(&mut self, to: u64, item: Item<O::Stream>)
        requires keeps { StoreKeeps self.old }
        requires live { is_live_slot (place_at self.old to) ≡ true }
        requires place { HasPlace self.old to (tag_of (item_of item)) }
        requires counted { is_message (item_of item) ≡ true →
            message_count ((held_of self.old).mail to) < most_messages }
        requires waits { MayBeWoken E.phase E.memory (place_at self.old to) }
        requires few { stream_count self.old + length (item_streams item) ≤ self.old.streams }
        ensures keeps { StoreKeeps self.new }
        ensures mirrors { (setting : Setting E.Program) (w : World) (ends : List EndMemory) →
            Mirrors (meaning E.stands E.phase E.memory) setting w (held_of self.old) ends →
            Mirrors (meaning E.stands E.phase E.memory) setting (arrived w to (item_of item)) (held_of self.new) ends }
        ensures gives_stay { GivesStay self.old self.new }
        ensures stay_gone { StayGone self.old self.new }
        ensures beside { StaysBeside self.old self.new }
        ensures giver { self.new.giver ≡ self.old.giver }
        ensures streams { PassesOn
            (told O.Stream.taken O.Stream.put O.Stream.faults O.Stream.waits O.Stream.empties O.Stream.down)
            (kept_of self.old) (kept_of self.new) (item_streams item) [] }
    {
        an_arrival_mirrors::<E>();
        if !wakes(&self.places[to as usize], item.its_tag()) {
            self.mail[to as usize].put_reserved(item);
            return;
        }
        let place = replace(&mut self.places[to as usize], Place::Gone);
        let Place::Asleep(mut proc, _) = place else {
            unreachable!()
        };
        let code = deliver(&mut proc.scratch, &mut self.shed, item);
        close_all(&mut self.closed, &mut self.shed);
        proc.engine.answer(&number_reply(code));
        set_place(&mut self.places, to, Place::Home(proc));
        self.queue.clear_deadline(to);
        self.came.push_reserved(to);
    }
}
