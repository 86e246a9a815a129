ghost use Rattle.std.specs.Prelude.{◌≡◌, ◌%◌, ℕ, [], None, Some, false, length, true, vec_capacity};
ghost use Rattle.host_port.specs.declared.ask.Ask.{Ask};
ghost use Rattle.resource_table.specs.Steps.{told};
ghost use Rattle.world_rules.specs.Answers.{number_reply};
ghost use Rattle.world_rules.specs.Mail.{MailItem, pick, tags_in};
ghost use Rattle.node_state.specs.Seats.{meaning};
ghost use Rattle.process_store.specs.Keeps.{StoreKeeps};
ghost use Rattle.process_store.specs.PassOn.{PassesOn};
ghost use Rattle.process_store.specs.Performing.{Delivers};
ghost use Rattle.process_store.specs.Holds.{held_of, kept_of, place_at};
ghost use Rattle.process_store.specs.Telling.{MayBeTold};

use super::Store;
use crate::Place;
use crate::closing::close_all;
use crate::delivery::deliver;
use crate::place::set_place;
use crate::replies::number_reply;
use host_port::Engine;
use outside::Outside;
use std::mem::replace;

impl<E: Engine, O: Outside> Store<E, O> {
    /// Gives a process whose receive is being performed the first item of its mailbox whose tag is wanted: it comes into
    /// the scratch area, the streams of the old scratch message are closed, the process is told 0 for a message and 1 for
    /// a signal, and is at home. Where nothing is wanted, nothing changes, and the result is false.
    ///
    /// `tags` names the wanted tags by eight little-endian bytes each; an empty list wants any.
    pub fn receive(&mut self, pid: u64, tags: &[u8]) -> bool
        requires keeps { StoreKeeps self.old }
        requires whole { length tags.now % 8 ≡ 0 }
        requires message { MayBeTold E.phase E.memory (place_at self.old pid) (number_reply 0) }
        requires signal { MayBeTold E.phase E.memory (place_at self.old pid) (number_reply 1) }
        ensures keeps { StoreKeeps self.new }
        ensures found { result ≡ true → (item : MailItem)
            × (pick (tags_in tags.now) ((held_of self.old).mail pid) ≡ Some item)
            × Delivers (meaning E.stands E.phase E.memory) self.old self.new pid (tags_in tags.now) item }
        ensures none { result ≡ false → pick (tags_in tags.now) ((held_of self.old).mail pid) ≡ None }
        ensures stays { result ≡ false → self.new ≡ self.old }
        ensures giver { self.new.giver ≡ self.old.giver }
        ensures came { self.new.came ≡ self.old.came }
        ensures links { self.new.links ≡ self.old.links }
        ensures queue { self.new.queue ≡ self.old.queue }
        ensures same { self.new ≡ record self.old {
          places = self.new.places;
          mail = self.new.mail;
          closed = self.new.closed;
          shed = self.new.shed;
        } }
        ensures rooms { vec_capacity self.new.closed ≡ vec_capacity self.old.closed }
        ensures streams { PassesOn
            (told O.Stream.taken O.Stream.put O.Stream.faults O.Stream.waits O.Stream.empties O.Stream.down)
            (kept_of self.old) (kept_of self.new) [] [] }
    {
        let Some(item) = self.mail[pid as usize].pick(tags) else {
            return false;
        };
        let place = replace(&mut self.places[pid as usize], Place::Gone);
        let Place::Giving(mut proc, _) = place else {
            unreachable!()
        };
        let code = deliver(&mut proc.scratch, &mut self.shed, item);
        close_all(&mut self.closed, &mut self.shed);
        proc.engine.answer(&number_reply(code));
        set_place(&mut self.places, pid, Place::Home(proc));
        true
    }
}
