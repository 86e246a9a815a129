ghost use Rattle.std.specs.Prelude.{◌≡◌, ◌+◌, ◌<◌, ℕ, List, Option, Some, None, true, false};
ghost use Rattle.host_port.specs.declared.ask.Ask.{Ask};
ghost use Rattle.host_port.specs.Areas.{request_of};
ghost use Rattle.world_rules.specs.declared.life.Ended.{Ended as EndMemory};
ghost use Rattle.world_rules.specs.Answers.{number_reply};
ghost use Rattle.world_rules.specs.Changes.{replied, waiting};
ghost use Rattle.world_rules.specs.Lives.{Setting};
ghost use Rattle.world_rules.specs.Mail.{MailItem, tags_in, tag_of, is_wanted, pick, unpicked, is_message, message_count, most_messages};
ghost use Rattle.world_rules.specs.Part.{scratch_handles};
ghost use Rattle.world_rules.specs.Receive.{receive_performed, delivery_reply, sent_off, arrived};
ghost use Rattle.world_rules.specs.Settled.{settled, Delivered, SentOff};
ghost use Rattle.world_rules.specs.World.{World};
ghost use Rattle.node_state.specs.Seats.{Seat, meaning};
ghost use Rattle.node_state.specs.Fits.{IsAnswered};
ghost use Rattle.node_mirror.specs.Slots.{Home, Asleep, Giving, is_asleep, is_live_slot};
ghost use Rattle.node_mirror.specs.Held.{Held, Mirrors};
ghost use Rattle.node_mirror.specs.Steps.{home, asleep, posted, woken, closing, with_one};

use host_port::Engine;
use world_rules::waits_are_unmet;

/// A receive that finds a wanted item: it comes out of the mailbox into the scratch area, the streams of the old
/// scratch message are closed, and the process is told 0 for a message, 1 for a signal.
pub fn a_delivery_mirrors<E: Engine>()
    ensures { (setting : Setting E.Program) (w : World) (held : Held E) (ends : List EndMemory) (pid : ℕ)
        (seat : Seat E) (ask : Ask) (item : MailItem) (engine : E) →
        Mirrors (meaning E.stands E.phase E.memory) setting w held ends →
        held.slots pid ≡ Giving seat ask → ask.call ≡ 9 →
        pick (tags_in (request_of (E.memory seat.engine) ask).first) (held.mail pid) ≡ Some item →
        IsAnswered (meaning E.stands E.phase E.memory) seat.engine (delivery_reply item) engine →
        Mirrors (meaning E.stands E.phase E.memory) setting
        (receive_performed w pid (request_of (E.memory seat.engine) ask))
        (closing (with_one held pid
        (Home (record seat { engine = engine; part = settled seat.part (Delivered item) }))
        (unpicked (tags_in (request_of (E.memory seat.engine) ask).first) (held.mail pid)) None)
        (scratch_handles seat.part)) ends }
{}

/// A receive that finds nothing wanted, and waits.
pub fn a_wait_mirrors<E: Engine>()
    ensures { (setting : Setting E.Program) (w : World) (held : Held E) (ends : List EndMemory) (pid : ℕ)
        (seat : Seat E) (ask : Ask) (deadline : Option ℕ) →
        Mirrors (meaning E.stands E.phase E.memory) setting w held ends →
        held.slots pid ≡ Giving seat ask → ask.call ≡ 9 →
        pick (tags_in (request_of (E.memory seat.engine) ask).first) (held.mail pid) ≡ None →
        Mirrors (meaning E.stands E.phase E.memory) setting
        (waiting w pid (request_of (E.memory seat.engine) ask) deadline)
        (asleep held pid seat ask deadline) ends }
{}

/// A send that is answered 0: the scratch message leaves the sender, who is told 0 and is at home.
pub fn a_sending_mirrors<E: Engine>()
    ensures { (setting : Setting E.Program) (w : World) (held : Held E) (ends : List EndMemory) (pid to : ℕ)
        (seat : Seat E) (ask : Ask) (engine : E) →
        Mirrors (meaning E.stands E.phase E.memory) setting w held ends →
        held.slots pid ≡ Giving seat ask →
        IsAnswered (meaning E.stands E.phase E.memory) seat.engine (number_reply 0) engine →
        Mirrors (meaning E.stands E.phase E.memory) setting
        (replied (sent_off w pid to) pid (request_of (E.memory seat.engine) ask) (number_reply 0))
        (record (home held pid (record seat { engine = engine; part = settled seat.part SentOff })) {
          sends = held.sends + 1;
        }) ends }
{}

/// An item arrives at a live process. Where it waits in receive and wants the item, it gets it: the mailbox stays, the
/// streams of its old scratch message are closed, and it is at home. Else the item goes behind the others of its
/// mailbox.
pub fn an_arrival_mirrors<E: Engine>()
    ensures wakes { (setting : Setting E.Program) (w : World) (held : Held E) (ends : List EndMemory) (to : ℕ)
        (seat : Seat E) (ask : Ask) (item : MailItem) (engine : E) →
        Mirrors (meaning E.stands E.phase E.memory) setting w held ends →
        held.slots to ≡ Asleep seat ask → ask.call ≡ 9 →
        is_wanted (tags_in (request_of (E.memory seat.engine) ask).first) (tag_of item) ≡ true →
        (is_message item ≡ true → message_count (held.mail to) < most_messages) →
        IsAnswered (meaning E.stands E.phase E.memory) seat.engine (delivery_reply item) engine →
        Mirrors (meaning E.stands E.phase E.memory) setting (arrived w to item)
        (woken held to (record seat { engine = engine; part = settled seat.part (Delivered item) }) seat.part) ends }
    ensures unwanted { (setting : Setting E.Program) (w : World) (held : Held E) (ends : List EndMemory) (to : ℕ)
        (seat : Seat E) (ask : Ask) (item : MailItem) →
        Mirrors (meaning E.stands E.phase E.memory) setting w held ends →
        held.slots to ≡ Asleep seat ask → ask.call ≡ 9 →
        is_wanted (tags_in (request_of (E.memory seat.engine) ask).first) (tag_of item) ≡ false →
        (is_message item ≡ true → message_count (held.mail to) < most_messages) →
        Mirrors (meaning E.stands E.phase E.memory) setting (arrived w to item) (posted held to item) ends }
    ensures sleeps { (setting : Setting E.Program) (w : World) (held : Held E) (ends : List EndMemory) (to : ℕ)
        (seat : Seat E) (ask : Ask) (item : MailItem) →
        Mirrors (meaning E.stands E.phase E.memory) setting w held ends →
        held.slots to ≡ Asleep seat ask → ask.call ≡ 17 →
        (is_message item ≡ true → message_count (held.mail to) < most_messages) →
        Mirrors (meaning E.stands E.phase E.memory) setting (arrived w to item) (posted held to item) ends }
    ensures awake { (setting : Setting E.Program) (w : World) (held : Held E) (ends : List EndMemory) (to : ℕ)
        (item : MailItem) →
        Mirrors (meaning E.stands E.phase E.memory) setting w held ends →
        is_live_slot (held.slots to) ≡ true → is_asleep (held.slots to) ≡ false →
        (is_message item ≡ true → message_count (held.mail to) < most_messages) →
        Mirrors (meaning E.stands E.phase E.memory) setting (arrived w to item) (posted held to item) ends }
{
    waits_are_unmet();
}
