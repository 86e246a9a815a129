ghost use Rattle.std.specs.Prelude.{◌≡◌, ◌≢◌, ◌++◌, ℕ, List, [], Some, None, true, false, slice_index};
ghost use Rattle.host_port.specs.declared.request.Request.{Request};
ghost use Rattle.world_rules.specs.declared.entry.Side.TheVariants as SideIs;
ghost use Rattle.world_rules.specs.declared.halt.Halt.TheVariants as HaltIs;
ghost use Rattle.world_rules.specs.Answers.{empty_reply, number_reply};
ghost use Rattle.world_rules.specs.Book.{Book};
ghost use Rattle.world_rules.specs.Lives.{Setting};
ghost use Rattle.world_rules.specs.Mail.{MailItem, tags_in};
ghost use Rattle.world_rules.specs.Part.{Part};
ghost use Rattle.world_rules.specs.Time.{is_positive};
ghost use Rattle.world_rules.specs.Told.{told};
ghost use Rattle.node_state.specs.declared.outcome.Post.{Post};
ghost use Rattle.node_state.specs.declared.outcome.Receipt.{Receipt};
ghost use Rattle.node_state.specs.declared.outcome.Receipt.TheVariants as ReceiptIs;
ghost use Rattle.node_state.specs.Seats.{meaning};
ghost use Rattle.node_state.specs.Slots.{Home, Asleep, Away};
ghost use Rattle.node_state.specs.Held.{Held, StandsFor};
ghost use Rattle.node_state.specs.Fits.{Brought, TurnFits, IsAnswered, entry_of};
ghost use Rattle.node_state.specs.Changes.{Records, GivesBack, Counts, Closes};
ghost use Rattle.node_state.specs.Posts.{Posts, Receives, code_of, side_of, sends_after, receipt_code, receipt_closings, time_at, deadline_of};

use host_port::Engine;

/// A Give of a process that asks for a send keeps a node standing for its journal, whatever becomes of the message.
pub fn a_send_keeps<E: Engine>()
    ensures { (setting : Setting E.Program) (old new : Book) (was is : Held E) (pid worker : ℕ) (brought : Brought E)
        (request : Request) (engine : E) (mail : List MailItem) (part : Part) (outcome : Post) →
        StandsFor (meaning E.stands E.phase E.memory) setting old (told old) was → was.over ≡ false →
        was.slots pid ≡ Away worker → request.ask.call ≡ 8 →
        TurnFits (meaning E.stands E.phase E.memory) setting old.births (told old) worker pid brought →
        brought.halt ≡ HaltIs.Asks request → brought.side ≡ SideIs.Nothing →
        Posts (slice_index request.ask.args 0) pid was.sends (was.mail pid) brought.seat.part mail part outcome →
        IsAnswered (meaning E.stands E.phase E.memory) brought.seat.engine (number_reply (code_of outcome)) engine →
        GivesBack was is pid
        (Home (record brought.seat { engine = engine; part = part })) true mail None →
        Counts was is (sends_after outcome was.sends) was.time 0 →
        Closes was is was.streams brought.shed →
        Records old new (entry_of worker pid brought (side_of outcome)) [] →
        StandsFor (meaning E.stands E.phase E.memory) setting new (told new) is }
{}

/// A Give of a process that asks for a receive and does not wait does; where a message is delivered, the streams of the
/// old scratch message are closed.
pub fn a_receive_keeps<E: Engine>()
    ensures { (setting : Setting E.Program) (old new : Book) (was is : Held E) (pid worker : ℕ) (brought : Brought E)
        (request : Request) (now : ℕ) (engine : E) (mail : List MailItem) (part : Part)
        (receipt : Receipt) →
        StandsFor (meaning E.stands E.phase E.memory) setting old (told old) was → was.over ≡ false →
        was.slots pid ≡ Away worker → request.ask.call ≡ 9 → receipt ≢ ReceiptIs.Waits →
        TurnFits (meaning E.stands E.phase E.memory) setting old.births (told old) worker pid brought →
        brought.halt ≡ HaltIs.Asks request → brought.side ≡ SideIs.Clock now →
        Receives (tags_in request.first) (slice_index request.ask.args 2) (was.mail pid) brought.seat.part mail part
        receipt →
        IsAnswered (meaning E.stands E.phase E.memory) brought.seat.engine (number_reply (receipt_code receipt))
        engine →
        GivesBack was is pid
        (Home (record brought.seat { engine = engine; part = part })) true mail None →
        Counts was is was.sends (time_at was.time now) 0 →
        Closes was is was.streams (brought.shed ++ receipt_closings receipt brought.seat.part) →
        Records old new (entry_of worker pid brought (SideIs.Clock now)) [] →
        StandsFor (meaning E.stands E.phase E.memory) setting new (told new) is }
{}

/// A Give of a process that waits in a receive does: it is asleep up to its deadline, or without end.
pub fn a_wait_keeps<E: Engine>()
    ensures { (setting : Setting E.Program) (old new : Book) (was is : Held E) (pid worker : ℕ) (brought : Brought E)
        (request : Request) (now : ℕ) (mail : List MailItem) (part : Part) →
        StandsFor (meaning E.stands E.phase E.memory) setting old (told old) was → was.over ≡ false →
        was.slots pid ≡ Away worker → request.ask.call ≡ 9 →
        TurnFits (meaning E.stands E.phase E.memory) setting old.births (told old) worker pid brought →
        brought.halt ≡ HaltIs.Asks request → brought.side ≡ SideIs.Clock now →
        Receives (tags_in request.first) (slice_index request.ask.args 2) (was.mail pid) brought.seat.part mail part
        ReceiptIs.Waits →
        GivesBack was is pid
        (Asleep (record brought.seat { part = part }) request.ask) false
        mail (deadline_of (time_at was.time now) (slice_index request.ask.args 2)) →
        Counts was is was.sends (time_at was.time now) 0 →
        Closes was is was.streams brought.shed →
        Records old new (entry_of worker pid brought (SideIs.Clock now)) [] →
        StandsFor (meaning E.stands E.phase E.memory) setting new (told new) is }
{}

/// A Give of a process that asks for a sleep of no time does.
pub fn a_sleep_keeps<E: Engine>()
    ensures { (setting : Setting E.Program) (old new : Book) (was is : Held E) (pid worker : ℕ) (brought : Brought E)
        (request : Request) (now : ℕ) (engine : E) →
        StandsFor (meaning E.stands E.phase E.memory) setting old (told old) was → was.over ≡ false →
        was.slots pid ≡ Away worker → request.ask.call ≡ 17 → is_positive (slice_index request.ask.args 0) ≡ false →
        TurnFits (meaning E.stands E.phase E.memory) setting old.births (told old) worker pid brought →
        brought.halt ≡ HaltIs.Asks request → brought.side ≡ SideIs.Clock now →
        IsAnswered (meaning E.stands E.phase E.memory) brought.seat.engine empty_reply engine →
        GivesBack was is pid
        (Home (record brought.seat { engine = engine })) true (was.mail pid)
        None →
        Counts was is was.sends (time_at was.time now) 0 →
        Closes was is was.streams brought.shed →
        Records old new (entry_of worker pid brought (SideIs.Clock now)) [] →
        StandsFor (meaning E.stands E.phase E.memory) setting new (told new) is }
{}

/// A Give of a process that sleeps does: it is asleep up to its deadline.
pub fn a_sleep_waits_keeps<E: Engine>()
    ensures { (setting : Setting E.Program) (old new : Book) (was is : Held E) (pid worker : ℕ) (brought : Brought E)
        (request : Request) (now : ℕ) →
        StandsFor (meaning E.stands E.phase E.memory) setting old (told old) was → was.over ≡ false →
        was.slots pid ≡ Away worker → request.ask.call ≡ 17 → is_positive (slice_index request.ask.args 0) ≡ true →
        TurnFits (meaning E.stands E.phase E.memory) setting old.births (told old) worker pid brought →
        brought.halt ≡ HaltIs.Asks request → brought.side ≡ SideIs.Clock now →
        GivesBack was is pid (Asleep brought.seat request.ask) false (was.mail pid)
        (deadline_of (time_at was.time now) (slice_index request.ask.args 0)) →
        Counts was is was.sends (time_at was.time now) 0 →
        Closes was is was.streams brought.shed →
        Records old new (entry_of worker pid brought (SideIs.Clock now)) [] →
        StandsFor (meaning E.stands E.phase E.memory) setting new (told new) is }
{}
