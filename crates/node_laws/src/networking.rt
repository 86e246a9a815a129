ghost use Rattle.std.specs.Prelude.{◌≡◌, ◌+◌, ◌<◌, ◌≤◌, ◌^◌, ℕ, List, [], length, Some, None, IsSome, true, false};
ghost use Rattle.host_port.specs.declared.ask.Ask.{Ask};
ghost use Rattle.host_port.specs.declared.reply.Reply.{Reply};
ghost use Rattle.host_port.specs.Steps.{IsAnswerable};
ghost use Rattle.world_rules.specs.declared.entry.Side.TheVariants as SideIs;
ghost use Rattle.world_rules.specs.declared.life.Birth.{Birth};
ghost use Rattle.world_rules.specs.Answers.{written_reply};
ghost use Rattle.world_rules.specs.Book.{Book};
ghost use Rattle.world_rules.specs.Lives.{Setting};
ghost use Rattle.world_rules.specs.Settled.{settled, StreamOpened};
ghost use Rattle.world_rules.specs.Told.{told};
ghost use Rattle.world_rules.specs.World.{World};
ghost use Rattle.node_state.specs.Seats.{meaning};
ghost use Rattle.node_state.specs.Slots.{Home, Away};
ghost use Rattle.node_state.specs.Held.{Held, StandsFor};
ghost use Rattle.node_state.specs.Fits.{Brought, TurnFits, IsAnswered, entry_of};
ghost use Rattle.node_state.specs.Posts.{id_of};
ghost use Rattle.node_state.specs.Changes.{Records, GivesBack, Counts, Closes};

use host_port::Engine;
use world_rules::sound;

/// A Give of a process whose request the outside can't answer yet keeps a node standing for its journal: the process
/// goes to the back of the ready list with the ask that it owes, and the row is one longer.
pub fn a_pending_give_keeps<E: Engine>()
    ensures { (setting : Setting E.Program) (old new : Book) (was is : Held E) (pid worker : ℕ) (brought : Brought E) →
        StandsFor (meaning E.stands E.phase E.memory) setting old (told old) was → was.over ≡ false →
        was.slots pid ≡ Away worker → brought.side ≡ SideIs.Pending →
        TurnFits (meaning E.stands E.phase E.memory) setting old.births (told old) worker pid brought →
        GivesBack was is pid (Home brought.seat) true (was.mail pid) (was.deadlines pid) →
        Counts was is was.sends was.time (was.row + 1) → Closes was is was.streams brought.shed →
        Records old new (entry_of worker pid brought SideIs.Pending) [] →
        StandsFor (meaning E.stands E.phase E.memory) setting new (told new) is }
{}

/// A Give of a process whose request the outside has answered does: its engine is told that reply. A listener that was
/// bound is in its part already.
pub fn an_answer_keeps<E: Engine>()
    ensures { (setting : Setting E.Program) (old new : Book) (was is : Held E) (pid worker : ℕ) (brought : Brought E)
        (reply : Reply) (engine : E) →
        StandsFor (meaning E.stands E.phase E.memory) setting old (told old) was → was.over ≡ false →
        was.slots pid ≡ Away worker → brought.side ≡ SideIs.Answer reply →
        TurnFits (meaning E.stands E.phase E.memory) setting old.births (told old) worker pid brought →
        IsAnswered (meaning E.stands E.phase E.memory) brought.seat.engine reply engine →
        GivesBack was is pid (Home (record brought.seat { engine = engine; owed = None })) true (was.mail pid)
        (was.deadlines pid) →
        Counts was is was.sends was.time 0 → Closes was is was.streams brought.shed →
        Records old new (entry_of worker pid brought (SideIs.Answer reply)) [] →
        StandsFor (meaning E.stands E.phase E.memory) setting new (told new) is }
{
    sound();
}

/// A Give of a process for which a stream was opened does: the next stream number is drawn into its table, and its
/// engine is told 0 and the number.
pub fn an_opening_keeps<E: Engine>()
    ensures { (setting : Setting E.Program) (old new : Book) (was is : Held E) (pid worker : ℕ) (brought : Brought E)
        (ask : Ask) (engine : E) →
        StandsFor (meaning E.stands E.phase E.memory) setting old (told old) was → was.over ≡ false →
        was.slots pid ≡ Away worker → brought.side ≡ SideIs.Opened → brought.seat.owed ≡ Some ask →
        TurnFits (meaning E.stands E.phase E.memory) setting old.births (told old) worker pid brought →
        IsAnswered (meaning E.stands E.phase E.memory) brought.seat.engine
        (written_reply 0 (id_of ask) was.streams) engine →
        GivesBack was is pid
        (Home (record brought.seat {
          engine = engine;
          part = settled brought.seat.part (StreamOpened was.streams);
          owed = None;
        })) true (was.mail pid) (was.deadlines pid) →
        Counts was is was.sends was.time 0 → Closes was is (was.streams + 1) brought.shed →
        Records old new (entry_of worker pid brought SideIs.Opened) [] →
        StandsFor (meaning E.stands E.phase E.memory) setting new (told new) is }
{
    sound();
}

/// What came from outside can be told to the engine: where the outside answered, opened a stream or has no answer yet,
/// the process owes an ask; the answer has the form of its call, and so has 0 with any number.
pub fn outside_replies_fit<E: Engine>()
    ensures pending { (setting : Setting E.Program) (births : List Birth) (w : World) (worker pid : ℕ)
        (brought : Brought E) →
        TurnFits (meaning E.stands E.phase E.memory) setting births w worker pid brought →
        brought.side ≡ SideIs.Pending → IsSome brought.seat.owed }
    ensures answered { (setting : Setting E.Program) (births : List Birth) (w : World) (worker pid : ℕ)
        (brought : Brought E) (reply : Reply) →
        TurnFits (meaning E.stands E.phase E.memory) setting births w worker pid brought →
        brought.side ≡ SideIs.Answer reply →
        IsSome brought.seat.owed × IsAnswerable (E.phase brought.seat.engine) (E.memory brought.seat.engine) reply }
    ensures opened { (setting : Setting E.Program) (births : List Birth) (w : World) (worker pid : ℕ)
        (brought : Brought E) →
        TurnFits (meaning E.stands E.phase E.memory) setting births w worker pid brought →
        brought.side ≡ SideIs.Opened →
        (ask : Ask) × (brought.seat.owed ≡ Some ask) × (id_of ask + 8 ≤ length (E.memory brought.seat.engine))
        × ((number : ℕ) → number < 2 ^ 64 →
        IsAnswerable (E.phase brought.seat.engine) (E.memory brought.seat.engine)
        (written_reply 0 (id_of ask) number)) }
{}
