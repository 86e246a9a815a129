ghost use Rattle.std.specs.Prelude.{◌≡◌, ◌+◌, ◌<◌, ◌^◌, ℕ, List, Option, Some, None, true, false};
ghost use Rattle.host_port.specs.declared.ask.Ask.{Ask};
ghost use Rattle.host_port.specs.declared.reply.Reply.{Reply};
ghost use Rattle.host_port.specs.declared.request.Request.{Request};
ghost use Rattle.host_port.specs.declared.row.Kind.TheVariants as KindIs;
ghost use Rattle.world_rules.specs.declared.entry.Side.{Side};
ghost use Rattle.world_rules.specs.declared.entry.Side.TheVariants as SideIs;
ghost use Rattle.world_rules.specs.declared.halt.Halt.TheVariants as HaltIs;
ghost use Rattle.world_rules.specs.declared.life.Birth.{Birth};
ghost use Rattle.world_rules.specs.Answers.{written_reply};
ghost use Rattle.world_rules.specs.Book.{Book};
ghost use Rattle.world_rules.specs.Kinds.{kind_of};
ghost use Rattle.world_rules.specs.Lives.{Setting};
ghost use Rattle.world_rules.specs.Rules.{recorded, home, happened};
ghost use Rattle.world_rules.specs.Settled.{settled, StreamOpened};
ghost use Rattle.world_rules.specs.Told.{told};
ghost use Rattle.world_rules.specs.Views.{deed_of};
ghost use Rattle.world_rules.specs.World.{World};
ghost use Rattle.node_state.specs.Seats.{meaning};
ghost use Rattle.node_state.specs.Fits.{Brought, IsAnswered, give_of, entry_of};
ghost use Rattle.node_state.specs.Posts.{id_of, time_beside};
ghost use Rattle.node_mirror.specs.Slots.{Home, Giving, Away};
ghost use Rattle.node_mirror.specs.Held.{Held, Mirrors, StandsFor};
ghost use Rattle.node_mirror.specs.Fits.{TurnFits};
ghost use Rattle.node_mirror.specs.Steps.{back};

use host_port::Engine;

/// A process that comes back with a request to the world has come home, and the answer is to come, whatever side the
/// Give is recorded beside.
pub fn an_ask_mirrors<E: Engine>()
    ensures { (setting : Setting E.Program) (old : Book) (was : Held E) (pid worker : ℕ) (brought : Brought E)
        (side : Side) (request : Request) →
        StandsFor (meaning E.stands E.phase E.memory) setting old (told old) was → was.slots pid ≡ Away worker →
        brought.halt ≡ HaltIs.Asks request → kind_of request ≡ Some KindIs.World →
        TurnFits (meaning E.stands E.phase E.memory) setting old.births (told old) worker pid brought →
        Mirrors (meaning E.stands E.phase E.memory) setting
        (home (recorded (told old) (record (give_of worker pid brought) { side = side })) pid)
        (back was pid (Giving brought.seat request.ask) (time_beside side was.time) brought.shed) old.ends }
{}

/// A process that a bound of its turn has stopped is at home.
pub fn a_slice_mirrors<E: Engine>()
    ensures { (setting : Setting E.Program) (old : Book) (was : Held E) (births : List Birth) (pid worker : ℕ)
        (brought : Brought E) →
        StandsFor (meaning E.stands E.phase E.memory) setting old (told old) was → was.slots pid ≡ Away worker →
        brought.halt ≡ HaltIs.Slice → brought.side ≡ SideIs.Nothing →
        TurnFits (meaning E.stands E.phase E.memory) setting old.births (told old) worker pid brought →
        Mirrors (meaning E.stands E.phase E.memory) setting
        (happened births (told old) (deed_of (entry_of worker pid brought SideIs.Nothing)))
        (back was pid (Home brought.seat) was.time brought.shed) old.ends }
{}

/// A process to which the outside can't answer yet is at home, and keeps its ask.
pub fn a_pending_give_mirrors<E: Engine>()
    ensures { (setting : Setting E.Program) (old : Book) (was : Held E) (births : List Birth) (pid worker : ℕ)
        (brought : Brought E) →
        StandsFor (meaning E.stands E.phase E.memory) setting old (told old) was → was.slots pid ≡ Away worker →
        brought.side ≡ SideIs.Pending →
        TurnFits (meaning E.stands E.phase E.memory) setting old.births (told old) worker pid brought →
        Mirrors (meaning E.stands E.phase E.memory) setting
        (happened births (told old) (deed_of (entry_of worker pid brought SideIs.Pending)))
        (back was pid (Home brought.seat) was.time brought.shed) old.ends }
{}

/// A process that the outside has answered is at home, its engine being told the reply.
pub fn an_answer_mirrors<E: Engine>()
    ensures { (setting : Setting E.Program) (old : Book) (was : Held E) (births : List Birth) (pid worker : ℕ)
        (brought : Brought E) (reply : Reply) (engine : E) →
        StandsFor (meaning E.stands E.phase E.memory) setting old (told old) was → was.slots pid ≡ Away worker →
        brought.side ≡ SideIs.Answer reply →
        TurnFits (meaning E.stands E.phase E.memory) setting old.births (told old) worker pid brought →
        IsAnswered (meaning E.stands E.phase E.memory) brought.seat.engine reply engine →
        Mirrors (meaning E.stands E.phase E.memory) setting
        (happened births (told old) (deed_of (entry_of worker pid brought (SideIs.Answer reply))))
        (back was pid (Home (record brought.seat { engine = engine; owed = None })) was.time brought.shed) old.ends }
{}

/// A process for which a stream was opened is at home, with the stream under the next number in its table, its engine
/// being told the number.
pub fn an_opening_mirrors<E: Engine>()
    ensures { (setting : Setting E.Program) (old : Book) (was : Held E) (births : List Birth) (pid worker : ℕ)
        (brought : Brought E) (ask : Ask) (engine : E) →
        StandsFor (meaning E.stands E.phase E.memory) setting old (told old) was → was.slots pid ≡ Away worker →
        brought.side ≡ SideIs.Opened → brought.seat.owed ≡ Some ask →
        TurnFits (meaning E.stands E.phase E.memory) setting old.births (told old) worker pid brought →
        IsAnswered (meaning E.stands E.phase E.memory) brought.seat.engine
        (written_reply 0 (id_of ask) was.streams) engine →
        Mirrors (meaning E.stands E.phase E.memory) setting
        (happened births (told old) (deed_of (entry_of worker pid brought SideIs.Opened)))
        (record (back was pid (Home (record brought.seat {
          engine = engine;
          part = settled brought.seat.part (StreamOpened was.streams);
          owed = None;
        })) was.time brought.shed) { streams = was.streams + 1 }) old.ends }
{}
