ghost use Rattle.std.specs.Prelude.{◌≡◌, ℕ, List, Option};
ghost use Rattle.host_port.specs.declared.ask.Ask.{Ask};
ghost use Rattle.host_port.specs.declared.reply.Reply.{Reply};
ghost use Rattle.host_port.specs.Areas.{request_of};
ghost use Rattle.world_rules.specs.declared.life.Ended.{Ended as EndMemory};
ghost use Rattle.world_rules.specs.Calls.{call_of};
ghost use Rattle.world_rules.specs.Changes.{replied, waiting};
ghost use Rattle.world_rules.specs.Lives.{Setting};
ghost use Rattle.world_rules.specs.Time.{late_reply, timed_out};
ghost use Rattle.world_rules.specs.World.{World};
ghost use Rattle.node_state.specs.Seats.{Seat, meaning};
ghost use Rattle.node_state.specs.Fits.{IsAnswered};
ghost use Rattle.node_mirror.specs.Slots.{Asleep, Giving};
ghost use Rattle.node_mirror.specs.Held.{Held, Mirrors};
ghost use Rattle.node_mirror.specs.Steps.{home, asleep};

use host_port::Engine;

/// A process whose Give is being performed gets the reply to its request, and is at home.
pub fn a_reply_mirrors<E: Engine>()
    ensures replied { (setting : Setting E.Program) (w : World) (held : Held E) (ends : List EndMemory) (pid : ℕ)
        (seat : Seat E) (ask : Ask) (reply : Reply) (engine : E) →
        Mirrors (meaning E.stands E.phase E.memory) setting w held ends →
        held.slots pid ≡ Giving seat ask →
        IsAnswered (meaning E.stands E.phase E.memory) seat.engine reply engine →
        Mirrors (meaning E.stands E.phase E.memory) setting
        (replied w pid (request_of (E.memory seat.engine) ask) reply)
        (home held pid (record seat { engine = engine })) ends }
{}

/// A process that sleeps waits up to a deadline.
pub fn a_sleep_mirrors<E: Engine>()
    ensures { (setting : Setting E.Program) (w : World) (held : Held E) (ends : List EndMemory) (pid : ℕ)
        (seat : Seat E) (ask : Ask) (deadline : Option ℕ) →
        Mirrors (meaning E.stands E.phase E.memory) setting w held ends →
        held.slots pid ≡ Giving seat ask → ask.call ≡ 17 →
        Mirrors (meaning E.stands E.phase E.memory) setting
        (waiting w pid (request_of (E.memory seat.engine) ask) deadline)
        (asleep held pid seat ask deadline) ends }
{}

/// A wait whose deadline has come ends, the process being told the late reply: 9027 in a receive, nothing in a sleep.
pub fn a_lateness_mirrors<E: Engine>()
    ensures { (setting : Setting E.Program) (w : World) (held : Held E) (ends : List EndMemory) (pid : ℕ)
        (seat : Seat E) (ask : Ask) (engine : E) →
        Mirrors (meaning E.stands E.phase E.memory) setting w held ends →
        held.slots pid ≡ Asleep seat ask →
        IsAnswered (meaning E.stands E.phase E.memory) seat.engine
        (late_reply (call_of (request_of (E.memory seat.engine) ask))) engine →
        Mirrors (meaning E.stands E.phase E.memory) setting (timed_out (w.process pid).stage w pid)
        (home held pid (record seat { engine = engine })) ends }
{}
