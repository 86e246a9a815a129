ghost use Rattle.std.specs.Prelude.{◌≡◌, ◌<◌, ◌^◌, ℕ, List, Some, IsSome, Contains, slice_index, true};
ghost use Rattle.host_port.specs.declared.ask.Ask.{Ask};
ghost use Rattle.host_port.specs.Areas.{request_of};
ghost use Rattle.host_port.specs.HostTable.{row_of};
ghost use Rattle.host_port.specs.Steps.{IsAnswerable};
ghost use Rattle.world_rules.specs.declared.life.Ended.{Ended as EndMemory};
ghost use Rattle.world_rules.specs.Answers.{empty_reply, number_reply, written_reply};
ghost use Rattle.world_rules.specs.Calls.{call_of, call_numbered};
ghost use Rattle.world_rules.specs.Lives.{Setting};
ghost use Rattle.world_rules.specs.Mail.{MailItem};
ghost use Rattle.world_rules.specs.Receive.{delivery_reply};
ghost use Rattle.world_rules.specs.Time.{late_reply};
ghost use Rattle.world_rules.specs.World.{World};
ghost use Rattle.node_state.specs.Seats.{Seat, meaning};
ghost use Rattle.node_mirror.specs.Slots.{Asleep, Giving};
ghost use Rattle.node_mirror.specs.Held.{Held, Mirrors};
ghost use Rattle.node_mirror.specs.Replies.{told_numbers, id_argument, tells_nothing};

use host_port::Engine;

/// What the engine of a process may be told whose Give is being performed, where its call has a row: each number of its
/// call, 0 with the number of a process, or nothing; and in a receive that an item was there.
pub fn replies_fit<E: Engine>()
    ensures number { (setting : Setting E.Program) (w : World) (held : Held E) (ends : List EndMemory) (pid : ℕ)
        (seat : Seat E) (ask : Ask) (n : ℕ) →
        Mirrors (meaning E.stands E.phase E.memory) setting w held ends → held.slots pid ≡ Giving seat ask →
        IsSome (row_of ask.call) → Contains (told_numbers (call_numbered ask.call)) n →
        IsAnswerable (E.phase seat.engine) (E.memory seat.engine) (number_reply n) }
    ensures written { (setting : Setting E.Program) (w : World) (held : Held E) (ends : List EndMemory) (pid : ℕ)
        (seat : Seat E) (ask : Ask) (place number : ℕ) →
        Mirrors (meaning E.stands E.phase E.memory) setting w held ends → held.slots pid ≡ Giving seat ask →
        IsSome (row_of ask.call) → id_argument (call_numbered ask.call) ≡ Some place → number < 2 ^ 64 →
        IsAnswerable (E.phase seat.engine) (E.memory seat.engine)
        (written_reply 0 (slice_index ask.args place) number) }
    ensures nothing { (setting : Setting E.Program) (w : World) (held : Held E) (ends : List EndMemory) (pid : ℕ)
        (seat : Seat E) (ask : Ask) →
        Mirrors (meaning E.stands E.phase E.memory) setting w held ends → held.slots pid ≡ Giving seat ask →
        IsSome (row_of ask.call) → tells_nothing (call_numbered ask.call) ≡ true →
        IsAnswerable (E.phase seat.engine) (E.memory seat.engine) empty_reply }
    ensures delivered { (setting : Setting E.Program) (w : World) (held : Held E) (ends : List EndMemory) (pid : ℕ)
        (seat : Seat E) (ask : Ask) (item : MailItem) →
        Mirrors (meaning E.stands E.phase E.memory) setting w held ends → held.slots pid ≡ Giving seat ask →
        ask.call ≡ 9 → IsAnswerable (E.phase seat.engine) (E.memory seat.engine) (delivery_reply item) }
{}

/// What the engine of a process may be told that waits: that its time is over, and in a receive that an item has come.
pub fn waits_are_answered<E: Engine>()
    ensures late { (setting : Setting E.Program) (w : World) (held : Held E) (ends : List EndMemory) (pid : ℕ)
        (seat : Seat E) (ask : Ask) →
        Mirrors (meaning E.stands E.phase E.memory) setting w held ends → held.slots pid ≡ Asleep seat ask →
        IsAnswerable (E.phase seat.engine) (E.memory seat.engine)
        (late_reply (call_of (request_of (E.memory seat.engine) ask))) }
    ensures delivered { (setting : Setting E.Program) (w : World) (held : Held E) (ends : List EndMemory) (pid : ℕ)
        (seat : Seat E) (ask : Ask) (item : MailItem) →
        Mirrors (meaning E.stands E.phase E.memory) setting w held ends → held.slots pid ≡ Asleep seat ask →
        ask.call ≡ 9 → IsAnswerable (E.phase seat.engine) (E.memory seat.engine) (delivery_reply item) }
{}
