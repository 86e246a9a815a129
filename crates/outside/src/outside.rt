ghost use Rattle.std.specs.Prelude.{◌≡◌, ◌≤◌, ℕ, List, Option, IfSome, false};
ghost use Rattle.outside.specs.Causes.{RoseOrFull};
ghost use Rattle.outside.specs.Makes.{IfMade, IfAccepted, MakeFault, AcceptFault, AcceptWait, GoesNotBack, entered_also};
ghost use Rattle.outside.specs.Streams.{IsFresh};

use crate::{Listener, Stream};

/// How an accept ended.
#[derive(Debug, Drop)]
pub enum AcceptStep<T> {
    /// Somebody had connected.
    Done(T),
    /// Nobody has connected now.
    NotReady,
    /// The accept failed.
    Failed,
    /// The machine refused memory.
    NoMemory,
}

/// How a bind or a connect ended.
#[derive(Debug, Drop)]
pub enum MakeStep<T> {
    /// It was made.
    Done(T),
    /// The making failed.
    Failed,
    /// The machine refused memory.
    NoMemory,
}

/// What one worker has of the world outside: connections, a clock and a pause.
pub trait Outside: Send {
    type Stream: Stream;

    type Listener: Listener;

    /// How often a bind, an accept or a connect failed. It never falls.
    ghost faults: { Self → ℕ };

    /// How often an accept found nobody. It never falls.
    ghost waits: { Self → ℕ };

    /// How often the worker rested. It never falls.
    ghost rests: { Self → ℕ };

    /// The time in milliseconds, where the outside tells it: always or never.
    ghost clock: { Self → Option ℕ };

    /// The numbers that `enter` was called with, in order, where the outside tells them: always or never.
    ghost entered: { Self → Option (List ℕ) };

    /// The time in milliseconds. A clock that is told answers its time, and stays.
    fn now(&mut self) -> u64
        ensures time { IfSome (clock self.old) (λ time. result ≡ time) }
        ensures clock { clock self.new ≡ clock self.old }
        ensures faults { faults self.new ≡ faults self.old }
        ensures waits { waits self.old ≤ waits self.new }
        ensures rests { rests self.old ≤ rests self.new }
        ensures entered { entered self.new ≡ entered self.old };

    /// A listener at this address of IPv4, whose highest byte is the first octet, and at this port.
    /// `Failed` comes exactly where the faults rose.
    fn bind(&mut self, ip: u32, port: u16) -> MakeStep<Self::Listener>
        ensures up { IfMade result (λ listener. Self.Listener.down listener ≡ false) }
        ensures faults { MakeFault (faults self.old) (faults self.new) result }
        ensures waits { waits self.old ≤ waits self.new }
        ensures rests { rests self.old ≤ rests self.new }
        ensures clock { GoesNotBack (clock self.old) (clock self.new) }
        ensures entered { entered self.new ≡ entered self.old };

    /// The next connection that arrived at this listener. `Failed` comes exactly where the faults rose, `NotReady` only
    /// where the waits rose.
    fn accept(&mut self, listener: &mut Self::Listener) -> AcceptStep<Self::Stream>
        ensures fresh { IfAccepted result (λ s. IsFresh (Self.Stream.down s) (Self.Stream.taken s) (Self.Stream.put s)) }
        ensures number { Self.Listener.number listener.new ≡ Self.Listener.number listener.old }
        ensures down { Self.Listener.down listener.new ≡ Self.Listener.down listener.old }
        ensures faults { AcceptFault (faults self.old) (faults self.new) result }
        ensures waits { AcceptWait (waits self.old) (waits self.new) result }
        ensures rests { rests self.old ≤ rests self.new }
        ensures clock { GoesNotBack (clock self.old) (clock self.new) }
        ensures entered { entered self.new ≡ entered self.old };

    /// A connection to this address of IPv4 and this port. `Failed` comes exactly where the faults rose.
    fn connect(&mut self, ip: u32, port: u16) -> MakeStep<Self::Stream>
        ensures fresh { IfMade result (λ s. IsFresh (Self.Stream.down s) (Self.Stream.taken s) (Self.Stream.put s)) }
        ensures faults { MakeFault (faults self.old) (faults self.new) result }
        ensures waits { waits self.old ≤ waits self.new }
        ensures rests { rests self.old ≤ rests self.new }
        ensures clock { GoesNotBack (clock self.old) (clock self.new) }
        ensures entered { entered self.new ≡ entered self.old };

    /// The worker has this process in hand and is about to run its turn.
    fn enter(&mut self, pid: u64)
        ensures entered { entered self.new ≡ entered_also pid (entered self.old) }
        ensures faults { faults self.new ≡ faults self.old }
        ensures waits { waits self.old ≤ waits self.new }
        ensures rests { rests self.old ≤ rests self.new }
        ensures clock { GoesNotBack (clock self.old) (clock self.new) };

    /// The worker has nothing to do now. The rests rise, or stand at 2^64 - 1.
    fn rest(&mut self)
        ensures rests { RoseOrFull (rests self.old) (rests self.new) }
        ensures no_fewer { rests self.old ≤ rests self.new }
        ensures faults { faults self.new ≡ faults self.old }
        ensures waits { waits self.old ≤ waits self.new }
        ensures clock { GoesNotBack (clock self.old) (clock self.new) }
        ensures entered { entered self.new ≡ entered self.old };
}
