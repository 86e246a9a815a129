ghost use Rattle.std.specs.Prelude.{◌≡◌, ◌≢◌, ◌≤◌, [], Some};
ghost use Rattle.outside.specs.Causes.{RoseOrFull};
ghost use Rattle.outside.specs.Makes.{IfMade, IfAccepted, MakeFault, AcceptFault, AcceptWait};
ghost use Rattle.outside.specs.MemStream.{IsNew};
ghost use Rattle.outside.specs.MemListener.{IsUp};
ghost use Rattle.outside.specs.MemOutside.{Accepts, AllAreNew, Binds, Connects, FindsNobody, MakesNone, TimeStays, begun, fails_next, new_stock, rested};

use crate::{AcceptStep, Gate, MakeStep, MemListener, MemStream, Offer, Outside, raise};
use std::alloc::Global;
use std::collections::VecDeque;
use std::marker::Model;
use std::sync::Arc;

/// An outside in memory, which tells its clock. The clock begins at 0, and each rest moves it by 1.
///
/// It gives its listeners to `bind` and its streams to `connect`, in order, and an accept what the listener offers.
/// Calls of chosen numbers fail; with nothing left, a bind and a connect fail too. With no call that is to fail, and as
/// long as it has what is asked for, no call raises the count of faults. A call that would raise a count that stands at
/// its end answers `NoMemory`. It doesn't tell the numbers that were entered, of which it keeps the last alone, for its
/// gate.
#[derive(Drop)]
pub struct MemOutside {
    listeners: VecDeque<MemListener>,
    streams: VecDeque<MemStream>,
    fails: Vec<u64>,
    calls: u64,
    time: u64,
    faults: u64,
    waits: u64,
    rests: u64,
    in_hand: u64,
    gate: Option<Arc<Gate>>,
}

impl Model for MemOutside {
    ghost use Rattle.outside.specs.MemOutside.{Stock, AllAreNew};

    ghost Value = { Stock };

    ghost view = { λ o. record {
      listeners = o.listeners.items;
      streams = o.streams.items;
      fails = o.fails.items;
      calls = o.calls;
      time = o.time;
      faults = o.faults;
      waits = o.waits;
      rests = o.rests;
    } };

    ghost invariant = { λ o. AllAreNew o.listeners.items o.streams.items };
}

impl MemOutside {
    /// An outside at time 0 with these listeners, none of which was shut, and these streams, which are new. `fails` are
    /// the numbers of the calls that are to fail, counted from 0, where binds, accepts and connects are counted together.
    /// Where there is a gate, the processes of its numbers wait there.
    pub fn new(
        listeners: Vec<MemListener>,
        streams: Vec<MemStream>,
        fails: Vec<u64>,
        gate: Option<Arc<Gate>>,
    ) -> MemOutside
        requires { AllAreNew listeners.items streams.items }
        ensures { result ≡ new_stock listeners.items streams.items fails.items }
    {
        MemOutside {
            listeners: VecDeque::from_vec(listeners),
            streams: VecDeque::from_vec(streams),
            fails,
            calls: 0,
            time: 0,
            faults: 0,
            waits: 0,
            rests: 0,
            in_hand: 0,
            gate,
        }
    }

    /// An outside at time 0 that has nothing to give.
    pub fn with_nothing(alloc: Global) -> MemOutside
        ensures { result ≡ new_stock [] [] [] }
    {
        MemOutside::new(Vec::new(alloc), Vec::new(alloc), Vec::new(alloc), None)
    }

    /// Counts a bind, an accept or a connect, and answers whether it is to fail.
    fn begin(&mut self) -> bool
        ensures fails { result ≡ fails_next self.old }
        ensures begun { self.new ≡ begun self.old }
    {
        let call = self.calls;
        self.calls = call.saturating_add(1);
        self.fails.contains(&call)
    }

    /// Makes nothing, and counts a fault.
    fn make_none<T>(&mut self) -> MakeStep<T>
        ensures planned { MakesNone self.old result self.new }
        ensures faults { MakeFault self.old.faults self.new.faults result }
    {
        if raise(&mut self.faults) {
            MakeStep::Failed
        } else {
            MakeStep::NoMemory
        }
    }

    /// Finds nobody, and counts a wait.
    fn find_nobody(&mut self) -> AcceptStep<MemStream>
        ensures planned { FindsNobody self.old result self.new }
        ensures waits { AcceptWait self.old.waits self.new.waits result }
        ensures no_stream { IfAccepted result (λ _. ⊥) }
        ensures no_fault { result ≢ AcceptStep.Failed }
    {
        if raise(&mut self.waits) {
            AcceptStep::NotReady
        } else {
            AcceptStep::NoMemory
        }
    }
}

impl Outside for MemOutside {
    type Stream = MemStream;

    type Listener = MemListener;

    ghost use Rattle.std.specs.Prelude.{Some, None};

    ghost faults = { λ o. o.faults };

    ghost waits = { λ o. o.waits };

    ghost rests = { λ o. o.rests };

    ghost clock = { λ o. Some o.time };

    ghost entered = { λ _. None };

    fn now(&mut self) -> u64
        ensures time { result ≡ self.old.time }
        ensures same { self.new ≡ self.old }
    {
        self.time
    }

    fn bind(&mut self, _ip: u32, _port: u16) -> MakeStep<MemListener>
        ensures up { IfMade result IsUp }
        ensures faults { MakeFault self.old.faults self.new.faults result }
        ensures waits { self.new.waits ≡ self.old.waits }
        ensures time { TimeStays self.old self.new }
        ensures planned { Binds self.old result self.new }
    {
        if self.begin() {
            return self.make_none();
        }
        match self.listeners.pop_front() {
            Some(listener) => MakeStep::Done(listener),
            None => self.make_none(),
        }
    }

    fn accept(&mut self, listener: &mut MemListener) -> AcceptStep<MemStream>
        ensures fresh { IfAccepted result IsNew }
        ensures number { listener.new.number ≡ listener.old.number }
        ensures down { listener.new.down ≡ listener.old.down }
        ensures faults { AcceptFault self.old.faults self.new.faults result }
        ensures waits { AcceptWait self.old.waits self.new.waits result }
        ensures time { TimeStays self.old self.new }
        ensures planned { Accepts self.old listener.old result self.new listener.new }
    {
        if self.begin() {
            return if raise(&mut self.faults) {
                AcceptStep::Failed
            } else {
                AcceptStep::NoMemory
            };
        }
        match listener.next_offer() {
            Some(Offer::Stream(stream)) => AcceptStep::Done(stream),
            Some(Offer::Wait) => self.find_nobody(),
            None => self.find_nobody(),
        }
    }

    fn connect(&mut self, _ip: u32, _port: u16) -> MakeStep<MemStream>
        ensures fresh { IfMade result IsNew }
        ensures faults { MakeFault self.old.faults self.new.faults result }
        ensures waits { self.new.waits ≡ self.old.waits }
        ensures time { TimeStays self.old self.new }
        ensures planned { Connects self.old result self.new }
    {
        if let Some(gate) = &self.gate {
            gate.connect(self.in_hand);
        }
        if self.begin() {
            return self.make_none();
        }
        match self.streams.pop_front() {
            Some(stream) => MakeStep::Done(stream),
            None => self.make_none(),
        }
    }

    fn enter(&mut self, pid: u64)
        ensures { self.new ≡ self.old }
    {
        self.in_hand = pid;
        if let Some(gate) = &self.gate {
            gate.enter(pid);
        }
    }

    fn rest(&mut self)
        ensures moves { self.new ≡ rested self.old }
        ensures rests { RoseOrFull self.old.rests self.new.rests }
        ensures no_fewer { self.old.rests ≤ self.new.rests }
        ensures later { self.old.time ≤ self.new.time }
    {
        raise(&mut self.time);
        raise(&mut self.rests);
    }
}
