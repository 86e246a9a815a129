ghost use Rattle.std.specs.Prelude.{◌≡◌};

use crate::{AcceptStep, IoStep, Listener, MakeStep, Outside, Stream};

/// A stream for where none is ever opened. Its calls move nothing, and it is down. Its count of empty answers stands at
/// its end.
#[derive(Debug, Drop)]
pub struct BlankStream;

impl Stream for BlankStream {
    ghost use Rattle.std.specs.Prelude.{None, true, ◌^◌, ◌-◌};

    ghost taken = { λ _. None };

    ghost put = { λ _. None };

    ghost faults = { λ _. 0 };

    ghost waits = { λ _. 0 };

    ghost empties = { λ _. 2 ^ 64 - 1 };

    ghost down = { λ _. true };

    fn read(&mut self, _buffer: &mut [u8]) -> IoStep
        ensures { result ≡ IoStep.Done 0 }
    {
        IoStep::Done(0)
    }

    fn write(&mut self, _piece: &[u8]) -> IoStep
        ensures { result ≡ IoStep.Done 0 }
    {
        IoStep::Done(0)
    }

    fn shut(&mut self) {}
}

/// A listener for where none is ever bound. Its port is 0, and it is down.
#[derive(Debug, Drop)]
pub struct BlankListener;

impl Listener for BlankListener {
    ghost use Rattle.std.specs.Prelude.{true};

    ghost number = { λ _. 0 };

    ghost down = { λ _. true };

    fn port(&self) -> u16 {
        0
    }

    fn shut(&mut self) {}
}

/// An outside that has nothing, for where nothing calls it. Its calls answer want of memory. Its count of rests stands at
/// its end, and it tells no clock and no numbers that were entered.
#[derive(Debug, Drop)]
pub struct BlankOutside;

impl Outside for BlankOutside {
    type Stream = BlankStream;

    type Listener = BlankListener;

    ghost use Rattle.std.specs.Prelude.{None, ◌^◌, ◌-◌};

    ghost faults = { λ _. 0 };

    ghost waits = { λ _. 0 };

    ghost rests = { λ _. 2 ^ 64 - 1 };

    ghost clock = { λ _. None };

    ghost entered = { λ _. None };

    fn now(&mut self) -> u64
        ensures { result ≡ 0 }
    {
        0
    }

    fn bind(&mut self, _ip: u32, _port: u16) -> MakeStep<BlankListener>
        ensures { result ≡ MakeStep.NoMemory }
    {
        MakeStep::NoMemory
    }

    fn accept(&mut self, _listener: &mut BlankListener) -> AcceptStep<BlankStream>
        ensures { result ≡ AcceptStep.NoMemory }
    {
        AcceptStep::NoMemory
    }

    fn connect(&mut self, _ip: u32, _port: u16) -> MakeStep<BlankStream>
        ensures { result ≡ MakeStep.NoMemory }
    {
        MakeStep::NoMemory
    }

    fn enter(&mut self, _pid: u64) {}

    fn rest(&mut self) {}
}
