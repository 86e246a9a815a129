ghost use Rattle.std.specs.Prelude.{◌≡◌, ◌≤◌, ◌<◌, false, IfOk};
ghost use Rattle.outside.specs.Causes.{RoseOrFull};
ghost use Rattle.outside.specs.Streams.{StreamFault, StreamWait, StreamEmpty};
ghost use Rattle.real_outside.specs.Moving.{IsWithin};

use crate::watch::Watch;
use mio::Interest;
use outside::{IoStep, Stream, raise};
use std::io::{self, ErrorKind, Read, Write};
use std::net::{Shutdown, TcpStream};
use std::os::fd::AsRawFd;

/// A connected socket. It doesn't block: where the machine says that a call would, the answer is `NotReady`. It tells
/// no bytes. Once shut it has given its socket back to the machine.
#[derive(Drop)]
pub struct RealStream {
    socket: Option<TcpStream>,
    watch: Watch,
    down: bool,
    faults: u64,
    waits: u64,
    empties: u64,
}

impl RealStream {
    /// A stream over this socket, from now on without blocking and without waiting to fill a packet. Its counts begin
    /// at 0.
    pub(crate) fn new(socket: TcpStream, watch: Watch) -> io::Result<RealStream>
        ensures { IfOk result (λ s. s.down ≡ false) }
    {
        socket.set_nonblocking(true)?;
        socket.set_nodelay(true)?;
        Ok(RealStream {
            socket: Some(socket),
            watch,
            down: false,
            faults: 0,
            waits: 0,
            empties: 0,
        })
    }

    /// The answer to a call over a buffer, or a piece, of this size that moved so many bytes, or failed.
    fn step(&mut self, moved: io::Result<usize>, size: usize, interest: Interest) -> IoStep
        requires { IfOk moved (λ n. n ≤ size) }
        ensures within { IsWithin size result }
        ensures down { self.new.down ≡ self.old.down }
        ensures faults { StreamFault self.old.faults self.new.faults result }
        ensures waits { StreamWait self.old.waits self.new.waits result }
        ensures empties { StreamEmpty self.old.empties self.new.empties size result }
    {
        match moved {
            Ok(0) => self.empty(size),
            Ok(count) => IoStep::Done(count),
            Err(error) => match error.kind() {
                ErrorKind::WouldBlock | ErrorKind::Interrupted => {
                    if raise(&mut self.waits) {
                        self.watch(interest);
                        IoStep::NotReady
                    } else {
                        self.empty(size)
                    }
                }
                _ => {
                    if raise(&mut self.faults) {
                        IoStep::Failed
                    } else {
                        self.empty(size)
                    }
                }
            },
        }
    }

    /// Has a rest end once the socket is ready.
    fn watch(&mut self, interest: Interest)
        ensures down { self.new.down ≡ self.old.down }
        ensures faults { self.new.faults ≡ self.old.faults }
        ensures waits { self.new.waits ≡ self.old.waits }
        ensures empties { self.new.empties ≡ self.old.empties }
    {
        if let Some(socket) = &self.socket {
            self.watch.begin(socket.as_raw_fd(), interest);
        }
    }

    /// The answer that no byte was moved.
    fn empty(&mut self, size: usize) -> IoStep
        ensures answer { result ≡ IoStep.Done 0 }
        ensures down { self.new.down ≡ self.old.down }
        ensures faults { self.new.faults ≡ self.old.faults }
        ensures waits { self.new.waits ≡ self.old.waits }
        ensures later { self.old.empties ≤ self.new.empties }
        ensures empties { 0 < size → RoseOrFull self.old.empties self.new.empties }
    {
        if size > 0 {
            raise(&mut self.empties);
        }
        IoStep::Done(0)
    }
}

impl Stream for RealStream {
    ghost use Rattle.std.specs.Prelude.{None};

    ghost taken = { λ _. None };

    ghost put = { λ _. None };

    ghost faults = { λ s. s.faults };

    ghost waits = { λ s. s.waits };

    ghost empties = { λ s. s.empties };

    ghost down = { λ s. s.down };

    fn read(&mut self, buffer: &mut [u8]) -> IoStep {
        let size = buffer.len();
        match &mut self.socket {
            Some(socket) => {
                let moved = socket.read(buffer);
                self.step(moved, size, Interest::READABLE)
            }
            None => self.empty(size),
        }
    }

    fn write(&mut self, piece: &[u8]) -> IoStep {
        let size = piece.len();
        match &mut self.socket {
            Some(socket) => {
                let moved = socket.write(piece);
                self.step(moved, size, Interest::WRITABLE)
            }
            None => self.empty(size),
        }
    }

    fn shut(&mut self) {
        if let Some(socket) = self.socket.take() {
            let _ = socket.shutdown(Shutdown::Both);
        }
        self.down = true;
    }
}
