ghost use Rattle.std.specs.Prelude.{◌≡◌, true, false, IfOk};

use crate::RealStream;
use crate::watch::Watch;
use mio::{Interest, Registry};
use outside::Listener;
use std::io::{self, ErrorKind};
use std::net::TcpListener;
use std::os::fd::AsRawFd;
use std::sync::Arc;

/// A socket that listens, and doesn't block. Once shut it has given its socket back to the machine.
#[derive(Drop)]
pub struct RealListener {
    socket: Option<TcpListener>,
    watch: Watch,
    port: u16,
    down: bool,
}

impl RealListener {
    /// A listener over this socket, which listens at this port.
    pub(crate) fn new(socket: TcpListener, port: u16, watch: Watch) -> RealListener
        ensures port { result.port ≡ port }
        ensures up { result.down ≡ false }
    {
        RealListener {
            socket: Some(socket),
            watch,
            port,
            down: false,
        }
    }

    /// The next connection, which has a watch by the same registry. Where nobody has connected, a rest ends once
    /// somebody does.
    pub(crate) fn next_stream(&mut self, registry: Option<Arc<Registry>>) -> io::Result<RealStream>
        ensures port { self.new.port ≡ self.old.port }
        ensures down { self.new.down ≡ self.old.down }
        ensures up { IfOk result (λ s. s.down ≡ false) }
    {
        match &self.socket {
            Some(socket) => match socket.accept() {
                Ok((stream, _)) => RealStream::new(stream, Watch::new(registry)),
                Err(error) => {
                    if error.kind() == ErrorKind::WouldBlock {
                        self.watch.begin(socket.as_raw_fd(), Interest::READABLE);
                    }
                    Err(error)
                }
            },
            None => Err(io::Error::from(ErrorKind::NotConnected)),
        }
    }
}

impl Listener for RealListener {
    ghost number = { λ l. l.port };

    ghost down = { λ l. l.down };

    fn port(&self) -> u16 {
        self.port
    }

    fn shut(&mut self) {
        self.socket = None;
        self.down = true;
    }
}
