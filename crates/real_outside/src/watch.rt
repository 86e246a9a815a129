use mio::unix::SourceFd;
use mio::{Interest, Registry, Token};
use std::os::fd::RawFd;
use std::sync::Arc;

/// The one token of all sockets: a rest asks whether some socket is ready, not which.
const SOME: Token = Token(0);

/// A socket's part in what ends a rest. Without a registry no socket does.
#[derive(Drop)]
pub(crate) struct Watch {
    registry: Option<Arc<Registry>>,
    known: bool,
}

impl Watch {
    /// The part of a socket that was never found not ready.
    pub(crate) fn new(registry: Option<Arc<Registry>>) -> Watch {
        Watch {
            registry,
            known: false,
        }
    }

    /// From now on a rest ends once this socket is ready so, also where it is by now. A socket of which the machine
    /// keeps no watch ends no rest.
    pub(crate) fn begin(&mut self, socket: RawFd, interest: Interest) {
        if let Some(registry) = &self.registry {
            let mut source = SourceFd(&socket);
            let watched = if self.known {
                registry.reregister(&mut source, SOME, interest)
            } else {
                registry.register(&mut source, SOME, interest)
            };
            self.known = watched.is_ok();
        }
    }
}
