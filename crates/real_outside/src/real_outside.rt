ghost use Rattle.std.specs.Prelude.{◌≡◌, false, IfOk};
ghost use Rattle.outside.specs.Makes.{IfMade, MakeFault};

use crate::watch::Watch;
use crate::{RealListener, RealStream};
use mio::{Events, Poll, Registry};
use outside::{AcceptStep, MakeStep, Outside, raise};
use std::alloc::Global;
use std::io::{self, ErrorKind};
use std::net::{IpAddr, Ipv4Addr, Net, SocketAddr, TcpListener, TcpStream};
use std::sync::Arc;
use std::thread;
use std::time::{Clock, Duration, Instant};

/// How long a rest lasts at most, in milliseconds.
const REST: u64 = 1;

/// How many ready sockets one rest is told of. One ends it.
const REPORTS: usize = 16;

/// What ends a rest before its time: a socket that was found not ready is ready.
#[derive(Drop)]
struct Ears {
    poll: Poll,
    events: Events<Global>,
    registry: Arc<Registry>,
}

impl Ears {
    /// Ears that hear no socket yet, where the machine has them.
    fn new<R: Net + AllocGlobal>(rt: &R) -> Option<Ears> {
        let poll = Poll::new(rt).ok()?;
        let events = Events::with_capacity(rt.alloc(), REPORTS).ok()?;
        let registry = Arc::new(rt.alloc(), poll.registry().try_clone().ok()?).ok()?;
        Some(Ears {
            poll,
            events,
            registry,
        })
    }
}

/// The machine's sockets and clock and a pause, for one worker. Its addresses are of IPv4. A connect waits for the
/// machine's answer; nothing else blocks. A rest lasts a millisecond at most: it ends once a socket is ready that was
/// found not ready. It tells no time.
#[derive(Drop)]
pub struct RealOutside<
    'a,
    R: Clock + Net<Listener = TcpListener, Stream = TcpStream> + AllocGlobal,
> {
    rt: &'a R,
    ears: Option<Ears>,
    began: Option<Instant>,
    last: u64,
    faults: u64,
    waits: u64,
    rests: u64,
}

impl<'a, R: Clock + Net<Listener = TcpListener, Stream = TcpStream> + AllocGlobal> RealOutside<
    'a,
    R,
> {
    /// An outside whose time begins at this moment, and whose counts begin at 0. Without a moment its clock stands
    /// still.
    pub fn new(rt: &'a R, began: Option<Instant>) -> RealOutside<'a, R> {
        RealOutside {
            rt,
            ears: None,
            began,
            last: 0,
            faults: 0,
            waits: 0,
            rests: 0,
        }
    }

    /// By what the next socket ends a rest; made with the first socket.
    fn registry(&mut self) -> Option<Arc<Registry>>
        ensures faults { self.new.faults ≡ self.old.faults }
        ensures waits { self.new.waits ≡ self.old.waits }
        ensures rests { self.new.rests ≡ self.old.rests }
    {
        if self.ears.is_none() {
            self.ears = Ears::new(self.rt);
        }
        self.ears.as_ref()?.registry.clone().ok()
    }
}

/// The milliseconds since this moment, where the machine tells them.
fn elapsed<R: Clock>(rt: &R, began: Option<Instant>) -> Option<u64> {
    let elapsed = began?.elapsed(rt).ok()?;
    u64::try_from(elapsed.as_millis()).ok()
}

/// This port at this address of IPv4, whose highest byte is the first octet.
fn address(ip: u32, port: u16) -> SocketAddr {
    SocketAddr::new(IpAddr::V4(Ipv4Addr::from_bits(ip)), port)
}

/// A socket that listens there without blocking, and its port.
fn listen<R: Net<Listener = TcpListener, Stream = TcpStream>>(
    rt: &R,
    ip: u32,
    port: u16,
    registry: Option<Arc<Registry>>,
) -> io::Result<RealListener>
    ensures { IfOk result (λ l. l.down ≡ false) }
{
    let socket = TcpListener::bind(rt, address(ip, port))?;
    socket.set_nonblocking(true)?;
    let port = socket.local_addr()?.port();
    Ok(RealListener::new(socket, port, Watch::new(registry)))
}

/// The answer to a making that failed so: a fault, or want of memory, also where the count stands at its end.
fn not_made<T>(faults: &mut u64, error: io::Error) -> MakeStep<T>
    ensures fault { MakeFault faults.old faults.new result }
    ensures none { IfMade result (λ _. ⊥) }
{
    if error.kind() == ErrorKind::OutOfMemory || !raise(faults) {
        MakeStep::NoMemory
    } else {
        MakeStep::Failed
    }
}

/// A connection to this port at this address.
fn connect_to<R: Net<Listener = TcpListener, Stream = TcpStream>>(
    rt: &R,
    ip: u32,
    port: u16,
    registry: Option<Arc<Registry>>,
) -> io::Result<RealStream>
    ensures { IfOk result (λ s. s.down ≡ false) }
{
    let socket = TcpStream::connect(rt, address(ip, port))?;
    RealStream::new(socket, Watch::new(registry))
}

impl<R: Clock + Net<Listener = TcpListener, Stream = TcpStream> + AllocGlobal + Sync> Outside
    for RealOutside<'_, R> {
    type Stream = RealStream;

    type Listener = RealListener;

    ghost use Rattle.std.specs.Prelude.{None};

    ghost faults = { λ o. o.faults };

    ghost waits = { λ o. o.waits };

    ghost rests = { λ o. o.rests };

    ghost clock = { λ _. None };

    ghost entered = { λ _. None };

    fn now(&mut self) -> u64 {
        if let Some(time) = elapsed(self.rt, self.began) {
            self.last = time;
        }
        self.last
    }

    fn bind(&mut self, ip: u32, port: u16) -> MakeStep<RealListener> {
        let registry = self.registry();
        match listen(self.rt, ip, port, registry) {
            Ok(listener) => MakeStep::Done(listener),
            Err(error) => not_made(&mut self.faults, error),
        }
    }

    fn accept(&mut self, listener: &mut RealListener) -> AcceptStep<RealStream> {
        let registry = self.registry();
        match listener.next_stream(registry) {
            Ok(stream) => AcceptStep::Done(stream),
            Err(error) => match error.kind() {
                ErrorKind::WouldBlock | ErrorKind::Interrupted | ErrorKind::ConnectionAborted => {
                    if raise(&mut self.waits) {
                        AcceptStep::NotReady
                    } else {
                        AcceptStep::NoMemory
                    }
                }
                ErrorKind::OutOfMemory => AcceptStep::NoMemory,
                _ => {
                    if raise(&mut self.faults) {
                        AcceptStep::Failed
                    } else {
                        AcceptStep::NoMemory
                    }
                }
            },
        }
    }

    fn connect(&mut self, ip: u32, port: u16) -> MakeStep<RealStream> {
        let registry = self.registry();
        match connect_to(self.rt, ip, port, registry) {
            Ok(stream) => MakeStep::Done(stream),
            Err(error) => not_made(&mut self.faults, error),
        }
    }

    fn enter(&mut self, _pid: u64) {}

    fn rest(&mut self) {
        raise(&mut self.rests);
        let longest = Duration::from_millis(REST);
        match &mut self.ears {
            Some(ears) => {
                let _ = ears.poll.poll(&mut ears.events, Some(longest));
            }
            None => thread::sleep(self.rt, longest),
        }
    }
}
