use outside::Stream;
use resource_table::Owned;

/// Why bytes were not written.
#[derive(Clone, Copy, Debug, PartialEq, Eq)]
pub enum ScratchFault {
    /// There is no scratch message.
    NoMessage,
    /// The machine refused memory.
    NoMemory,
}

/// Why a stream was not pushed. The handle comes back.
pub enum PushRefused<S: Stream> {
    /// There is no scratch message.
    NoMessage(Owned<S>),
    /// 64 streams were pushed into the message.
    PlacesFull(Owned<S>),
    /// The machine refused memory.
    NoMemory(Owned<S>),
}
