use host_calls::Proc;
use host_port::Engine;
use outside::Outside;

/// What a worker is given.
pub enum Taken<E: Engine, O: Outside> {
    /// A process, whose turn it is.
    Proc(Proc<E, O>),
    /// Nothing is ready now.
    Nothing,
    /// The run is over.
    Over,
}
