use crate::Place;
use instance_store::Invocation;
use linear_memory::Memory;

/// What a machine holds.
#[derive(Drop)]
pub(crate) struct State {
    /// The array of values: the first `sp` are in use, the last of them on top.
    pub(crate) values: Vec<u64>,
    pub(crate) sp: usize,
    /// Where the function at work stands.
    pub(crate) place: Place,
    /// Where its callers go on, the innermost last.
    pub(crate) callers: Vec<Place>,
    pub(crate) globals: Vec<u64>,
    pub(crate) table: Vec<Option<u32>>,
    /// Without pages where the machine has none.
    pub(crate) memory: Memory,
    pub(crate) has_memory: bool,
    /// The functions without a caller, in order, and how many of them were entered.
    pub(crate) invocations: Vec<Invocation>,
    pub(crate) entered: usize,
}
