/// What a process gets of a linked one that fell.
#[derive(Clone, Copy, Debug, PartialEq, Eq)]
pub struct Signal {
    /// The number of the process that gets the signal.
    pub to: u64,
    /// The tag of the link.
    pub tag: u64,
}
