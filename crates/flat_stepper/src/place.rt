/// Where a function stands, or where a caller goes on.
#[derive(Clone, Copy, Debug, PartialEq, Eq)]
pub struct Place {
    /// The place of its next instruction.
    pub pc: usize,
    /// Which body of the module it has.
    pub body: usize,
    /// How many values lie below its locals.
    pub base: usize,
    /// How many blocks, loops and ifs are open in it and in its callers.
    pub opens: usize,
}
