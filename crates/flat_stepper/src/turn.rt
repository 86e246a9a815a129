use wasm_ops::Trap;

/// Why the execution of one body pauses.
#[derive(Clone, Copy, Debug, PartialEq, Eq)]
pub enum Pause {
    /// The budget is used up, and an instruction is to come.
    Slice,
    /// The body is over.
    Over,
    /// The next instruction needs a place more than the array of values has.
    Full,
    /// The function with this index is called; nothing of the call is done.
    Call(u32),
    /// An element of the table is called, by the index of this type; nothing of the call is done.
    CallIndirect(u32),
    /// The next instruction traps; it isn't counted.
    Trap(Trap),
}

/// What the execution of one body came to.
#[derive(Clone, Copy, Debug, PartialEq, Eq)]
pub struct Turn {
    pub pause: Pause,
    /// How many instructions were executed; the end of a body, a block, a loop or an if, and else are none.
    pub executed: u64,
    /// The place of the next instruction.
    pub pc: usize,
    /// How many values are in use.
    pub sp: usize,
    /// How many blocks, loops and ifs are open in the function and in its callers.
    pub opens: usize,
}
