use code_map::Target;
use wasm_form::Instr;

/// What stays as it is while a body is executed.
#[derive(Clone, Copy)]
pub struct Within<'a> {
    /// The instructions of the body.
    pub code: &'a [Instr],
    /// The slots, the targets and the tables of its map.
    pub slots: &'a [u32],
    pub targets: &'a [Target],
    pub tables: &'a [Target],
    /// How many values lie below the function's locals.
    pub base: usize,
    /// How many blocks, loops and ifs are open in its callers.
    pub outer: usize,
}

/// How far a body has come: the place of its next instruction, how many values are in use, and how many blocks, loops
/// and ifs are open in the function and in its callers.
#[derive(Clone, Copy)]
pub struct Spot {
    pub pc: usize,
    pub sp: usize,
    pub opens: usize,
}
