use crate::num::Num;

/// What an instruction does to the operands.
#[derive(Clone, Copy, Debug, PartialEq, Eq)]
pub enum Kind {
    /// Anything else: blocks, branches, calls, variables, constants, the memory's size.
    Control,
    /// An integer operation on one or two operands.
    Plain,
    /// A load of an integer.
    Load,
    /// A store of an integer.
    Store,
    /// An instruction on floats.
    Float,
}

/// What the table says of one instruction (Core 1.0, 5.4).
#[derive(Clone, Copy, Debug)]
pub struct Row {
    /// The byte that spells the instruction.
    pub code: u8,
    /// The instruction's name in the text format, as `i32.add`.
    pub name: &'static str,
    /// What the instruction does to the operands.
    pub kind: Kind,
    /// The type of the first operand, the deepest on the stack, of a plain instruction, a load or a store.
    pub first: Option<Num>,
    /// The type of the second operand, if there is one.
    pub second: Option<Num>,
    /// The type of the result, of a plain instruction or a load.
    pub result: Option<Num>,
    /// The bytes that a load or a store reaches: 1, 2, 4 or 8. Of any other instruction 0.
    pub width: u8,
}
