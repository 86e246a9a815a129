use crate::{Instr, Vector};

/// A flat list of instructions.
pub type Instrs = Vector<Instr>;

/// Labels or indexes.
pub type Indexes = Vector<u32>;

/// Bytes.
pub type Octets = Vector<u8>;

/// The matching places of an expression, by rising `at`.
pub type Matches = Vector<Match>;

/// An expression (Core 1.0, 5.4.6), flat: its instructions with their `else` and `end`, the
/// labels of its `br_table` instructions, and a match for each `block`, `loop` and `if`.
#[derive(Debug, Drop)]
pub struct Expr {
    pub code: Instrs,
    pub labels: Indexes,
    pub matches: Matches,
}

/// The places that belong to the `block`, `loop` or `if` at the place `at`: its `else`, where it
/// has one, and its `end`.
#[derive(Clone, Copy, Debug, PartialEq, Eq)]
pub struct Match {
    pub at: u32,
    pub other: Option<u32>,
    pub end: u32,
}
