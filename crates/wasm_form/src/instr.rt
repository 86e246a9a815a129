use crate::ValType;

/// One instruction of a flat list: its code and its immediates (Core 1.0, 5.4). The codes 05
/// (`else`) and 0B (`end`) are instructions of their own.
#[derive(Clone, Copy, Debug, PartialEq, Eq)]
pub struct Instr {
    pub code: u8,
    pub imm: Imm,
}

/// The immediates of an instruction. Numbers are kept as their bits.
#[derive(Clone, Copy, Debug, PartialEq, Eq)]
pub enum Imm {
    None,
    /// The result of a `block`, `loop` or `if`.
    Block(Option<ValType>),
    /// A label, or the index of a function, type, local or global.
    Index(u32),
    /// Of `br_table`: `count` labels from place `first` of the expression's labels on, and the
    /// default label.
    Table { first: u32, count: u32, last: u32 },
    /// Of a load or store: the exponent of the alignment, and the offset in bytes.
    Mem { align: u32, offset: u32 },
    I32(u32),
    I64(u64),
    F32(u32),
    F64(u64),
}
