ghost use Rattle.std.specs.Prelude.{◌≡◌};
ghost use Rattle.wasm_form.specs.Instructions.{immediates_of, fits};

use crate::Imm;

/// What follows the code of an instruction that opens and closes no block (Core 1.0, 5.4).
/// `br_table`, whose labels are pooled, is none of these.
#[derive(Clone, Copy, Debug, PartialEq, Eq)]
pub enum Immediates {
    /// Nothing.
    Bare,
    /// A label, or the index of a function, local or global.
    Index,
    /// The index of a type, and a byte 00.
    TypeAndZero,
    /// A byte 00.
    Zero,
    /// The exponent of the alignment, and the offset.
    Memory,
    /// A signed number of 32 bits.
    S32,
    /// A signed number of 64 bits.
    S64,
    /// Four bytes.
    F32,
    /// Eight bytes.
    F64,
}

impl Immediates {
    /// What follows this code; none where no such instruction has it.
    #[tactic(auto, unfolding(crate::specs::Instructions::immediates_of))]
    pub fn after(code: u8) -> Option<Immediates>
        ensures { result ≡ immediates_of code }
    {
        if code <= 0x01 {
            Some(Immediates::Bare)
        } else if code <= 0x0B {
            None
        } else if code <= 0x0D {
            Some(Immediates::Index)
        } else if code <= 0x0E {
            None
        } else if code <= 0x0F {
            Some(Immediates::Bare)
        } else if code <= 0x10 {
            Some(Immediates::Index)
        } else if code <= 0x11 {
            Some(Immediates::TypeAndZero)
        } else if code <= 0x19 {
            None
        } else if code <= 0x1B {
            Some(Immediates::Bare)
        } else if code <= 0x1F {
            None
        } else if code <= 0x24 {
            Some(Immediates::Index)
        } else if code <= 0x27 {
            None
        } else if code <= 0x3E {
            Some(Immediates::Memory)
        } else if code <= 0x40 {
            Some(Immediates::Zero)
        } else if code <= 0x41 {
            Some(Immediates::S32)
        } else if code <= 0x42 {
            Some(Immediates::S64)
        } else if code <= 0x43 {
            Some(Immediates::F32)
        } else if code <= 0x44 {
            Some(Immediates::F64)
        } else if code <= 0xBF {
            Some(Immediates::Bare)
        } else {
            None
        }
    }
    /// Whether an instruction's immediates are these.
    pub fn fits(self, imm: Imm) -> bool
        ensures { result ≡ fits self imm }
    {
        match (self, imm) {
            (Immediates::Bare, Imm::None) => true,
            (Immediates::Index, Imm::Index(_)) => true,
            (Immediates::TypeAndZero, Imm::Index(_)) => true,
            (Immediates::Zero, Imm::None) => true,
            (Immediates::Memory, Imm::Mem { .. }) => true,
            (Immediates::S32, Imm::I32(_)) => true,
            (Immediates::S64, Imm::I64(_)) => true,
            (Immediates::F32, Imm::F32(_)) => true,
            (Immediates::F64, Imm::F64(_)) => true,
            _ => false,
        }
    }
}
