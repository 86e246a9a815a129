ghost use Rattle.std.specs.Prelude.{◌≡◌};
ghost use Rattle.wasm_form.specs.Matching.{sort_of, special_sort};

use crate::{Imm, Immediates, Instr};

/// What an instruction of a flat list does to the blocks around it.
#[derive(Clone, Copy, Debug, PartialEq, Eq)]
pub enum Sort {
    /// Nothing, and it pools no labels.
    Plain,
    /// Nothing; it pools `count` labels from the place `first` on.
    Table { first: u32, count: u32 },
    /// It opens a block or a loop.
    Block,
    /// It opens an if.
    If,
    /// It ends the first part of an if and opens the second.
    Else,
    /// It ends a block, a loop, an if or the expression.
    End,
}

impl Sort {
    /// The sort of an instruction; none where no instruction has this code with these immediates.
    #[tactic(auto, unfolding(crate::specs::Matching::sort_of))]
    pub fn of(instr: Instr) -> Option<Sort>
        ensures { result ≡ sort_of instr }
    {
        if let Some(kind) = Immediates::after(instr.code) {
            if kind.fits(instr.imm) {
                Some(Sort::Plain)
            } else {
                None
            }
        } else {
            Sort::special(instr.code, instr.imm)
        }
    }

    /// The sort of the codes that open and close blocks, and of br_table.
    fn special(code: u8, imm: Imm) -> Option<Sort>
        ensures { result ≡ special_sort code imm }
    {
        match imm {
            Imm::None if code == 0x05 => Some(Sort::Else),
            Imm::None if code == 0x0B => Some(Sort::End),
            Imm::Block(_) if code == 0x02 || code == 0x03 => Some(Sort::Block),
            Imm::Block(_) if code == 0x04 => Some(Sort::If),
            Imm::Table { first, count, .. } if code == 0x0E => Some(Sort::Table { first, count }),
            _ => None,
        }
    }
}
