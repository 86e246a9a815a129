ghost use Rattle.std.specs.Prelude.{◌≡◌, ◌↔◌, ◌≤◌, ◌^◌, true, false, Ok, IsTrue};
ghost use Rattle.wasm_ops.specs.Table.{IsRowOf, IsAccessWidth};
ghost use Rattle.wasm_form.specs.Context.{Context, HasMemory};
ghost use Rattle.wasm_form.specs.Typing.{Leads};
ghost use Rattle.body_validator.specs.Covering.{IsImage, IsStuck};
ghost use Rattle.body_validator.specs.Rules.{rule_of};

use crate::{OperandTypes, Rule};
use memory_refusal::NoMemory;
use wasm_form::{Imm, Instr, ValType};
use wasm_ops::Row;

impl OperandTypes {
    /// A load or a store with this row of the table, aligned at most to its width: where there is a
    /// memory or not.
    pub fn access(&mut self, has_memory: bool, row: &Row, instr: Instr) -> Result<bool, NoMemory>
        requires row { IsRowOf row.now.code row.now }
        requires code { row.now.code ≡ instr.code }
        requires access { rule_of instr.code ≡ Rule.Access }
        requires width { IsAccessWidth row.now.width }
        ensures yes { result ≡ Ok true → (context : Context) → (IsTrue has_memory ↔ HasMemory context)
            → IsImage (Leads context instr) self.old self.new }
        ensures no { result ≡ Ok false → (context : Context) → (IsTrue has_memory ↔ HasMemory context)
            → IsStuck (Leads context instr) self.old }
    {
        let Imm::Mem { align, .. } = instr.imm else {
            return Ok(false);
        };
        if !has_memory {
            return Ok(false);
        }
        if !is_aligned(align, row.width) {
            return Ok(false);
        }
        self.listed(row)
    }

    /// memory.size, memory.grow: where there is a memory or not.
    pub fn memory_size(&mut self, has_memory: bool, instr: Instr) -> Result<bool, NoMemory>
        requires { rule_of instr.code ≡ Rule.MemorySize }
        ensures yes { result ≡ Ok true → (context : Context) → (IsTrue has_memory ↔ HasMemory context)
            → IsImage (Leads context instr) self.old self.new }
        ensures no { result ≡ Ok false → (context : Context) → (IsTrue has_memory ↔ HasMemory context)
            → IsStuck (Leads context instr) self.old }
    {
        if !has_memory {
            return Ok(false);
        }
        match instr.code {
            0x3F => self.apply(&[], &[ValType::I32]),
            0x40 => self.apply(&[ValType::I32], &[ValType::I32]),
            _ => Ok(false),
        }
    }
}

/// Whether the alignment with this exponent is at most the width.
fn is_aligned(align: u32, width: u8) -> bool
    requires { IsAccessWidth width }
    ensures { IsTrue result ↔ (2 ^ align ≤ width) }
{
    match align {
        0 => true,
        1 => 2 <= width,
        2 => 4 <= width,
        3 => 8 <= width,
        _ => false,
    }
}
