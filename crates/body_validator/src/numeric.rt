ghost use Rattle.std.specs.Prelude.{◌≡◌, true, false, Ok, option_map, option_to_list};
ghost use Rattle.wasm_ops.specs.Table.{IsRowOf};
ghost use Rattle.wasm_form.specs.Context.{Context};
ghost use Rattle.wasm_form.specs.Typing.{value_type, listed_type, Applies, Leads};
ghost use Rattle.body_validator.specs.Covering.{IsImage, IsStuck};
ghost use Rattle.body_validator.specs.Rules.{rule_of};

use crate::{OperandTypes, Rule};
use memory_refusal::NoMemory;
use wasm_form::{Instr, ValType};
use wasm_ops::{Num, Row};

/// The value types of one integer type, or of none.
fn value_types(num: Option<Num>) -> &'static [ValType]
    ensures { result.now ≡ option_to_list (option_map value_type num) }
{
    match num {
        None => &[],
        Some(Num::I32) => &[ValType::I32],
        Some(Num::I64) => &[ValType::I64],
    }
}

impl OperandTypes {
    /// What an instruction with this row of the table, an integer operation, a load or a store,
    /// takes and gives.
    pub fn listed(&mut self, row: &Row) -> Result<bool, NoMemory>
        requires { IsRowOf row.now.code row.now }
        ensures yes { result ≡ Ok true → IsImage (Applies (listed_type row.now.code)) self.old self.new }
        ensures no { result ≡ Ok false → IsStuck (Applies (listed_type row.now.code)) self.old }
    {
        self.apply_two(
            value_types(row.first),
            value_types(row.second),
            value_types(row.result),
        )
    }

    /// An integer operation with this row of the table; false where the operands that it takes
    /// can't be there. After false, and for want of memory, what is known is of no further use.
    pub fn numeric(&mut self, row: &Row) -> Result<bool, NoMemory>
        requires row { IsRowOf row.now.code row.now }
        requires operation { rule_of row.now.code ≡ Rule.Operation }
        ensures yes { result ≡ Ok true → (context : Context) (i : Instr) → i.code ≡ row.now.code
            → IsImage (Leads context i) self.old self.new }
        ensures no { result ≡ Ok false → (context : Context) (i : Instr) → i.code ≡ row.now.code
            → IsStuck (Leads context i) self.old }
    {
        self.listed(row)
    }

    /// i32.const, i64.const.
    pub fn constant(&mut self, instr: Instr) -> Result<bool, NoMemory>
        requires { rule_of instr.code ≡ Rule.Constant }
        ensures yes { result ≡ Ok true → (context : Context) → IsImage (Leads context instr) self.old self.new }
        ensures no { result ≡ Ok false → (context : Context) → IsStuck (Leads context instr) self.old }
    {
        match instr.code {
            0x41 => self.apply(&[], &[ValType::I32]),
            0x42 => self.apply(&[], &[ValType::I64]),
            _ => Ok(false),
        }
    }
}
