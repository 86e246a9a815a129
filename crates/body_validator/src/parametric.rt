ghost use Rattle.std.specs.Prelude.{◌≡◌, true, false, Ok};
ghost use Rattle.wasm_form.specs.Context.{Context};
ghost use Rattle.wasm_form.specs.Typing.{Leads};
ghost use Rattle.body_validator.specs.Covering.{IsImage, IsStuck, Selects, IsEither};
ghost use Rattle.body_validator.specs.Rules.{rule_of};

use crate::{OperandTypes, Rule};
use memory_refusal::NoMemory;
use wasm_form::{Instr, ValType};

impl OperandTypes {
    /// drop, select.
    pub fn parametric(&mut self, instr: Instr) -> Result<bool, NoMemory>
        requires { rule_of instr.code ≡ Rule.Parametric }
        ensures yes { result ≡ Ok true → (context : Context) → IsImage (Leads context instr) self.old self.new }
        ensures no { result ≡ Ok false → (context : Context) → IsStuck (Leads context instr) self.old }
    {
        match instr.code {
            0x1A => Ok(self.pop()),
            0x1B => self.select(),
            _ => Ok(false),
        }
    }

    /// Two operands of one type and an i32 above them make one operand of that type. It is unknown
    /// where both are.
    pub fn select(&mut self) -> Result<bool, NoMemory>
        ensures yes { result ≡ Ok true → IsImage Selects self.old self.new }
        ensures no { result ≡ Ok false → IsStuck Selects self.old }
    {
        if !self.pop_expect(ValType::I32) {
            return Ok(false);
        }
        let Some(second) = self.pop_place() else {
            return Ok(false);
        };
        let Some(first) = self.pop_place() else {
            return Ok(false);
        };
        let Some(chosen) = either(first, second) else {
            return Ok(false);
        };
        self.push_place(chosen)?;
        Ok(true)
    }
}

/// What is known of an operand of which both are known; none where they differ.
fn either(first: Option<ValType>, second: Option<ValType>) -> Option<Option<ValType>>
    ensures { IsEither first second result }
{
    match (first, second) {
        (None, other) => Some(other),
        (other, None) => Some(other),
        (Some(a), Some(b)) if a == b => Some(Some(a)),
        _ => None,
    }
}
