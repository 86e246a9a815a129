ghost use Rattle.std.specs.Prelude.{◌≡◌, ◌↔◌, true, false, Ok, IsTrue};
ghost use Rattle.wasm_form.specs.Context.{Context, HasTable};
ghost use Rattle.wasm_form.specs.Typing.{Leads};
ghost use Rattle.body_validator.specs.Covering.{IsImage, IsStuck};
ghost use Rattle.body_validator.specs.Rules.{rule_of};

use crate::lookup::{function_at, type_at};
use crate::{OperandTypes, Rule};
use memory_refusal::NoMemory;
use wasm_form::{FuncType, Imm, Instr, ValType};

impl OperandTypes {
    /// call: where these are the module's types, and the functions by the indexes of their types.
    pub fn call(
        &mut self,
        types: &[FuncType],
        functions: &[u32],
        instr: Instr,
    ) -> Result<bool, NoMemory>
        requires { rule_of instr.code ≡ Rule.Call }
        ensures yes { result ≡ Ok true → (context : Context) → context.types ≡ types.now
            → context.functions ≡ functions.now → IsImage (Leads context instr) self.old self.new }
        ensures no { result ≡ Ok false → (context : Context) → context.types ≡ types.now
            → context.functions ≡ functions.now → IsStuck (Leads context instr) self.old }
    {
        let Imm::Index(function) = instr.imm else {
            return Ok(false);
        };
        let Some(index) = function_at(functions, function as usize) else {
            return Ok(false);
        };
        let Some(callee) = type_at(types, index) else {
            return Ok(false);
        };
        self.apply(callee.params.as_slice(), callee.results.as_slice())
    }

    /// call_indirect: where these are the module's types, and there is a table or not.
    pub fn call_indirect(
        &mut self,
        types: &[FuncType],
        has_table: bool,
        instr: Instr,
    ) -> Result<bool, NoMemory>
        requires { rule_of instr.code ≡ Rule.CallIndirect }
        ensures yes { result ≡ Ok true → (context : Context) → context.types ≡ types.now
            → (IsTrue has_table ↔ HasTable context) → IsImage (Leads context instr) self.old self.new }
        ensures no { result ≡ Ok false → (context : Context) → context.types ≡ types.now
            → (IsTrue has_table ↔ HasTable context) → IsStuck (Leads context instr) self.old }
    {
        let Imm::Index(place) = instr.imm else {
            return Ok(false);
        };
        let Some(callee) = type_at(types, place) else {
            return Ok(false);
        };
        if !has_table {
            return Ok(false);
        }
        self.apply_two(
            callee.params.as_slice(),
            &[ValType::I32],
            callee.results.as_slice(),
        )
    }
}
