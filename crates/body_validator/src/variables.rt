ghost use Rattle.std.specs.Prelude.{◌≡◌, true, false, Ok};
ghost use Rattle.wasm_form.specs.Context.{Context};
ghost use Rattle.wasm_form.specs.Typing.{Leads};
ghost use Rattle.body_validator.specs.Covering.{IsImage, IsStuck};
ghost use Rattle.body_validator.specs.Rules.{rule_of};

use crate::lookup::global_at;
use crate::{Locals, OperandTypes, Rule};
use memory_refusal::NoMemory;
use wasm_form::{GlobalType, Imm, Instr};

impl OperandTypes {
    /// local.get, local.set, local.tee: in a function with these locals.
    pub fn local(&mut self, locals: &Locals<'_>, instr: Instr) -> Result<bool, NoMemory>
        requires { rule_of instr.code ≡ Rule.Local }
        ensures yes { result ≡ Ok true → (context : Context) → context.locals ≡ locals.now
            → IsImage (Leads context instr) self.old self.new }
        ensures no { result ≡ Ok false → (context : Context) → context.locals ≡ locals.now
            → IsStuck (Leads context instr) self.old }
    {
        let Imm::Index(place) = instr.imm else {
            return Ok(false);
        };
        let Some(ty) = locals.get(place) else {
            return Ok(false);
        };
        match instr.code {
            0x20 => self.apply(&[], &[ty]),
            0x21 => self.apply(&[ty], &[]),
            0x22 => self.apply(&[ty], &[ty]),
            _ => Ok(false),
        }
    }

    /// global.get, and global.set, of a mutable one: where these are the module's globals.
    pub fn global(&mut self, globals: &[GlobalType], instr: Instr) -> Result<bool, NoMemory>
        requires { rule_of instr.code ≡ Rule.Global }
        ensures yes { result ≡ Ok true → (context : Context) → context.globals ≡ globals.now
            → IsImage (Leads context instr) self.old self.new }
        ensures no { result ≡ Ok false → (context : Context) → context.globals ≡ globals.now
            → IsStuck (Leads context instr) self.old }
    {
        let Imm::Index(place) = instr.imm else {
            return Ok(false);
        };
        let Some(global) = global_at(globals, place) else {
            return Ok(false);
        };
        match instr.code {
            0x23 => self.apply(&[], &[global.ty]),
            0x24 if global.mutable => self.apply(&[global.ty], &[]),
            _ => Ok(false),
        }
    }
}
