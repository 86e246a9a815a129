ghost use Rattle.std.specs.Prelude.{◌≡◌, ◌↔◌, true, false, Ok, Some, IsTrue, option_to_list};
ghost use Rattle.wasm_form.specs.Context.{Context};
ghost use Rattle.wasm_form.specs.Typing.{Leads, EndsIn};
ghost use Rattle.body_validator.specs.Covering.{IsImage, IsStuck, TableLeads};
ghost use Rattle.body_validator.specs.Frames.{labels_of};
ghost use Rattle.body_validator.specs.Rules.{rule_of};

use crate::{Frames, OperandTypes, Rule};
use memory_refusal::NoMemory;
use wasm_form::{Imm, Instr, ValType};

/// The list of one type, or of none.
pub(crate) fn listed(ty: Option<ValType>) -> &'static [ValType]
    ensures { result.now ≡ option_to_list ty }
{
    match ty {
        None => &[],
        Some(ValType::I32) => &[ValType::I32],
        Some(ValType::I64) => &[ValType::I64],
        Some(ValType::F32) => &[ValType::F32],
        Some(ValType::F64) => &[ValType::F64],
    }
}

/// Whether a label is there and carries this.
fn is_same(found: Option<Option<ValType>>, carried: Option<ValType>) -> bool
    ensures { IsTrue result ↔ found ≡ Some carried }
{
    found == Some(carried)
}

impl OperandTypes {
    /// Operands of these types are taken, and code that is not gone on to comes next; false where
    /// they can't be there.
    pub fn leave_with(&mut self, needs: &[ValType]) -> bool
        ensures yes { result ≡ true → IsImage (λ before after. EndsIn needs.now before) self.old self.new }
        ensures no { result ≡ false → IsStuck (λ before after. EndsIn needs.now before) self.old }
    {
        if !self.pops(needs) {
            return false;
        }
        self.leave();
        true
    }

    /// unreachable, br, return: in a function with these results.
    pub fn leaves(&mut self, frames: &Frames, results: Option<ValType>, instr: Instr) -> bool
        requires { rule_of instr.code ≡ Rule.Leaves }
        ensures yes { result ≡ true → (context : Context) → context.labels ≡ labels_of frames.now
            → context.results ≡ option_to_list results → IsImage (Leads context instr) self.old self.new }
        ensures no { result ≡ false → (context : Context) → context.labels ≡ labels_of frames.now
            → context.results ≡ option_to_list results → IsStuck (Leads context instr) self.old }
    {
        match instr.code {
            0x00 => self.leave_with(&[]),
            0x0C => self.leave_to(frames, instr),
            0x0F => self.leave_with(listed(results)),
            _ => false,
        }
    }

    /// br.
    fn leave_to(&mut self, frames: &Frames, instr: Instr) -> bool
        requires rule { rule_of instr.code ≡ Rule.Leaves }
        requires code { instr.code ≡ 0x0C }
        ensures yes { result ≡ true → (context : Context) → context.labels ≡ labels_of frames.now
            → IsImage (Leads context instr) self.old self.new }
        ensures no { result ≡ false → (context : Context) → context.labels ≡ labels_of frames.now
            → IsStuck (Leads context instr) self.old }
    {
        let Imm::Index(label) = instr.imm else {
            return false;
        };
        let Some(carried) = frames.carried(label) else {
            return false;
        };
        self.leave_with(listed(carried))
    }

    /// br_if.
    pub fn branch_if(&mut self, frames: &Frames, instr: Instr) -> Result<bool, NoMemory>
        requires { rule_of instr.code ≡ Rule.BranchIf }
        ensures yes { result ≡ Ok true → (context : Context) → context.labels ≡ labels_of frames.now
            → IsImage (Leads context instr) self.old self.new }
        ensures no { result ≡ Ok false → (context : Context) → context.labels ≡ labels_of frames.now
            → IsStuck (Leads context instr) self.old }
    {
        let Imm::Index(label) = instr.imm else {
            return Ok(false);
        };
        let Some(carried) = frames.carried(label) else {
            return Ok(false);
        };
        self.apply_two(listed(carried), &[ValType::I32], listed(carried))
    }

    /// br_table with these labels and this default label.
    pub fn table(&mut self, frames: &Frames, labels: &[u32], last: u32) -> bool
        ensures yes { result ≡ true → (context : Context) → context.labels ≡ labels_of frames.now
            → IsImage (TableLeads context labels.now last) self.old self.new }
        ensures no { result ≡ false → (context : Context) → context.labels ≡ labels_of frames.now
            → IsStuck (TableLeads context labels.now last) self.old }
    {
        let Some(carried) = frames.carried(last) else {
            return false;
        };
        for label in labels {
            if !is_same(frames.carried(*label), carried) {
                return false;
            }
        }
        if !self.pop_expect(ValType::I32) {
            return false;
        }
        self.leave_with(listed(carried))
    }
}
