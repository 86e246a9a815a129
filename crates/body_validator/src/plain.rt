ghost use Rattle.std.specs.Prelude.{◌≡◌, true, false, Ok};
ghost use Rattle.wasm_ops.specs.Table.{kind_of, IsRowOf, IsAccessWidth};
ghost use Rattle.wasm_form.specs.Context.{Context};
ghost use Rattle.wasm_form.specs.Typing.{Leads};
ghost use Rattle.body_validator.specs.Covering.{IsImage, IsStuck};
ghost use Rattle.body_validator.specs.Frames.{labels_of};
ghost use Rattle.body_validator.specs.Functions.{IsContext};

use crate::{Frames, Function, OperandTypes, Rule};
use memory_refusal::NoMemory;
use wasm_form::Instr;
use wasm_ops::table::row;
use wasm_ops::{Kind, Row};

impl OperandTypes {
    /// What an instruction that opens and closes no block, and is no br_table, makes of the
    /// operands; false where it has no type or the operands that it takes can't be there. After
    /// false, and for want of memory, what is known is of no further use.
    pub fn plain(
        &mut self,
        function: &Function<'_>,
        frames: &Frames,
        instr: Instr,
    ) -> Result<bool, NoMemory>
        ensures yes { result ≡ Ok true → (context : Context) → IsContext function.now context
            → context.labels ≡ labels_of frames.now → IsImage (Leads context instr) self.old self.new }
        ensures no { result ≡ Ok false → (context : Context) → IsContext function.now context
            → context.labels ≡ labels_of frames.now → IsStuck (Leads context instr) self.old }
    {
        match row(instr.code) {
            Some(row) => self.with_row(function, frames, row, instr),
            None => self.control(function, frames, instr),
        }
    }

    /// An instruction with this row of the table.
    fn with_row(
        &mut self,
        function: &Function<'_>,
        frames: &Frames,
        row: &Row,
        instr: Instr,
    ) -> Result<bool, NoMemory>
        requires row { IsRowOf instr.code row.now }
        requires load { row.now.kind ≡ Kind.Load → IsAccessWidth row.now.width }
        requires store { row.now.kind ≡ Kind.Store → IsAccessWidth row.now.width }
        ensures yes { result ≡ Ok true → (context : Context) → IsContext function.now context
            → context.labels ≡ labels_of frames.now → IsImage (Leads context instr) self.old self.new }
        ensures no { result ≡ Ok false → (context : Context) → IsContext function.now context
            → context.labels ≡ labels_of frames.now → IsStuck (Leads context instr) self.old }
    {
        match row.kind {
            Kind::Control => self.control(function, frames, instr),
            Kind::Plain => self.numeric(row),
            Kind::Load => self.access(function.has_memory, row, instr),
            Kind::Store => self.access(function.has_memory, row, instr),
            Kind::Float => Ok(false),
        }
    }

    /// An instruction that is neither an integer operation nor a load, a store or a float one.
    fn control(
        &mut self,
        function: &Function<'_>,
        frames: &Frames,
        instr: Instr,
    ) -> Result<bool, NoMemory>
        requires { kind_of instr.code ≡ Kind.Control }
        ensures yes { result ≡ Ok true → (context : Context) → IsContext function.now context
            → context.labels ≡ labels_of frames.now → IsImage (Leads context instr) self.old self.new }
        ensures no { result ≡ Ok false → (context : Context) → IsContext function.now context
            → context.labels ≡ labels_of frames.now → IsStuck (Leads context instr) self.old }
    {
        match Rule::of_control(instr.code) {
            Rule::Constant => self.constant(instr),
            Rule::Parametric => self.parametric(instr),
            Rule::Local => self.local(function.locals, instr),
            Rule::Global => self.global(function.globals, instr),
            Rule::MemorySize => self.memory_size(function.has_memory, instr),
            Rule::Nop => Ok(true),
            Rule::BranchIf => self.branch_if(frames, instr),
            Rule::Call => self.call(function.types, function.functions, instr),
            Rule::CallIndirect => self.call_indirect(function.types, function.has_table, instr),
            Rule::Leaves => Ok(self.leaves(frames, function.results, instr)),
            Rule::Operation => Ok(false),
            Rule::Access => Ok(false),
            Rule::Untyped => Ok(false),
        }
    }
}
