//! Expressions: the instructions of a flat list, in its order.

ghost use Rattle.std.specs.Prelude.{◌≡◌, OnOk, sum_by};
ghost use Rattle.wasm_form.specs.Values.{SpellsItems};
ghost use Rattle.module_writer.specs.Writing.{HasSpelling, Appends};
ghost use Rattle.module_writer.specs.Lines.{SpellsLine, least_line};

use crate::immediates::{write_numbers, write_zero};
use crate::part::Part;
use memory_refusal::NoMemory;
use wasm_form::{Expr, Immediates, Instr};

/// One instruction, where the expression has these labels.
fn write_instr(instr: Instr, labels: &[u32], out: &mut Vec<u8>) -> Result<(), NoMemory>
    requires { HasSpelling (SpellsLine labels.now) instr }
    ensures { OnOk result (Appends (SpellsLine labels.now) (least_line labels.now) instr
        out.old.items out.new.items) }
{
    out.push(instr.code)?;
    write_numbers(instr.imm, labels, out)?;
    write_zero(Immediates::after(instr.code), out)?;
    Ok(())
}

/// The instructions, each else and end among them.
fn write_code(code: &[Instr], labels: &[u32], out: &mut Vec<u8>) -> Result<(), NoMemory>
    requires { HasSpelling (SpellsItems (SpellsLine labels.now)) code.now }
    ensures { OnOk result (Appends (SpellsItems (SpellsLine labels.now))
        (sum_by (least_line labels.now)) code.now out.old.items out.new.items) }
{
    for instr in code {
        write_instr(*instr, labels, out)?;
    }
    Ok(())
}

/// Core 1.0, 5.4.6.
impl Part for Expr {
    ghost use Rattle.wasm_form.specs.Trees.{SpellsExpr};

    ghost spells = { SpellsExpr };

    fn write(&self, out: &mut Vec<u8>) -> Result<(), NoMemory> {
        write_code(self.code.as_slice(), self.labels.as_slice(), out)?;
        Ok(())
    }
}
