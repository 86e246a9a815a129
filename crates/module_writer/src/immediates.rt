//! What follows the code of an instruction (Core 1.0, 5.4).

ghost use Rattle.std.specs.Prelude.{◌≡◌, ◌++◌, OnOk};
ghost use Rattle.module_writer.specs.Writing.{HasSpelling, Appends};
ghost use Rattle.module_writer.specs.Lines.{SpellsTableOf, SpellsNumbers};
ghost use Rattle.module_writer.specs.Lines.{least_table, least_numbers, zero_of};

use crate::numbers::{write_s32, write_s64, write_u32};
use crate::part::write_items;
use crate::types::block_byte_of;
use memory_refusal::NoMemory;
use wasm_form::{Imm, Immediates};

/// The numbers of an instruction, where the expression has these labels.
pub fn write_numbers(imm: Imm, labels: &[u32], out: &mut Vec<u8>) -> Result<(), NoMemory>
    requires { HasSpelling (SpellsNumbers labels.now) imm }
    ensures { OnOk result (Appends (SpellsNumbers labels.now) (least_numbers labels.now) imm
        out.old.items out.new.items) }
{
    match imm {
        Imm::None => Ok(()),
        Imm::Block(outcome) => {
            out.push(block_byte_of(outcome))?;
            Ok(())
        }
        Imm::Index(n) => {
            write_u32(n, out)?;
            Ok(())
        }
        Imm::Table { first, count, last } => {
            write_table(labels, first, count, last, out)?;
            Ok(())
        }
        Imm::Mem { align, offset } => {
            write_u32(align, out)?;
            write_u32(offset, out)?;
            Ok(())
        }
        Imm::I32(bits) => {
            write_s32(bits, out)?;
            Ok(())
        }
        Imm::I64(bits) => {
            write_s64(bits, out)?;
            Ok(())
        }
        Imm::F32(bits) => {
            out.extend_from_slice(&bits.to_le_bytes())?;
            Ok(())
        }
        Imm::F64(bits) => {
            out.extend_from_slice(&bits.to_le_bytes())?;
            Ok(())
        }
    }
}

/// Of `br_table`: so many of the labels from a place on, and the default label.
fn write_table(
    labels: &[u32],
    first: u32,
    count: u32,
    last: u32,
    out: &mut Vec<u8>,
) -> Result<(), NoMemory>
    requires { HasSpelling (SpellsTableOf labels.now first count) last }
    ensures { OnOk result (Appends (SpellsTableOf labels.now first count)
        (least_table labels.now first count) last out.old.items out.new.items) }
{
    let from = first as usize;
    write_u32(count, out)?;
    write_items(&labels[from..from + count as usize], out)?;
    write_u32(last, out)?;
    Ok(())
}

/// The byte 00 of an instruction that has one.
pub fn write_zero(kind: Option<Immediates>, out: &mut Vec<u8>) -> Result<(), NoMemory>
    ensures { OnOk result (out.new.items ≡ out.old.items ++ zero_of kind) }
{
    if let Some(Immediates::TypeAndZero | Immediates::Zero) = kind {
        out.push(0x00)?;
    }
    Ok(())
}
