//! The immediates of the instructions that open and close no block.

ghost use Rattle.wasm_form.specs.Instructions.{SpellsImmediates};
ghost use Rattle.body_reader.specs.Reading.{Answers};

use crate::ReadFault;
use crate::numbers::{expect_byte, s32_at, s64_at, take_at, u32_at};
use leb_read::Cursor;
use wasm_form::{Imm, Immediates};

/// The immediates of that kind at the cursor, which are passed over.
pub fn immediates_at(cursor: &mut Cursor<'_>, kind: Immediates) -> Result<Imm, ReadFault>
    ensures { Answers (SpellsImmediates kind) cursor.old cursor.new result }
{
    match kind {
        Immediates::Bare => Ok(Imm::None),
        Immediates::Index => index_at(cursor),
        Immediates::TypeAndZero => type_and_zero_at(cursor),
        Immediates::Zero => zero_at(cursor),
        Immediates::Memory => memory_at(cursor),
        Immediates::S32 => signed_at(cursor),
        Immediates::S64 => wide_signed_at(cursor),
        Immediates::F32 => float_at(cursor),
        Immediates::F64 => wide_float_at(cursor),
    }
}

fn index_at(cursor: &mut Cursor<'_>) -> Result<Imm, ReadFault>
    ensures { Answers (SpellsImmediates Immediates.Index) cursor.old cursor.new result }
{
    let index = u32_at(cursor)?;
    Ok(Imm::Index(index))
}

fn type_and_zero_at(cursor: &mut Cursor<'_>) -> Result<Imm, ReadFault>
    ensures { Answers (SpellsImmediates Immediates.TypeAndZero) cursor.old cursor.new result }
{
    let index = u32_at(cursor)?;
    expect_byte(cursor, 0x00)?;
    Ok(Imm::Index(index))
}

fn zero_at(cursor: &mut Cursor<'_>) -> Result<Imm, ReadFault>
    ensures { Answers (SpellsImmediates Immediates.Zero) cursor.old cursor.new result }
{
    expect_byte(cursor, 0x00)?;
    Ok(Imm::None)
}

fn memory_at(cursor: &mut Cursor<'_>) -> Result<Imm, ReadFault>
    ensures { Answers (SpellsImmediates Immediates.Memory) cursor.old cursor.new result }
{
    let align = u32_at(cursor)?;
    let offset = u32_at(cursor)?;
    Ok(Imm::Mem { align, offset })
}

fn signed_at(cursor: &mut Cursor<'_>) -> Result<Imm, ReadFault>
    ensures { Answers (SpellsImmediates Immediates.S32) cursor.old cursor.new result }
{
    let value = s32_at(cursor)?;
    Ok(Imm::I32(value.cast_unsigned()))
}

fn wide_signed_at(cursor: &mut Cursor<'_>) -> Result<Imm, ReadFault>
    ensures { Answers (SpellsImmediates Immediates.S64) cursor.old cursor.new result }
{
    let value = s64_at(cursor)?;
    Ok(Imm::I64(value.cast_unsigned()))
}

fn float_at(cursor: &mut Cursor<'_>) -> Result<Imm, ReadFault>
    ensures { Answers (SpellsImmediates Immediates.F32) cursor.old cursor.new result }
{
    let bytes = take_at(cursor, 4)?;
    Ok(Imm::F32(u32::from_le_bytes([bytes[0], bytes[1], bytes[2], bytes[3]])))
}

fn wide_float_at(cursor: &mut Cursor<'_>) -> Result<Imm, ReadFault>
    ensures { Answers (SpellsImmediates Immediates.F64) cursor.old cursor.new result }
{
    let bytes = take_at(cursor, 8)?;
    Ok(Imm::F64(u64::from_le_bytes([
        bytes[0], bytes[1], bytes[2], bytes[3], bytes[4], bytes[5], bytes[6], bytes[7],
    ])))
}
