//! Value types, block types and runs of locals.

ghost use Rattle.std.specs.Prelude.{◌≡◌, ◌∷◌, [], Option, MatchOption};
ghost use Rattle.wasm_form.specs.Types.{SpellsValType, SpellsBlockType};
ghost use Rattle.wasm_form.specs.Sections.{SpellsRun};
ghost use Rattle.wasm_form.specs.declared.value_type.ValType.{ValType};
ghost use Rattle.body_reader.specs.Reading.{Answers};

use crate::numbers::{byte_at, u32_at};
use crate::{Part, ReadFault};
use leb_read::Cursor;
use std::alloc::Global;
use wasm_form::{LocalRun, ValType};

/// The value type that a byte spells; none where it spells none.
fn val_type_of(byte: u8) -> Option<ValType>
    ensures { MatchOption result ((ty : ValType) → SpellsValType (byte ∷ []) ty → ⊥)
        (λ ty. SpellsValType (byte ∷ []) ty) }
{
    match byte {
        0x7F => Some(ValType::I32),
        0x7E => Some(ValType::I64),
        0x7D => Some(ValType::F32),
        0x7C => Some(ValType::F64),
        _ => None,
    }
}

impl Part for ValType {
    ghost use Rattle.wasm_form.specs.Types.{SpellsValType};

    ghost spells = { SpellsValType };

    fn read(_alloc: Global, cursor: &mut Cursor<'_>) -> Result<ValType, ReadFault> {
        match val_type_of(byte_at(cursor)?) {
            Some(ty) => Ok(ty),
            None => Err(ReadFault::Malformed),
        }
    }
}

/// The result of a block, loop or if, where it has one.
pub fn block_type_at(cursor: &mut Cursor<'_>) -> Result<Option<ValType>, ReadFault>
    ensures { Answers SpellsBlockType cursor.old cursor.new result }
{
    let byte = byte_at(cursor)?;
    if byte == 0x40 {
        return Ok(None);
    }
    match val_type_of(byte) {
        Some(ty) => Ok(Some(ty)),
        None => Err(ReadFault::Malformed),
    }
}

impl Part for LocalRun {
    ghost use Rattle.wasm_form.specs.Sections.{SpellsRun};

    ghost spells = { SpellsRun };

    fn read(alloc: Global, cursor: &mut Cursor<'_>) -> Result<LocalRun, ReadFault> {
        let count = u32_at(cursor)?;
        let ty = ValType::read(alloc, cursor)?;
        Ok(LocalRun { count, ty })
    }
}
