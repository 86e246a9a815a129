//! Types of functions, tables, memories and globals.

ghost use Rattle.std.specs.Prelude.{◌≡◌, ◌∷◌, ◌<◌, ◌^◌, length, Bool};
ghost use Rattle.wasm_form.specs.Types.{SpellsFuncType, SpellsLimits, SpellsTableType, SpellsMutability};
ghost use Rattle.body_reader.specs.Reading.{Answers};

use crate::numbers::{byte_at, expect_byte, u32_at};
use crate::{Part, ReadFault, read_vector};
use leb_read::Cursor;
use std::alloc::Global;
use wasm_form::{Bounds, FuncType, GlobalType, ValType};

impl Part for FuncType {
    ghost use Rattle.wasm_form.specs.Types.{SpellsFuncType};

    ghost spells = { SpellsFuncType };

    fn read(alloc: Global, cursor: &mut Cursor<'_>) -> Result<FuncType, ReadFault> {
        expect_byte(cursor, 0x60)?;
        func_type_after(alloc, cursor)
    }
}

/// A function type whose first byte was passed over.
fn func_type_after(alloc: Global, cursor: &mut Cursor<'_>) -> Result<FuncType, ReadFault>
    requires { length cursor.old.left < 2 ^ 32 }
    ensures { Answers (λ s. SpellsFuncType (0x60 ∷ s)) cursor.old cursor.new result }
{
    let params = read_vector::<ValType>(alloc, cursor)?;
    let results = read_vector::<ValType>(alloc, cursor)?;
    Ok(FuncType { params, results })
}

/// The limits at the cursor, which are passed over (Core 1.0, 5.3.4).
pub fn limits_at(cursor: &mut Cursor<'_>) -> Result<Bounds, ReadFault>
    ensures { Answers SpellsLimits cursor.old cursor.new result }
{
    match byte_at(cursor)? {
        0x00 => least_after(cursor),
        0x01 => both_after(cursor),
        _ => Err(ReadFault::Malformed),
    }
}

fn least_after(cursor: &mut Cursor<'_>) -> Result<Bounds, ReadFault>
    ensures { Answers (λ s. SpellsLimits (0x00 ∷ s)) cursor.old cursor.new result }
{
    let min = u32_at(cursor)?;
    Ok(Bounds { min, max: None })
}

fn both_after(cursor: &mut Cursor<'_>) -> Result<Bounds, ReadFault>
    ensures { Answers (λ s. SpellsLimits (0x01 ∷ s)) cursor.old cursor.new result }
{
    let min = u32_at(cursor)?;
    let max = u32_at(cursor)?;
    Ok(Bounds {
        min,
        max: Some(max),
    })
}

/// The table type at the cursor, which is passed over (Core 1.0, 5.3.6).
pub fn table_type_at(cursor: &mut Cursor<'_>) -> Result<Bounds, ReadFault>
    ensures { Answers SpellsTableType cursor.old cursor.new result }
{
    expect_byte(cursor, 0x70)?;
    limits_at(cursor)
}

impl Part for GlobalType {
    ghost use Rattle.wasm_form.specs.Types.{SpellsGlobalType};

    ghost spells = { SpellsGlobalType };

    fn read(alloc: Global, cursor: &mut Cursor<'_>) -> Result<GlobalType, ReadFault> {
        let ty = ValType::read(alloc, cursor)?;
        let mutable = mutability_at(cursor)?;
        Ok(GlobalType { ty, mutable })
    }
}

fn mutability_at(cursor: &mut Cursor<'_>) -> Result<bool, ReadFault>
    ensures { Answers SpellsMutability cursor.old cursor.new result }
{
    match byte_at(cursor)? {
        0x00 => Ok(false),
        0x01 => Ok(true),
        _ => Err(ReadFault::Malformed),
    }
}
