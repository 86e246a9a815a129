//! Vectors of table types and of memory types, both of which are limits.

ghost use Rattle.wasm_form.specs.Sections.{SpellsTables, SpellsMemories};
ghost use Rattle.body_reader.specs.Reading.{Answers};
ghost use Rattle.std.specs.Prelude.{◌≡◌, ◌<◌, ◌^◌, IfOk, length, map};

use body_reader::{Part, ReadFault, limits_at, read_vector, table_type_at};
use leb_read::Cursor;
use memory_refusal::NoMemory;
use std::alloc::Global;
use wasm_form::{Bounds, Limits};

/// A table's type.
#[derive(Clone, Copy, Debug)]
pub struct TableType {
    pub bounds: Bounds,
}

impl Part for TableType {
    ghost use Rattle.module_reader.specs.Limits.{SpellsTable};

    ghost spells = { SpellsTable };

    fn read(_alloc: Global, cursor: &mut Cursor<'_>) -> Result<TableType, ReadFault> {
        let bounds = table_type_at(cursor)?;
        Ok(TableType { bounds })
    }
}

/// A memory's type.
#[derive(Clone, Copy, Debug)]
pub struct MemoryType {
    pub bounds: Bounds,
}

impl Part for MemoryType {
    ghost use Rattle.module_reader.specs.Limits.{SpellsMemory};

    ghost spells = { SpellsMemory };

    fn read(_alloc: Global, cursor: &mut Cursor<'_>) -> Result<MemoryType, ReadFault> {
        let bounds = limits_at(cursor)?;
        Ok(MemoryType { bounds })
    }
}

/// The table types at the cursor, which are passed over (Core 1.0, 5.5.7).
pub fn tables_at(alloc: Global, cursor: &mut Cursor<'_>) -> Result<Limits, ReadFault>
    requires { length cursor.old.left < 2 ^ 32 }
    ensures { Answers SpellsTables cursor.old cursor.new result }
{
    let types = read_vector::<TableType>(alloc, cursor)?;
    let bounds = bounds_of_tables(alloc, types.as_slice())?;
    Ok(bounds)
}

/// The memory types at the cursor, which are passed over (Core 1.0, 5.5.8).
pub fn memories_at(alloc: Global, cursor: &mut Cursor<'_>) -> Result<Limits, ReadFault>
    requires { length cursor.old.left < 2 ^ 32 }
    ensures { Answers SpellsMemories cursor.old cursor.new result }
{
    let types = read_vector::<MemoryType>(alloc, cursor)?;
    let bounds = bounds_of_memories(alloc, types.as_slice())?;
    Ok(bounds)
}

fn bounds_of_tables(alloc: Global, types: &[TableType]) -> Result<Limits, NoMemory>
    ensures { IfOk result (λ bounds. bounds ≡ map (λ ty. ty.bounds) types.now) }
{
    let mut bounds = Limits::new(alloc);
    for ty in types {
        bounds.push(ty.bounds)?;
    }
    Ok(bounds)
}

fn bounds_of_memories(alloc: Global, types: &[MemoryType]) -> Result<Limits, NoMemory>
    ensures { IfOk result (λ bounds. bounds ≡ map (λ ty. ty.bounds) types.now) }
{
    let mut bounds = Limits::new(alloc);
    for ty in types {
        bounds.push(ty.bounds)?;
    }
    Ok(bounds)
}
