//! Types (Core 1.0, 5.3).

ghost use Rattle.std.specs.Prelude.{◌≡◌, ◌+◌, [], ◌∷◌, Some, None, OnOk, sum_by};
ghost use Rattle.wasm_form.specs.Values.{SpellsItems};
ghost use Rattle.wasm_form.specs.Types.{SpellsValType, SpellsBlockType, SpellsMutability};
ghost use Rattle.wasm_form.specs.Types.{SpellsMinMax, SpellsLimits, SpellsTableType, SpellsGlobalType};
ghost use Rattle.wasm_form.specs.Least.{least_unsigned, least_max, least_limits, least_table_type};
ghost use Rattle.module_writer.specs.Writing.{Appends};

use crate::numbers::write_u32;
use crate::part::{Part, write_vector};
use memory_refusal::NoMemory;
use wasm_form::{Bounds, FuncType, GlobalType, LocalRun, ValType};

/// The byte that spells a value type.
fn byte_of(ty: ValType) -> u8
    ensures { SpellsValType (result ∷ []) ty }
{
    match ty {
        ValType::I32 => 0x7F,
        ValType::I64 => 0x7E,
        ValType::F32 => 0x7D,
        ValType::F64 => 0x7C,
    }
}

/// The byte that spells the result of a block, loop or if.
pub fn block_byte_of(outcome: Option<ValType>) -> u8
    ensures { SpellsBlockType (result ∷ []) outcome }
{
    match outcome {
        None => 0x40,
        Some(ty) => byte_of(ty),
    }
}

/// The byte that spells whether a global may be written.
fn mutability_of(mutable: bool) -> u8
    ensures { SpellsMutability (result ∷ []) mutable }
{
    if mutable { 0x01 } else { 0x00 }
}

impl Part for ValType {
    ghost use Rattle.wasm_form.specs.Types.{SpellsValType};

    ghost spells = { SpellsValType };

    fn write(&self, out: &mut Vec<u8>) -> Result<(), NoMemory> {
        out.push(byte_of(*self))?;
        Ok(())
    }
}

impl Part for LocalRun {
    ghost use Rattle.wasm_form.specs.Sections.{SpellsRun};

    ghost spells = { SpellsRun };

    fn write(&self, out: &mut Vec<u8>) -> Result<(), NoMemory> {
        write_u32(self.count, out)?;
        out.push(byte_of(self.ty))?;
        Ok(())
    }
}

impl Part for FuncType {
    ghost use Rattle.wasm_form.specs.Types.{SpellsFuncType};

    ghost spells = { SpellsFuncType };

    fn write(&self, out: &mut Vec<u8>) -> Result<(), NoMemory> {
        out.push(0x60)?;
        write_vector(&self.params, out)?;
        write_vector(&self.results, out)?;
        Ok(())
    }
}

/// Limits, and memory types (Core 1.0, 5.3.4 and 5.3.5).
impl Part for Bounds {
    ghost use Rattle.wasm_form.specs.Types.{SpellsLimits};

    ghost spells = { SpellsLimits };

    fn write(&self, out: &mut Vec<u8>) -> Result<(), NoMemory> {
        write_limits(*self, out)?;
        Ok(())
    }
}

/// A minimum, and a maximum where there is one.
pub fn write_limits(bounds: Bounds, out: &mut Vec<u8>) -> Result<(), NoMemory>
    ensures { OnOk result (Appends SpellsLimits least_limits bounds out.old.items out.new.items) }
{
    match bounds.max {
        None => {
            write_least(bounds.min, out)?;
            Ok(())
        }
        Some(max) => {
            write_both(bounds.min, max, out)?;
            Ok(())
        }
    }
}

fn write_least(min: u32, out: &mut Vec<u8>) -> Result<(), NoMemory>
    ensures { OnOk result (Appends (λ s n. SpellsMinMax s n None)
        (λ n. 1 + (least_unsigned n + least_max None)) min out.old.items out.new.items) }
{
    out.push(0x00)?;
    write_u32(min, out)?;
    Ok(())
}

fn write_both(min: u32, max: u32, out: &mut Vec<u8>) -> Result<(), NoMemory>
    ensures { OnOk result (Appends (λ s n. SpellsMinMax s n (Some max))
        (λ n. 1 + (least_unsigned n + least_max (Some max))) min out.old.items out.new.items) }
{
    out.push(0x01)?;
    write_u32(min, out)?;
    write_u32(max, out)?;
    Ok(())
}

/// A table type (Core 1.0, 5.3.6).
pub fn write_table_type(bounds: Bounds, out: &mut Vec<u8>) -> Result<(), NoMemory>
    ensures { OnOk result (Appends SpellsTableType least_table_type bounds out.old.items out.new.items) }
{
    out.push(0x70)?;
    write_limits(bounds, out)?;
    Ok(())
}

/// Table types, one after another.
pub fn write_table_types(tables: &[Bounds], out: &mut Vec<u8>) -> Result<(), NoMemory>
    ensures { OnOk result (Appends (SpellsItems SpellsTableType) (sum_by least_table_type) tables.now
        out.old.items out.new.items) }
{
    for bounds in tables {
        write_table_type(*bounds, out)?;
    }
    Ok(())
}

/// A global type (Core 1.0, 5.3.7).
pub fn write_global_type(ty: GlobalType, out: &mut Vec<u8>) -> Result<(), NoMemory>
    ensures { OnOk result (Appends SpellsGlobalType (λ _. 2) ty out.old.items out.new.items) }
{
    out.push(byte_of(ty.ty))?;
    out.push(mutability_of(ty.mutable))?;
    Ok(())
}
