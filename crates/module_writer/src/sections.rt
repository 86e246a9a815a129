//! The sections of a module, those that hold something, by rising id (Core 1.0, 5.5).

ghost use Rattle.std.specs.Prelude.{◌≡◌, ◌^◌, ◌<◌, Some, OnOk};
ghost use Rattle.wasm_form.specs.Types.{SpellsTableType};
ghost use Rattle.wasm_form.specs.Spellable.{HasSizes};
ghost use Rattle.wasm_form.specs.Least.{least_table_type, least_vector, least_section, least_start};
ghost use Rattle.module_writer.specs.Writing.{HasSpelling, Appends};
ghost use Rattle.module_writer.specs.SectionParts.{SpellsPart, SpellsStartPart};
ghost use Rattle.module_writer.specs.SectionParts.{SpellsEarly, SpellsLate, least_early, least_late};

use crate::lengths::{number_length, tables_length};
use crate::numbers::write_u32;
use crate::part::{Part, write_vector};
use crate::types::write_table_types;
use memory_refusal::NoMemory;
use wasm_form::{Limits, Parts, Vector, vector_length};

/// The section of these items.
fn write_part<T: Part>(id: u8, items: &Vector<T>, out: &mut Vec<u8>) -> Result<(), NoMemory>
    requires small { least_vector T.least items.now < 2 ^ 32 }
    requires spelled { HasSpelling (SpellsPart id T.spells) items.now }
    ensures { OnOk result (Appends (SpellsPart id T.spells) (least_section T.least) items.now
        out.old.items out.new.items) }
{
    if items.is_empty() {
        return Ok(());
    }
    let Some(size) = vector_length(items) else {
        unreachable!();
    };
    out.push(id)?;
    write_u32(size, out)?;
    write_vector(items, out)?;
    Ok(())
}

/// The table section.
fn write_tables(tables: &Limits, out: &mut Vec<u8>) -> Result<(), NoMemory>
    requires small { least_vector least_table_type tables.now < 2 ^ 32 }
    requires spelled { HasSpelling (SpellsPart 4 SpellsTableType) tables.now }
    ensures { OnOk result (Appends (SpellsPart 4 SpellsTableType) (least_section least_table_type) tables.now
        out.old.items out.new.items) }
{
    if tables.is_empty() {
        return Ok(());
    }
    let Some(size) = tables_length(tables) else {
        unreachable!();
    };
    out.push(4)?;
    write_u32(size, out)?;
    write_u32(tables.len() as u32, out)?;
    write_table_types(tables.as_slice(), out)?;
    Ok(())
}

/// The start section.
fn write_start(start: Option<u32>, out: &mut Vec<u8>) -> Result<(), NoMemory>
    ensures { OnOk result (Appends SpellsStartPart least_start start out.old.items out.new.items) }
{
    match start {
        None => Ok(()),
        Some(function) => {
            write_function(function, out)?;
            Ok(())
        }
    }
}

fn write_function(function: u32, out: &mut Vec<u8>) -> Result<(), NoMemory>
    ensures { OnOk result (Appends (λ s n. SpellsStartPart s (Some n)) (λ n. least_start (Some n)) function
        out.old.items out.new.items) }
{
    out.push(8)?;
    write_u32(number_length(function), out)?;
    write_u32(function, out)?;
    Ok(())
}

/// The sections up to the exports.
pub fn write_early(parts: &Parts, out: &mut Vec<u8>) -> Result<(), NoMemory>
    requires sizes { HasSizes parts.now }
    requires spelled { HasSpelling SpellsEarly parts.now }
    ensures { OnOk result (Appends SpellsEarly least_early parts.now out.old.items out.new.items) }
{
    write_part(1, &parts.types, out)?;
    write_part(2, &parts.imports, out)?;
    write_part(3, &parts.functions, out)?;
    write_tables(&parts.tables, out)?;
    write_part(5, &parts.memories, out)?;
    write_part(6, &parts.globals, out)?;
    Ok(())
}

/// The others.
pub fn write_late(parts: &Parts, out: &mut Vec<u8>) -> Result<(), NoMemory>
    requires sizes { HasSizes parts.now }
    requires spelled { HasSpelling SpellsLate parts.now }
    ensures { OnOk result (Appends SpellsLate least_late parts.now out.old.items out.new.items) }
{
    write_part(7, &parts.exports, out)?;
    write_start(parts.start, out)?;
    write_part(9, &parts.elements, out)?;
    write_part(10, &parts.bodies, out)?;
    write_part(11, &parts.segments, out)?;
    Ok(())
}
