//! What stands in the sections (Core 1.0, 5.5).

ghost use Rattle.std.specs.Prelude.{◌≡◌, [], ◌∷◌, OnOk};
ghost use Rattle.wasm_form.specs.Sections.{SpellsImported, SpellsExportKind, SpellsFunction};
ghost use Rattle.wasm_form.specs.Least.{least_imported, least_function};
ghost use Rattle.module_writer.specs.Writing.{HasSpelling, Appends};

use crate::lengths::function_length;
use crate::numbers::{write_bytes, write_u32};
use crate::part::{Part, write_vector};
use crate::types::{write_global_type, write_limits, write_table_type};
use memory_refusal::NoMemory;
use wasm_form::{Body, Element, Export, ExportKind, GlobalDef, Import, Imported, Name, Segment};

impl Part for Name {
    ghost use Rattle.wasm_form.specs.Values.{SpellsName};

    ghost spells = { SpellsName };

    fn write(&self, out: &mut Vec<u8>) -> Result<(), NoMemory> {
        write_bytes(self.as_str().as_bytes(), out)?;
        Ok(())
    }
}

impl Part for Import {
    ghost use Rattle.wasm_form.specs.Sections.{SpellsImport};

    ghost spells = { SpellsImport };

    fn write(&self, out: &mut Vec<u8>) -> Result<(), NoMemory> {
        self.module.write(out)?;
        self.name.write(out)?;
        write_imported(self.what, out)?;
        Ok(())
    }
}

fn write_imported(what: Imported, out: &mut Vec<u8>) -> Result<(), NoMemory>
    ensures { OnOk result (Appends SpellsImported least_imported what out.old.items out.new.items) }
{
    match what {
        Imported::Function(ty) => {
            out.push(0x00)?;
            write_u32(ty, out)?;
            Ok(())
        }
        Imported::Table(bounds) => {
            out.push(0x01)?;
            write_table_type(bounds, out)?;
            Ok(())
        }
        Imported::Memory(bounds) => {
            out.push(0x02)?;
            write_limits(bounds, out)?;
            Ok(())
        }
        Imported::Global(ty) => {
            out.push(0x03)?;
            write_global_type(ty, out)?;
            Ok(())
        }
    }
}

impl Part for GlobalDef {
    ghost use Rattle.wasm_form.specs.Sections.{SpellsGlobal};

    ghost spells = { SpellsGlobal };

    fn write(&self, out: &mut Vec<u8>) -> Result<(), NoMemory> {
        write_global_type(self.ty, out)?;
        self.init.write(out)?;
        Ok(())
    }
}

/// The byte that spells what an export's index counts.
fn kind_byte_of(kind: ExportKind) -> u8
    ensures { SpellsExportKind (result ∷ []) kind }
{
    match kind {
        ExportKind::Function => 0x00,
        ExportKind::Table => 0x01,
        ExportKind::Memory => 0x02,
        ExportKind::Global => 0x03,
    }
}

impl Part for Export {
    ghost use Rattle.wasm_form.specs.Sections.{SpellsExport};

    ghost spells = { SpellsExport };

    fn write(&self, out: &mut Vec<u8>) -> Result<(), NoMemory> {
        self.name.write(out)?;
        out.push(kind_byte_of(self.kind))?;
        write_u32(self.index, out)?;
        Ok(())
    }
}

impl Part for Element {
    ghost use Rattle.wasm_form.specs.Sections.{SpellsElement};

    ghost spells = { SpellsElement };

    fn write(&self, out: &mut Vec<u8>) -> Result<(), NoMemory> {
        write_u32(self.table, out)?;
        self.offset.write(out)?;
        write_vector(&self.functions, out)?;
        Ok(())
    }
}

/// A function's locals and its expression.
fn write_function(body: &Body, out: &mut Vec<u8>) -> Result<(), NoMemory>
    requires { HasSpelling SpellsFunction body.now }
    ensures { OnOk result (Appends SpellsFunction least_function body.now out.old.items out.new.items) }
{
    write_vector(&body.locals, out)?;
    body.expr.write(out)?;
    Ok(())
}

/// A body, with its size before it (Core 1.0, 5.5.13).
impl Part for Body {
    ghost use Rattle.wasm_form.specs.Sections.{SpellsBody};

    ghost spells = { SpellsBody };

    fn write(&self, out: &mut Vec<u8>) -> Result<(), NoMemory> {
        let Some(size) = function_length(self) else {
            unreachable!();
        };
        write_u32(size, out)?;
        write_function(self, out)?;
        Ok(())
    }
}

impl Part for Segment {
    ghost use Rattle.wasm_form.specs.Sections.{SpellsSegment};

    ghost spells = { SpellsSegment };

    fn write(&self, out: &mut Vec<u8>) -> Result<(), NoMemory> {
        write_u32(self.memory, out)?;
        self.offset.write(out)?;
        write_bytes(self.bytes.as_slice(), out)?;
        Ok(())
    }
}
