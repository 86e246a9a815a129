//! What stands in the sections of imports, globals, exports, elements and data.

ghost use Rattle.std.specs.Prelude.{◌≡◌, ◌∷◌, ◌<◌, ◌^◌, length};
ghost use Rattle.wasm_form.specs.Sections.{SpellsImported, SpellsExportKind};
ghost use Rattle.body_reader.specs.Reading.{Answers};

use crate::external_types::{limits_at, table_type_at};
use crate::names::{name_at, octets_at};
use crate::numbers::{byte_at, u32_at};
use crate::{Part, ReadFault, expr_at, read_vector};
use leb_read::Cursor;
use std::alloc::Global;
use wasm_form::{Element, Export, ExportKind, GlobalDef, GlobalType, Import, Imported, Segment};

impl Part for Import {
    ghost use Rattle.wasm_form.specs.Sections.{SpellsImport};

    ghost spells = { SpellsImport };

    fn read(alloc: Global, cursor: &mut Cursor<'_>) -> Result<Import, ReadFault> {
        let module = name_at(alloc, cursor)?;
        let name = name_at(alloc, cursor)?;
        let what = imported_at(alloc, cursor)?;
        Ok(Import { module, name, what })
    }
}

fn imported_at(alloc: Global, cursor: &mut Cursor<'_>) -> Result<Imported, ReadFault>
    requires { length cursor.old.left < 2 ^ 32 }
    ensures { Answers SpellsImported cursor.old cursor.new result }
{
    let kind = byte_at(cursor)?;
    imported_after(alloc, cursor, kind)
}

fn imported_after(alloc: Global, cursor: &mut Cursor<'_>, kind: u8) -> Result<Imported, ReadFault>
    requires { length cursor.old.left < 2 ^ 32 }
    ensures { Answers (λ s. SpellsImported (kind ∷ s)) cursor.old cursor.new result }
{
    match kind {
        0x00 => Ok(Imported::Function(u32_at(cursor)?)),
        0x01 => Ok(Imported::Table(table_type_at(cursor)?)),
        0x02 => Ok(Imported::Memory(limits_at(cursor)?)),
        0x03 => Ok(Imported::Global(GlobalType::read(alloc, cursor)?)),
        _ => Err(ReadFault::Malformed),
    }
}

impl Part for GlobalDef {
    ghost use Rattle.wasm_form.specs.Sections.{SpellsGlobal};

    ghost spells = { SpellsGlobal };

    fn read(alloc: Global, cursor: &mut Cursor<'_>) -> Result<GlobalDef, ReadFault> {
        let ty = GlobalType::read(alloc, cursor)?;
        let init = expr_at(alloc, cursor)?;
        Ok(GlobalDef { ty, init })
    }
}

impl Part for Export {
    ghost use Rattle.wasm_form.specs.Sections.{SpellsExport};

    ghost spells = { SpellsExport };

    fn read(alloc: Global, cursor: &mut Cursor<'_>) -> Result<Export, ReadFault> {
        let name = name_at(alloc, cursor)?;
        let kind = export_kind_at(cursor)?;
        let index = u32_at(cursor)?;
        Ok(Export { name, kind, index })
    }
}

fn export_kind_at(cursor: &mut Cursor<'_>) -> Result<ExportKind, ReadFault>
    ensures { Answers SpellsExportKind cursor.old cursor.new result }
{
    match byte_at(cursor)? {
        0x00 => Ok(ExportKind::Function),
        0x01 => Ok(ExportKind::Table),
        0x02 => Ok(ExportKind::Memory),
        0x03 => Ok(ExportKind::Global),
        _ => Err(ReadFault::Malformed),
    }
}

impl Part for Element {
    ghost use Rattle.wasm_form.specs.Sections.{SpellsElement};

    ghost spells = { SpellsElement };

    fn read(alloc: Global, cursor: &mut Cursor<'_>) -> Result<Element, ReadFault> {
        let table = u32_at(cursor)?;
        let offset = expr_at(alloc, cursor)?;
        let functions = read_vector::<u32>(alloc, cursor)?;
        Ok(Element {
            table,
            offset,
            functions,
        })
    }
}

impl Part for Segment {
    ghost use Rattle.wasm_form.specs.Sections.{SpellsSegment};

    ghost spells = { SpellsSegment };

    fn read(alloc: Global, cursor: &mut Cursor<'_>) -> Result<Segment, ReadFault> {
        let memory = u32_at(cursor)?;
        let offset = expr_at(alloc, cursor)?;
        let bytes = octets_at(alloc, cursor)?;
        Ok(Segment {
            memory,
            offset,
            bytes,
        })
    }
}
