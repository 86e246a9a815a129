//! The sections of a module, one after another.

ghost use Rattle.std.specs.Prelude.{◌≡◌, ◌<◌, ◌^◌, [], None, MatchResult, length};
ghost use Rattle.wasm_form.specs.Modules.{SpellsSection};
ghost use Rattle.wasm_form.specs.Sections.{SpellsCustom};
ghost use Rattle.wasm_form.specs.declared.parts.Parts.{Parts};
ghost use Rattle.body_reader.specs.Reading.{AnswersWhole, ReadsOnly, NoFront};
ghost use Rattle.module_reader.specs.Kinds.{IsEmpty};
ghost use Rattle.module_reader.specs.Order.{section, Follows, MayNotFollow, SpellsSections};

use crate::kind::Kind;
use crate::section::read_section;
use body_reader::{ReadFault, byte_at, bytes_at};
use leb_read::{Cursor, one_spelling};
use std::alloc::Global;
use wasm_form::{
    Bodies, Elements, Exports, FuncTypes, Globals, Imports, Indexes, Limits, Parts, Segments,
};

/// A section whose contents stay where they are.
#[derive(Clone, Copy, Debug)]
pub struct SectionBytes<'a> {
    pub id: u8,
    pub contents: &'a [u8],
}

/// The parts that the sections which are the whole of these bytes say.
pub fn read_sections(alloc: Global, bytes: &[u8]) -> Result<Parts, ReadFault>
    ensures { AnswersWhole SpellsSections bytes.now result }
{
    one_spelling();
    let mut cursor = Cursor::new(bytes);
    let mut parts = no_parts(alloc);
    let mut last = 0;
    while cursor.left() > 0 {
        let SectionBytes { id, contents } = section_at(&mut cursor)?;
        last = put_section(alloc, last, id, contents, &mut parts)?;
    }
    Ok(parts)
}

/// The parts of a module without sections.
fn no_parts(alloc: Global) -> Parts
    ensures { IsEmpty result }
{
    Parts {
        types: FuncTypes::new(alloc),
        imports: Imports::new(alloc),
        functions: Indexes::new(alloc),
        tables: Limits::new(alloc),
        memories: Limits::new(alloc),
        globals: Globals::new(alloc),
        exports: Exports::new(alloc),
        start: None,
        elements: Elements::new(alloc),
        segments: Segments::new(alloc),
        bodies: Bodies::new(alloc),
    }
}

/// The section at the cursor, which is passed over (Core 1.0, 5.5.2).
fn section_at<'a>(cursor: &mut Cursor<'a>) -> Result<SectionBytes<'a>, ReadFault>
    ensures { MatchResult result
        (λ s. ReadsOnly SpellsSection cursor.old cursor.new (section s.id s.contents.now)
        × (length s.contents.now < 2 ^ 32))
        (λ e. e ≡ ReadFault.Malformed → NoFront SpellsSection cursor.old.left) }
{
    let id = byte_at(cursor)?;
    let contents = bytes_at(cursor)?;
    Ok(SectionBytes { id, contents })
}

/// Puts what the section says into the parts, where it may stand after sections whose last id, of
/// those that are not custom, is `last`; answers the last id then.
fn put_section(
    alloc: Global,
    last: u8,
    id: u8,
    contents: &[u8],
    parts: &mut Parts,
) -> Result<u8, ReadFault>
    requires { length contents.now < 2 ^ 32 }
    ensures { MatchResult result
        (λ next. Follows last id contents.now next parts.old parts.new)
        (λ e. e ≡ ReadFault.Malformed → MayNotFollow last id contents.now) }
{
    if id == 0 {
        check_custom(contents)?;
        return Ok(last);
    }
    let Some(kind) = Kind::of(id) else {
        return Err(ReadFault::Malformed);
    };
    if id <= last {
        return Err(ReadFault::Malformed);
    }
    read_section(alloc, kind, contents, parts)?;
    Ok(id)
}

/// Whether these are the contents of a custom section (Core 1.0, 5.5.3).
fn check_custom(contents: &[u8]) -> Result<(), ReadFault>
    ensures { MatchResult result (λ _. SpellsCustom contents.now)
        (λ e. e ≡ ReadFault.Malformed → SpellsCustom contents.now → ⊥) }
{
    let mut cursor = Cursor::new(contents);
    let name = bytes_at(&mut cursor)?;
    match str::from_utf8(name) {
        Ok(_) => Ok(()),
        Err(_) => Err(ReadFault::Malformed),
    }
}
