//! The contents of one section.

ghost use Rattle.std.specs.Prelude.{◌≡◌, ◌<◌, ◌^◌, MatchResult, length};
ghost use Rattle.wasm_form.specs.Sections.{SpellsStart, SpellsTables, SpellsMemories, SpellsCustom};
ghost use Rattle.wasm_form.specs.Values.{SpellsVector};
ghost use Rattle.wasm_form.specs.declared.parts.Parts.{Parts};
ghost use Rattle.body_reader.specs.Reading.{AnswersWhole};
ghost use Rattle.module_reader.specs.Kinds.{Says, Puts};

use crate::bounds::{memories_at, tables_at};
use crate::kind::Kind;
use body_reader::{Part, ReadFault, read_vector, u32_at};
use leb_read::Cursor;
use std::alloc::Global;
use wasm_form::{
    Body, Element, Export, FuncType, GlobalDef, Import, Limits, Parts, Segment, Vector,
};

/// Puts what the contents of a section of that kind say into the parts.
pub fn read_section(
    alloc: Global,
    kind: Kind,
    contents: &[u8],
    parts: &mut Parts,
) -> Result<(), ReadFault>
    requires { length contents.now < 2 ^ 32 }
    ensures { MatchResult result (λ _. Puts kind contents.now parts.old parts.new)
        (λ e. e ≡ ReadFault.Malformed → (p : Parts) → Says kind contents.now p → ⊥) }
{
    match kind {
        Kind::Types => parts.types = whole::<FuncType>(alloc, contents)?,
        Kind::Imports => parts.imports = whole::<Import>(alloc, contents)?,
        Kind::Functions => parts.functions = whole::<u32>(alloc, contents)?,
        Kind::Tables => parts.tables = whole_tables(alloc, contents)?,
        Kind::Memories => parts.memories = whole_memories(alloc, contents)?,
        Kind::Globals => parts.globals = whole::<GlobalDef>(alloc, contents)?,
        Kind::Exports => parts.exports = whole::<Export>(alloc, contents)?,
        Kind::Start => parts.start = whole_start(contents)?,
        Kind::Elements => parts.elements = whole::<Element>(alloc, contents)?,
        Kind::Bodies => parts.bodies = whole::<Body>(alloc, contents)?,
        Kind::Segments => parts.segments = whole::<Segment>(alloc, contents)?,
    }
    Ok(())
}

/// The vector that is the whole of these bytes.
fn whole<T: Part + Drop>(alloc: Global, bytes: &[u8]) -> Result<Vector<T>, ReadFault>
    requires { length bytes.now < 2 ^ 32 }
    ensures { AnswersWhole (SpellsVector T.spells) bytes.now result }
{
    let mut cursor = Cursor::new(bytes);
    let items = read_vector::<T>(alloc, &mut cursor)?;
    if cursor.left() > 0 {
        return Err(ReadFault::Malformed);
    }
    Ok(items)
}

fn whole_tables(alloc: Global, bytes: &[u8]) -> Result<Limits, ReadFault>
    requires { length bytes.now < 2 ^ 32 }
    ensures { AnswersWhole SpellsTables bytes.now result }
{
    let mut cursor = Cursor::new(bytes);
    let tables = tables_at(alloc, &mut cursor)?;
    if cursor.left() > 0 {
        return Err(ReadFault::Malformed);
    }
    Ok(tables)
}

fn whole_memories(alloc: Global, bytes: &[u8]) -> Result<Limits, ReadFault>
    requires { length bytes.now < 2 ^ 32 }
    ensures { AnswersWhole SpellsMemories bytes.now result }
{
    let mut cursor = Cursor::new(bytes);
    let memories = memories_at(alloc, &mut cursor)?;
    if cursor.left() > 0 {
        return Err(ReadFault::Malformed);
    }
    Ok(memories)
}

fn whole_start(bytes: &[u8]) -> Result<Option<u32>, ReadFault>
    ensures { AnswersWhole SpellsStart bytes.now result }
{
    let mut cursor = Cursor::new(bytes);
    let function = u32_at(&mut cursor)?;
    if cursor.left() > 0 {
        return Err(ReadFault::Malformed);
    }
    Ok(Some(function))
}
