//! How many bytes the bodies, sections and the whole of a module take.

ghost use Rattle.std.specs.Prelude.{◌≡◌, ◌+◌, ⊤};
ghost use Rattle.wasm_form.specs.Lengths.{IsLength};
ghost use Rattle.wasm_form.specs.Least.{least_unsigned, least_function, least_table_type};
ghost use Rattle.wasm_form.specs.Least.{least_vector, least_sized};
ghost use Rattle.wasm_form.specs.Least.{least_section, least_start, least_module};
ghost use Rattle.module_writer.specs.SectionParts.{least_early, least_late};

use wasm_form::{Body, LeastLength, Limits, Parts, Vector, vector_length};

/// Of a body without its size.
pub fn function_length(body: &Body) -> Option<u32>
    ensures { IsLength (least_function body.now) ⊤ result }
{
    let locals = vector_length(&body.locals)?;
    let expr = body.expr.least_length()?;
    locals.checked_add(expr)
}

/// Of table types, with their number before them.
pub fn tables_length(tables: &Limits) -> Option<u32>
    ensures { IsLength (least_vector least_table_type tables.now) ⊤ result }
{
    let limits = vector_length(tables)?;
    together(limits, tables.len() as u32)
}

/// Two lengths together.
fn together(first: u32, second: u32) -> Option<u32>
    ensures { IsLength (first + second) ⊤ result }
{
    first.checked_add(second)
}

/// Of a section whose contents have this length.
fn section_length(contents: u32) -> Option<u32>
    ensures { IsLength (1 + least_sized contents) ⊤ result }
{
    contents
        .checked_add(number_length(contents))?
        .checked_add(1)
}

/// Of a section of these items; it isn't there where it would hold nothing.
fn part_length<T: LeastLength>(items: &Vector<T>) -> Option<u32>
    ensures { IsLength (least_section T.least items.now) ⊤ result }
{
    if items.is_empty() {
        return Some(0);
    }
    section_length(vector_length(items)?)
}

fn tables_part_length(tables: &Limits) -> Option<u32>
    ensures { IsLength (least_section least_table_type tables.now) ⊤ result }
{
    if tables.is_empty() {
        return Some(0);
    }
    section_length(tables_length(tables)?)
}

/// Of an unsigned number.
pub fn number_length(n: u32) -> u32
    ensures { result ≡ least_unsigned n }
{
    match n.least_length() {
        Some(length) => length,
        None => unreachable!(),
    }
}

fn start_length(start: Option<u32>) -> Option<u32>
    ensures { IsLength (least_start start) ⊤ result }
{
    match start {
        None => Some(0),
        Some(function) => section_length(number_length(function)),
    }
}

fn early_length(parts: &Parts) -> Option<u32>
    ensures { IsLength (least_early parts.now) ⊤ result }
{
    let types = part_length(&parts.types)?;
    let imports = part_length(&parts.imports)?;
    let functions = part_length(&parts.functions)?;
    let tables = tables_part_length(&parts.tables)?;
    let memories = part_length(&parts.memories)?;
    let globals = part_length(&parts.globals)?;
    let total = types.checked_add(imports)?.checked_add(functions)?;
    total
        .checked_add(tables)?
        .checked_add(memories)?
        .checked_add(globals)
}

fn late_length(parts: &Parts) -> Option<u32>
    ensures { IsLength (least_late parts.now) ⊤ result }
{
    let exports = part_length(&parts.exports)?;
    let start = start_length(parts.start)?;
    let elements = part_length(&parts.elements)?;
    let bodies = part_length(&parts.bodies)?;
    let segments = part_length(&parts.segments)?;
    let total = exports.checked_add(start)?.checked_add(elements)?;
    total.checked_add(bodies)?.checked_add(segments)
}

/// Of the whole module.
pub fn module_length(parts: &Parts) -> Option<u32>
    ensures { IsLength (least_module parts.now) ⊤ result }
{
    let early = early_length(parts)?;
    let late = late_length(parts)?;
    early.checked_add(late)?.checked_add(8)
}
