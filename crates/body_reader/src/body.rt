//! Bodies of functions.

ghost use Rattle.std.specs.Prelude.{◌≡◌, ◌<◌, ◌^◌, OnErr, length};
ghost use Rattle.wasm_form.specs.Sections.{SpellsFunction, SpellsBody};
ghost use Rattle.body_reader.specs.Reading.{Answers, AnswersWhole};

use crate::numbers::{take_at, u32_at};
use crate::{Part, ReadFault, expr_at, read_vector};
use leb_read::Cursor;
use std::alloc::Global;
use wasm_form::{Body, LocalRun, are_few};

/// The body at the cursor, with its size before it (Core 1.0, 5.5.13), which is passed over.
/// `Malformed` where no front of the bytes left, of the size that it names, is a body; `NoMemory`
/// where the machine has no memory. A refusal leaves the cursor where it was.
pub fn read_body(alloc: Global, cursor: &mut Cursor<'_>) -> Result<Body, ReadFault>
    ensures answers { Answers SpellsBody cursor.old cursor.new result }
    ensures err { OnErr result (cursor.new ≡ cursor.old) }
{
    let mut ahead = cursor.again();
    let body = body_at(alloc, &mut ahead)?;
    *cursor = ahead;
    Ok(body)
}

impl Part for Body {
    ghost use Rattle.wasm_form.specs.Sections.{SpellsBody};

    ghost spells = { SpellsBody };

    fn read(alloc: Global, cursor: &mut Cursor<'_>) -> Result<Body, ReadFault> {
        read_body(alloc, cursor)
    }
}

fn body_at(alloc: Global, cursor: &mut Cursor<'_>) -> Result<Body, ReadFault>
    ensures { Answers SpellsBody cursor.old cursor.new result }
{
    let size = u32_at(cursor)?;
    let contents = take_at(cursor, size as usize)?;
    function_of(alloc, contents)
}

/// The locals and the expression that these bytes are.
fn function_of(alloc: Global, bytes: &[u8]) -> Result<Body, ReadFault>
    requires { length bytes.now < 2 ^ 32 }
    ensures { AnswersWhole SpellsFunction bytes.now result }
{
    let mut cursor = Cursor::new(bytes);
    let body = function_at(alloc, &mut cursor)?;
    if cursor.left() > 0 {
        return Err(ReadFault::Malformed);
    }
    Ok(body)
}

fn function_at(alloc: Global, cursor: &mut Cursor<'_>) -> Result<Body, ReadFault>
    requires { length cursor.old.left < 2 ^ 32 }
    ensures { Answers SpellsFunction cursor.old cursor.new result }
{
    let locals = read_vector::<LocalRun>(alloc, cursor)?;
    if !are_few(locals.as_slice()) {
        return Err(ReadFault::Malformed);
    }
    let expr = expr_at(alloc, cursor)?;
    Ok(Body { locals, expr })
}
