//! Names and strings of bytes.

ghost use Rattle.wasm_form.specs.Values.{SpellsBytes, SpellsName};
ghost use Rattle.body_reader.specs.Reading.{Answers};
ghost use Rattle.std.specs.Prelude.{MatchResult, ◌≡◌};
ghost use Rattle.body_reader.specs.Reading.{ReadsOnly, NoFront};

use crate::ReadFault;
use crate::numbers::{take_at, u32_at};
use leb_read::Cursor;
use std::alloc::Global;
use wasm_form::{Name, Octets};

/// The name at the cursor, which is passed over (Core 1.0, 5.2.4).
pub fn name_at(alloc: Global, cursor: &mut Cursor<'_>) -> Result<Name, ReadFault>
    ensures { Answers SpellsName cursor.old cursor.new result }
{
    let bytes = bytes_at(cursor)?;
    match str::from_utf8(bytes) {
        Ok(text) => Ok(Name::new(String::from_str(alloc, text)?)),
        Err(_) => Err(ReadFault::Malformed),
    }
}

/// The bytes at the cursor, with their number before them, which are passed over.
pub fn octets_at(alloc: Global, cursor: &mut Cursor<'_>) -> Result<Octets, ReadFault>
    ensures { Answers SpellsBytes cursor.old cursor.new result }
{
    let bytes = bytes_at(cursor)?;
    Ok(Octets::from_vec(bytes.to_vec(alloc)?))
}

/// Bytes at the cursor, with their number before them, which are passed over; they stay where they
/// are (Core 1.0, 5.2.1).
pub fn bytes_at<'a>(cursor: &mut Cursor<'a>) -> Result<&'a [u8], ReadFault>
    ensures { MatchResult result (λ bytes. ReadsOnly SpellsBytes cursor.old cursor.new bytes.now)
        (λ e. e ≡ ReadFault.Malformed → NoFront SpellsBytes cursor.old.left) }
{
    let count = u32_at(cursor)?;
    take_at(cursor, count as usize)
}
