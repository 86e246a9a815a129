//! Numbers and single bytes, whose every fault is `Malformed`.

ghost use Rattle.std.specs.Prelude.{◌≡◌, ◌∷◌, [], ◌<◌, IfOk, length};
ghost use Rattle.leb_read.specs.Numbers.{SpellsSigned};
ghost use Rattle.leb_read.specs.Place.{Passes};
ghost use Rattle.wasm_form.specs.Values.{SpellsU32};
ghost use Rattle.body_reader.specs.Reading.{Answers};

use crate::ReadFault;
use leb_read::{Cursor, one_spelling};

/// The unsigned number of 32 bits at the cursor, which is passed over (Core 1.0, 5.2.2).
pub fn u32_at(cursor: &mut Cursor<'_>) -> Result<u32, ReadFault>
    ensures { Answers SpellsU32 cursor.old cursor.new result }
{
    one_spelling();
    match cursor.u32() {
        Ok(value) => Ok(value),
        Err(_) => Err(ReadFault::Malformed),
    }
}

pub fn s32_at(cursor: &mut Cursor<'_>) -> Result<i32, ReadFault>
    ensures { Answers (SpellsSigned 32) cursor.old cursor.new result }
{
    one_spelling();
    match cursor.s32() {
        Ok(value) => Ok(value),
        Err(_) => Err(ReadFault::Malformed),
    }
}

pub fn s64_at(cursor: &mut Cursor<'_>) -> Result<i64, ReadFault>
    ensures { Answers (SpellsSigned 64) cursor.old cursor.new result }
{
    one_spelling();
    match cursor.s64() {
        Ok(value) => Ok(value),
        Err(_) => Err(ReadFault::Malformed),
    }
}

/// The byte at the cursor, which is passed over.
pub fn byte_at(cursor: &mut Cursor<'_>) -> Result<u8, ReadFault>
    ensures { Answers (λ s byte. s ≡ byte ∷ []) cursor.old cursor.new result }
{
    match cursor.byte() {
        Ok(byte) => Ok(byte),
        Err(_) => Err(ReadFault::Malformed),
    }
}

/// This very byte.
pub fn expect_byte(cursor: &mut Cursor<'_>, byte: u8) -> Result<(), ReadFault>
    ensures { Answers (λ s _. s ≡ byte ∷ []) cursor.old cursor.new result }
{
    if byte_at(cursor)? == byte {
        Ok(())
    } else {
        Err(ReadFault::Malformed)
    }
}

/// The next `n` bytes.
pub fn take_at<'a>(cursor: &mut Cursor<'a>, n: usize) -> Result<&'a [u8], ReadFault>
    ensures ok { IfOk result (λ bytes. (length bytes.now ≡ n)
        × Passes cursor.old cursor.new bytes.now) }
    ensures malformed { result ≡ Err ReadFault.Malformed → length cursor.old.left < n }
{
    match cursor.take(n) {
        Ok(bytes) => Ok(bytes),
        Err(_) => Err(ReadFault::Malformed),
    }
}
