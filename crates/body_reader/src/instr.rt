//! One instruction of a flat list.

ghost use Rattle.std.specs.Prelude.{◌≡◌, ◌+◌, ◌<◌, ◌^◌, ◌∷◌, ◌↔◌, None, IsTrue, length};
ghost use Rattle.wasm_form.specs.Instructions.{immediates_of};
ghost use Rattle.body_reader.specs.Items.{SpellsItem, IsOpener, AnswersItem};

use crate::immediates::immediates_at;
use crate::numbers::{byte_at, u32_at};
use crate::types::block_type_at;
use crate::{ReadFault, read_vector};
use leb_read::Cursor;
use std::alloc::Global;
use wasm_form::{Imm, Immediates, Indexes, Instr};

const ELSE: u8 = 0x05;

const END: u8 = 0x0B;

const BR_TABLE: u8 = 0x0E;

/// Whether the code is that of block, loop or if.
pub fn is_opener(code: u8) -> bool
    ensures { IsTrue result ↔ IsOpener code }
{
    code == 0x02 || code == 0x03 || code == 0x04
}

/// The instruction at the cursor, which is passed over. The labels of a `br_table` are pooled at
/// the end of `labels`.
pub fn instr_at(
    alloc: Global,
    cursor: &mut Cursor<'_>,
    labels: &mut Indexes,
) -> Result<Instr, ReadFault>
    requires { length labels.old + length cursor.old.left < 2 ^ 32 }
    ensures { AnswersItem SpellsItem cursor.old cursor.new labels.old labels.new result }
{
    let code = byte_at(cursor)?;
    instr_after(alloc, cursor, code, labels)
}

/// The instruction whose code was passed over.
fn instr_after(
    alloc: Global,
    cursor: &mut Cursor<'_>,
    code: u8,
    labels: &mut Indexes,
) -> Result<Instr, ReadFault>
    requires { length labels.old + length cursor.old.left < 2 ^ 32 }
    ensures { AnswersItem (λ s. SpellsItem (code ∷ s)) cursor.old cursor.new
        labels.old labels.new result }
{
    match Immediates::after(code) {
        Some(kind) => {
            let imm = immediates_at(cursor, kind)?;
            Ok(Instr { code, imm })
        }
        None => special_after(alloc, cursor, code, labels),
    }
}

/// The same for a code with a form of its own.
fn special_after(
    alloc: Global,
    cursor: &mut Cursor<'_>,
    code: u8,
    labels: &mut Indexes,
) -> Result<Instr, ReadFault>
    requires special { immediates_of code ≡ None }
    requires room { length labels.old + length cursor.old.left < 2 ^ 32 }
    ensures { AnswersItem (λ s. SpellsItem (code ∷ s)) cursor.old cursor.new
        labels.old labels.new result }
{
    if is_opener(code) {
        let ty = block_type_at(cursor)?;
        return Ok(Instr {
            code,
            imm: Imm::Block(ty),
        });
    }
    if code == BR_TABLE {
        return table_after(alloc, cursor, labels);
    }
    if code == ELSE || code == END {
        return Ok(Instr {
            code,
            imm: Imm::None,
        });
    }
    Err(ReadFault::Malformed)
}

/// A `br_table` whose code was passed over.
fn table_after(
    alloc: Global,
    cursor: &mut Cursor<'_>,
    labels: &mut Indexes,
) -> Result<Instr, ReadFault>
    requires { length labels.old + length cursor.old.left < 2 ^ 32 }
    ensures { AnswersItem (λ s. SpellsItem (0x0E ∷ s)) cursor.old cursor.new
        labels.old labels.new result }
{
    let table = read_vector::<u32>(alloc, cursor)?;
    let last = u32_at(cursor)?;
    let first = labels.len() as u32;
    let count = table.len() as u32;
    labels.extend(table.as_slice())?;
    Ok(Instr {
        code: BR_TABLE,
        imm: Imm::Table { first, count, last },
    })
}
