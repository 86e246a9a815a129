//! Expressions: the instructions of a flat list, up to the end of the outermost list.

ghost use Rattle.std.specs.Prelude.{◌≡◌, ◌+◌, ◌-◌, ◌<◌, ◌^◌, MatchResult, length};
ghost use Rattle.wasm_form.specs.Trees.{SpellsExpr};
ghost use Rattle.body_reader.specs.Reading.{Answers, NoFront};
ghost use Rattle.body_reader.specs.Items.{IsOpener, Collects};

use crate::ReadFault;
use crate::instr::{instr_at, is_opener};
use leb_read::Cursor;
use std::alloc::Global;
use wasm_form::{Expr, Indexes, Instr, Instrs, PartsFault, match_blocks, one_expression};

/// The expression at the cursor, which is passed over (Core 1.0, 5.4.6).
pub fn expr_at(alloc: Global, cursor: &mut Cursor<'_>) -> Result<Expr, ReadFault>
    requires { length cursor.old.left < 2 ^ 32 }
    ensures { Answers SpellsExpr cursor.old cursor.new result }
{
    one_expression();
    let (code, labels) = code_at(alloc, cursor)?;
    match match_blocks(alloc, code.as_slice(), labels.as_slice()) {
        Ok(matches) => Ok(Expr {
            code,
            labels,
            matches,
        }),
        Err(PartsFault::Unmatched) => Err(ReadFault::Malformed),
        Err(PartsFault::NoMemory) => Err(ReadFault::NoMemory),
    }
}

/// The instructions up to the end of the outermost list, and the labels that they pool.
fn code_at(alloc: Global, cursor: &mut Cursor<'_>) -> Result<(Instrs, Indexes), ReadFault>
    requires { length cursor.old.left < 2 ^ 32 }
    ensures { MatchResult result (λ read. Collects cursor.old cursor.new read.0 read.1 0)
        (λ e. e ≡ ReadFault.Malformed → NoFront SpellsExpr cursor.old.left) }
{
    let mut code = Instrs::new(alloc);
    let mut labels = Indexes::new(alloc);
    let mut depth = 1;
    while depth > 0 {
        let instr = instr_at(alloc, cursor, &mut labels)?;
        code.push(instr)?;
        depth = depth_after(instr, depth);
    }
    Ok((code, labels))
}

/// How many lists are open after an instruction, of so many before it.
fn depth_after(instr: Instr, depth: usize) -> usize
    requires { depth + 1 < 2 ^ 64 }
    ensures opens { IsOpener instr.code → result ≡ depth + 1 }
    ensures ends { instr.code ≡ 0x0B → result ≡ depth - 1 }
    ensures stays { (IsOpener instr.code → ⊥) → (instr.code ≡ 0x0B → ⊥) → result ≡ depth }
{
    if is_opener(instr.code) {
        depth + 1
    } else if instr.code == 0x0B {
        depth.saturating_sub(1)
    } else {
        depth
    }
}
