//! Constant expressions.
ghost use Rattle.std.specs.Prelude.{◌≡◌};
ghost use Rattle.tree_machine.specs.Instructions.{i32_in, i64_in};
ghost use Rattle.tree_machine.specs.Instantiation.{value_of};
ghost use Rattle.instance_store.specs.Constants.{IsOneConstant};

use wasm_form::{Expr, Imm};

/// The value of an expression that is one constant (Core 1.0, 3.3.7): the number that its bits spell.
pub(crate) fn constant(expr: &Expr) -> Option<u64>
    ensures { IsOneConstant expr.now → result ≡ value_of expr.now }
{
    let [instr, ..] = expr.code.as_slice() else {
        return None;
    };
    match instr.code {
        0x41 => i32_in(instr.imm),
        0x42 => i64_in(instr.imm),
        _ => None,
    }
}

/// The i32 in these immediates.
fn i32_in(imm: Imm) -> Option<u64>
    ensures { result ≡ i32_in imm }
{
    match imm {
        Imm::I32(value) => Some(u64::from(value)),
        _ => None,
    }
}

/// The i64 in these immediates.
fn i64_in(imm: Imm) -> Option<u64>
    ensures { result ≡ i64_in imm }
{
    match imm {
        Imm::I64(value) => Some(value),
        _ => None,
    }
}
