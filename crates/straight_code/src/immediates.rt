//! The immediates of straight instructions.
ghost use Rattle.std.specs.Prelude.{◌≡◌, ◌≢◌, Some, None};
ghost use Rattle.tree_machine.specs.Instructions.{index_in, offset_in};

use wasm_form::Imm;

/// The index in these immediates.
#[inline(always)]
pub fn index_of(imm: Imm) -> u32
    requires { index_in imm ≢ None }
    ensures { index_in imm ≡ Some result }
{
    match imm {
        Imm::Index(index) => index,
        _ => unreachable!(),
    }
}

/// The offset in these immediates.
#[inline(always)]
pub fn offset_of(imm: Imm) -> u32
    requires { offset_in imm ≢ None }
    ensures { offset_in imm ≡ Some result }
{
    match imm {
        Imm::Mem { offset, .. } => offset,
        _ => unreachable!(),
    }
}
