//! Numeric instructions.
ghost use Rattle.std.specs.Prelude.{◌≡◌, ◌+◌, ◌≤◌, length, true, false, IfOk, IfErr};
ghost use Rattle.wasm_ops.specs.Table.{kind_of, takes_one};
ghost use Rattle.tree_machine.specs.Numeric.{unary, binary};
ghost use Rattle.tree_machine.specs.Outcomes.{Gives, Fails};
ghost use Rattle.flat_machine.specs.Shown.{stack_of};
ghost use Rattle.straight_code.specs.Going.{TakesOne, TakesTwo, numeric};

use wasm_ops::{Kind, Trap};

/// The plain instruction with this code, on one operand. The height stays.
#[inline(always)]
pub fn unary_top(code: u8, values: &mut [u64], sp: usize)
    requires plain { kind_of code ≡ Kind.Plain }
    requires alone { takes_one code ≡ true }
    requires takes { TakesOne code values.old sp }
    requires within { sp ≤ length values.old }
    ensures { unary code (stack_of values.old sp) ≡ Gives (stack_of values.new sp) }
{
    values[sp - 1] = wasm_ops::unary(code, values[sp - 1]);
}

/// The plain instruction with this code, on two operands. Where it traps, nothing is changed.
#[inline(always)]
pub fn binary_top(code: u8, values: &mut [u64], sp: usize) -> Result<usize, Trap>
    requires plain { kind_of code ≡ Kind.Plain }
    requires takes { TakesTwo code values.old sp }
    requires within { sp ≤ length values.old }
    ensures height { IfOk result (λ top. top + 1 ≡ sp) }
    ensures value { IfOk result (λ top. binary code (stack_of values.old sp) ≡ Gives (stack_of values.new top)) }
    ensures trap { IfErr result (λ trap. binary code (stack_of values.old sp) ≡ Fails trap) }
    ensures kept { IfErr result (λ _. values.new ≡ values.old) }
{
    match wasm_ops::binary(code, values[sp - 2], values[sp - 1]) {
        Ok(value) => {
            values[sp - 2] = value;
            Ok(sp - 1)
        }
        Err(trap) => Err(trap),
    }
}

/// The plain instruction with this code.
#[inline(always)]
pub(crate) fn numeric_top(code: u8, values: &mut [u64], sp: usize) -> Result<usize, Trap>
    requires plain { kind_of code ≡ Kind.Plain }
    requires one { takes_one code ≡ true → TakesOne code values.old sp }
    requires two { takes_one code ≡ false → TakesTwo code values.old sp }
    requires within { sp ≤ length values.old }
    ensures height { IfOk result (λ top. top ≤ sp) }
    ensures value { IfOk result (λ top. numeric code (stack_of values.old sp) ≡ Gives (stack_of values.new top)) }
    ensures trap { IfErr result (λ trap. numeric code (stack_of values.old sp) ≡ Fails trap) }
    ensures kept { IfErr result (λ _. values.new ≡ values.old) }
{
    if is_on_one(code) {
        unary_top(code, values, sp);
        return Ok(sp);
    }
    binary_top(code, values, sp)
}

/// The plain instruction with this code takes one operand.
#[inline(always)]
fn is_on_one(code: u8) -> bool
    ensures { result ≡ takes_one code }
{
    code == 0x45
        || code == 0x50
        || (0x67 <= code && code <= 0x69)
        || (0x79 <= code && code <= 0x7B)
        || code == 0xA7
        || (0xAC <= code && code <= 0xAD)
}
