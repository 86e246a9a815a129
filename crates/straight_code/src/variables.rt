//! Variable instructions.
ghost use Rattle.std.specs.Prelude.{◌≡◌, ◌+◌, ◌<◌, ◌≤◌, length, slice_get};
ghost use Rattle.tree_machine.specs.Outcomes.{Gives};
ghost use Rattle.tree_machine.specs.Variables.{push_value};
ghost use Rattle.flat_machine.specs.Flat.{Flat, goes_on};
ghost use Rattle.flat_machine.specs.Shown.{stack_of};
ghost use Rattle.flat_machine.specs.Straight.{local_value, set_top, tee_top, put_global};
ghost use Rattle.straight_code.specs.Going.{TakesLocal};

use crate::operands::push;

/// `local.get`, where the function's locals begin at `base`.
#[inline(always)]
pub fn get_local(values: &mut [u64], sp: usize, base: usize, x: u32) -> usize
    requires there { base + x < sp }
    requires room { sp < length values.old }
    ensures height { result ≡ sp + 1 }
    ensures gets { push_value (local_value base x (stack_of values.old sp)) (stack_of values.old sp)
        ≡ Gives (stack_of values.new result) }
{
    let value = values[base + x as usize];
    push(values, sp, value)
}

/// `local.set`, where the function's locals begin at `base`.
#[inline(always)]
pub fn set_local(values: &mut [u64], sp: usize, base: usize, x: u32) -> usize
    requires takes { TakesLocal base x sp }
    requires within { sp ≤ length values.old }
    ensures height { result + 1 ≡ sp }
    ensures sets { set_top base x (stack_of values.old sp) ≡ Gives (stack_of values.new result) }
{
    values[base + x as usize] = values[sp - 1];
    sp - 1
}

/// `local.tee`, where the function's locals begin at `base`. The height stays.
#[inline(always)]
pub fn tee_local(values: &mut [u64], sp: usize, base: usize, x: u32)
    requires takes { TakesLocal base x sp }
    requires within { sp ≤ length values.old }
    ensures { tee_top base x (stack_of values.old sp) ≡ Gives (stack_of values.new sp) }
{
    values[base + x as usize] = values[sp - 1];
}

/// `global.get`.
#[inline(always)]
pub fn get_global(values: &mut [u64], sp: usize, globals: &[u64], x: u32) -> usize
    requires there { x < length globals.now }
    requires room { sp < length values.old }
    ensures height { result ≡ sp + 1 }
    ensures gets { push_value (slice_get globals.now x) (stack_of values.old sp) ≡ Gives (stack_of values.new result) }
{
    push(values, sp, globals[x as usize])
}

/// `global.set`.
#[inline(always)]
pub fn set_global(values: &[u64], sp: usize, globals: &mut [u64], x: u32) -> usize
    requires one { 1 ≤ sp }
    requires within { sp ≤ length values.now }
    requires there { x < length globals.old }
    ensures height { result + 1 ≡ sp }
    ensures sets { (flat : Flat) → flat.globals ≡ globals.old →
        put_global x (stack_of values.now sp) flat
        ≡ Gives (record (goes_on (stack_of values.now result) flat) { globals = globals.new }) }
{
    globals[x as usize] = values[sp - 1];
    sp - 1
}
