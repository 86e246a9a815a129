//! Instructions that leave a value or an open block more than they find: they need a place.
ghost use Rattle.std.specs.Prelude.{◌≡◌, ◌≢◌, ◌⊎◌, ◌<◌, ◌≤◌, ◌+◌, ◌^◌, true, false, Some, None, length, IfOk};
ghost use Rattle.tree_machine.specs.Instructions.{index_in, i32_in, i64_in};
ghost use Rattle.tree_machine.specs.Limits.{most_values};
ghost use Rattle.flat_stepper.specs.Standing.{CanBranch, CanStep, Branches, StepsAll, HasRoom};

use crate::{Pause, Spot, Within};
use linear_memory::Memory;
use straight_code::{get_global, get_local, push, push_size};
use wasm_form::{Imm, Instr};

/// Whether the array has no place more.
#[inline(always)]
fn is_full(values: &[u64], at: Spot) -> bool
    requires { HasRoom at (length values.now) }
    ensures full { result ≡ true → length values.now < at.sp + at.opens + 1 }
    ensures room { result ≡ false → at.sp + at.opens < length values.now }
{
    values.len() <= at.sp + at.opens
}

/// `block` and `loop`.
#[inline(always)]
pub fn begin(within: &Within<'_>, instr: &Instr, values: &[u64], at: Spot) -> Result<Spot, Pause>
    requires stands { CanBranch within.now instr.now values.now at }
    requires code { (instr.now.code ≡ 0x02) ⊎ (instr.now.code ≡ 0x03) }
    requires room { HasRoom at (length values.now) }
    requires few { length values.now ≤ most_values }
    ensures room { IfOk result (λ to. HasRoom to (length values.now)) }
    ensures steps { Branches within.now instr.now values.now at values.now result }
{
    if is_full(values, at) {
        return Err(Pause::Full);
    }
    Ok(Spot {
        pc: at.pc + 1,
        sp: at.sp,
        opens: at.opens + 1,
    })
}

/// `local.get`.
#[inline(always)]
pub fn local(
    within: &Within<'_>,
    instr: &Instr,
    values: &mut [u64],
    at: Spot,
) -> Result<Spot, Pause>
    requires stands { CanBranch within.now instr.now values.old at }
    requires code { instr.now.code ≡ 0x20 }
    requires room { HasRoom at (length values.old) }
    requires few { length values.old ≤ most_values }
    ensures room { IfOk result (λ to. HasRoom to (length values.new)) }
    ensures steps { Branches within.now instr.now values.old at values.new result }
{
    if is_full(values, at) {
        return Err(Pause::Full);
    }
    let sp = get_local(values, at.sp, within.base, index(instr.imm));
    Ok(behind(at, sp))
}

/// `global.get`.
#[inline(always)]
pub fn global(
    within: &Within<'_>,
    instr: &Instr,
    values: &mut [u64],
    memory: &Memory,
    globals: &[u64],
    at: Spot,
) -> Result<Spot, Pause>
    requires stands { CanStep within.now instr.now values.old memory.now globals.now at }
    requires code { instr.now.code ≡ 0x23 }
    requires room { HasRoom at (length values.old) }
    requires few { length values.old ≤ most_values }
    ensures room { IfOk result (λ to. HasRoom to (length values.new)) }
    ensures steps { StepsAll within.now instr.now values.old memory.now globals.now at values.new memory.now globals.now result }
{
    if is_full(values, at) {
        return Err(Pause::Full);
    }
    let sp = get_global(values, at.sp, globals, index(instr.imm));
    Ok(behind(at, sp))
}

/// `memory.size`.
#[inline(always)]
pub fn size(
    within: &Within<'_>,
    instr: &Instr,
    values: &mut [u64],
    memory: &Memory,
    globals: &[u64],
    at: Spot,
) -> Result<Spot, Pause>
    requires stands { CanStep within.now instr.now values.old memory.now globals.now at }
    requires code { instr.now.code ≡ 0x3F }
    requires room { HasRoom at (length values.old) }
    requires few { length values.old ≤ most_values }
    ensures room { IfOk result (λ to. HasRoom to (length values.new)) }
    ensures steps { StepsAll within.now instr.now values.old memory.now globals.now at values.new memory.now globals.now result }
{
    if is_full(values, at) {
        return Err(Pause::Full);
    }
    let sp = push_size(values, at.sp, memory);
    Ok(behind(at, sp))
}

/// `i32.const`.
#[inline(always)]
pub fn constant_32(
    within: &Within<'_>,
    instr: &Instr,
    values: &mut [u64],
    at: Spot,
) -> Result<Spot, Pause>
    requires stands { CanBranch within.now instr.now values.old at }
    requires code { instr.now.code ≡ 0x41 }
    requires room { HasRoom at (length values.old) }
    requires few { length values.old ≤ most_values }
    ensures room { IfOk result (λ to. HasRoom to (length values.new)) }
    ensures steps { Branches within.now instr.now values.old at values.new result }
{
    if is_full(values, at) {
        return Err(Pause::Full);
    }
    let sp = push(values, at.sp, u64::from(i32_of(instr.imm)));
    Ok(behind(at, sp))
}

/// `i64.const`.
#[inline(always)]
pub fn constant_64(
    within: &Within<'_>,
    instr: &Instr,
    values: &mut [u64],
    at: Spot,
) -> Result<Spot, Pause>
    requires stands { CanBranch within.now instr.now values.old at }
    requires code { instr.now.code ≡ 0x42 }
    requires room { HasRoom at (length values.old) }
    requires few { length values.old ≤ most_values }
    ensures room { IfOk result (λ to. HasRoom to (length values.new)) }
    ensures steps { Branches within.now instr.now values.old at values.new result }
{
    if is_full(values, at) {
        return Err(Pause::Full);
    }
    let sp = push(values, at.sp, i64_of(instr.imm));
    Ok(behind(at, sp))
}

/// The spot behind this one, with so many values in use.
#[inline(always)]
pub fn behind(at: Spot, sp: usize) -> Spot
    requires { at.pc + 1 < 2 ^ 64 }
    ensures pc { result.pc ≡ at.pc + 1 }
    ensures sp { result.sp ≡ sp }
    ensures opens { result.opens ≡ at.opens }
{
    Spot {
        pc: at.pc + 1,
        sp,
        opens: at.opens,
    }
}

/// The index in these immediates.
#[inline(always)]
pub fn index(imm: Imm) -> u32
    requires { index_in imm ≢ None }
    ensures { index_in imm ≡ Some result }
{
    match imm {
        Imm::Index(index) => index,
        _ => unreachable!(),
    }
}

/// The i32 in these immediates.
#[inline(always)]
fn i32_of(imm: Imm) -> u32
    requires { i32_in imm ≢ None }
    ensures { i32_in imm ≡ Some result }
{
    match imm {
        Imm::I32(bits) => bits,
        _ => unreachable!(),
    }
}

/// The i64 in these immediates.
#[inline(always)]
fn i64_of(imm: Imm) -> u64
    requires { i64_in imm ≢ None }
    ensures { i64_in imm ≡ Some result }
{
    match imm {
        Imm::I64(bits) => bits,
        _ => unreachable!(),
    }
}
