//! Branches, ifs, ends and elses.
ghost use Rattle.std.specs.Prelude.{◌≡◌, ◌⊎◌, ◌<◌, ◌≤◌, ◌+◌, ◌++◌, ℕ, length, take, Some, Ok};
ghost use Rattle.wasm_form.specs.declared.instr.Imm.TheVariants as imm;
ghost use Rattle.tree_machine.specs.Limits.{most_values};
ghost use Rattle.code_map.specs.declared.target.Target.{Target};
ghost use Rattle.code_map.specs.Targets.{count_if};
ghost use Rattle.flat_machine.specs.Control.{lowest};
ghost use Rattle.flat_machine.specs.Shown.{stack_of};
ghost use Rattle.flat_stepper.specs.Standing.{CanBranch, Branches, CanPass, PassesAll, HasRoom, IsTable};
ghost use Rattle.flat_stepper.specs.Targets.{target_of, entry_of};

use crate::{Spot, Within};
use code_map::Target;
use wasm_form::{Imm, Instr};

/// The target at this place.
#[inline(always)]
fn target(within: &Within<'_>, pc: usize) -> Target
    requires { (t : Target) × (target_of within.now pc ≡ Some t) }
    ensures { target_of within.now pc ≡ Some result }
{
    within.targets[within.slots[pc] as usize]
}

/// The target with this number of the br_table at this place.
#[inline(always)]
fn entry(within: &Within<'_>, pc: usize, number: u32) -> Target
    requires { (t : Target) × (entry_of within.now pc number ≡ Some t) }
    ensures { entry_of within.now pc number ≡ Some result }
{
    within.tables[within.slots[pc] as usize + number as usize]
}

/// Goes to a target from the first `sp` of the values, and takes along what is carried there.
#[inline(always)]
fn jump(within: &Within<'_>, values: &mut [u64], sp: usize, to: Target) -> Spot
    requires height { within.now.base + to.height + count_if to.carries ≤ sp }
    requires within { sp ≤ length values.old }
    requires opens { within.now.outer + to.opens ≤ length values.old }
    ensures pc { result.pc ≡ to.to }
    ensures opens { result.opens ≡ within.now.outer + to.opens }
    ensures sp { result.sp ≡ within.now.base + to.height + count_if to.carries }
    ensures values { stack_of values.new result.sp
        ≡ take (count_if to.carries) (stack_of values.old sp)
        ++ lowest (within.now.base + to.height) (stack_of values.old sp) }
{
    let low = within.base + to.height;
    let opens = within.outer + to.opens as usize;
    let pc = to.to as usize;
    if to.carries {
        values[low] = values[sp - 1];
        return Spot {
            pc,
            sp: low + 1,
            opens,
        };
    }
    Spot { pc, sp: low, opens }
}

/// `br` and `return`: the branch to the target here.
#[inline(always)]
pub fn branch(within: &Within<'_>, instr: &Instr, values: &mut [u64], at: Spot) -> Spot
    requires stands { CanBranch within.now instr.now values.old at }
    requires code { (instr.now.code ≡ 0x0C) ⊎ (instr.now.code ≡ 0x0F) }
    requires room { HasRoom at (length values.old) }
    requires few { length values.old ≤ most_values }
    ensures room { HasRoom result (length values.new) }
    ensures steps { Branches within.now instr.now values.old at values.new (Ok result) }
{
    jump(within, values, at.sp, target(within, at.pc))
}

/// `br_if`.
#[inline(always)]
pub fn branch_if(within: &Within<'_>, instr: &Instr, values: &mut [u64], at: Spot) -> Spot
    requires stands { CanBranch within.now instr.now values.old at }
    requires code { instr.now.code ≡ 0x0D }
    requires room { HasRoom at (length values.old) }
    requires few { length values.old ≤ most_values }
    ensures room { HasRoom result (length values.new) }
    ensures steps { Branches within.now instr.now values.old at values.new (Ok result) }
{
    let sp = at.sp - 1;
    if values[sp] == 0 {
        return Spot {
            pc: at.pc + 1,
            sp,
            opens: at.opens,
        };
    }
    jump(within, values, sp, target(within, at.pc))
}

/// `br_table`.
#[inline(always)]
pub fn branch_table(within: &Within<'_>, instr: &Instr, values: &mut [u64], at: Spot) -> Spot
    requires stands { CanBranch within.now instr.now values.old at }
    requires code { instr.now.code ≡ 0x0E }
    requires room { HasRoom at (length values.old) }
    requires few { length values.old ≤ most_values }
    ensures room { HasRoom result (length values.new) }
    ensures steps { Branches within.now instr.now values.old at values.new (Ok result) }
{
    let sp = at.sp - 1;
    let number = values[sp].min(u64::from(label_count(instr.imm)));
    jump(within, values, sp, entry(within, at.pc, number as u32))
}

/// How many labels a br_table has before its default label.
#[inline(always)]
fn label_count(immediates: Imm) -> u32
    requires { IsTable immediates }
    ensures { (first count last : ℕ) → immediates ≡ imm.Table first count last → result ≡ count }
{
    match immediates {
        Imm::Table { count, .. } => count,
        _ => unreachable!(),
    }
}

/// `if`.
#[inline(always)]
pub fn choose(within: &Within<'_>, instr: &Instr, values: &[u64], at: Spot) -> Spot
    requires stands { CanBranch within.now instr.now values.now at }
    requires code { instr.now.code ≡ 0x04 }
    requires room { HasRoom at (length values.now) }
    requires few { length values.now ≤ most_values }
    ensures room { HasRoom result (length values.now) }
    ensures steps { Branches within.now instr.now values.now at values.now (Ok result) }
{
    let sp = at.sp - 1;
    if values[sp] == 0 {
        let to = target(within, at.pc);
        return Spot {
            pc: to.to as usize,
            sp,
            opens: within.outer + to.opens as usize,
        };
    }
    Spot {
        pc: at.pc + 1,
        sp,
        opens: at.opens + 1,
    }
}

/// Passes an end: of a block, a loop or an if, or of the body.
#[inline(always)]
pub fn pass_end(within: &Within<'_>, instr: &Instr, at: Spot) -> Spot
    requires stands { CanPass within.now instr.now at }
    requires code { instr.now.code ≡ 0x0B }
    ensures forward { at.pc < result.pc }
    ensures sp { result.sp ≡ at.sp }
    ensures low { result.opens ≤ at.opens }
    ensures passes { PassesAll within.now instr.now at result }
{
    let pc = at.pc + 1;
    let opens = if pc < within.code.len() {
        at.opens - 1
    } else {
        at.opens
    };
    Spot {
        pc,
        sp: at.sp,
        opens,
    }
}

/// Passes an else, where the inside of an if is over.
#[inline(always)]
pub fn pass_other(within: &Within<'_>, instr: &Instr, at: Spot) -> Spot
    requires stands { CanPass within.now instr.now at }
    requires code { instr.now.code ≡ 0x05 }
    ensures forward { at.pc < result.pc }
    ensures sp { result.sp ≡ at.sp }
    ensures low { result.opens ≤ at.opens }
    ensures passes { PassesAll within.now instr.now at result }
{
    let to = target(within, at.pc);
    Spot {
        pc: to.to as usize,
        sp: at.sp,
        opens: within.outer + to.opens as usize,
    }
}
