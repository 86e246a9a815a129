//! The instruction at hand.
ghost use Rattle.std.specs.Prelude.{◌≡◌, ◌≤◌, true, length};
ghost use Rattle.tree_machine.specs.Limits.{most_values};
ghost use Rattle.flat_stepper.specs.Standing.{CanStep, HasRoom, IsLow, is_low};
ghost use Rattle.flat_stepper.specs.Nexts.{NextOf, GoesWithin};

use crate::branches::{branch, branch_if, branch_table, choose, pass_end, pass_other};
use crate::raises::{begin, behind, constant_32, constant_64, global, index, local, size};
use crate::{Next, Pause, Spot, Within};
use linear_memory::Memory;
use straight_code::{execute, execute_here};
use wasm_form::Instr;

/// Executes the instruction at hand, or passes it if it is an end or an else, and gives the spot after it; or it tells
/// why the instruction isn't executed, and nothing is changed.
#[inline(always)]
pub fn step(
    within: &Within<'_>,
    instr: &Instr,
    values: &mut [u64],
    memory: &mut Memory,
    globals: &mut [u64],
    at: Spot,
) -> Next
    requires stands { CanStep within.now instr.now values.old memory.old globals.old at }
    requires room { HasRoom at (length values.old) }
    requires few { length values.old ≤ most_values }
    ensures room { GoesWithin result (length values.new) }
    ensures steps { NextOf within.now instr.now values.old memory.old globals.old at
        values.new memory.new globals.new result }
{
    // Arms for the least code and the greatest let the compiler jump by the code without a test of its range.
    match instr.code {
        0x00 => known(0x00, within, instr, values, memory, globals, at),
        0xFF => known(0xFF, within, instr, values, memory, globals, at),
        0x0B => Next::Passes(pass_end(within, instr, at)),
        0x05 => Next::Passes(pass_other(within, instr, at)),
        0x02 | 0x03 => Next::of(at, begin(within, instr, values, at)),
        0x04 => Next::Goes(choose(within, instr, values, at)),
        0x0C | 0x0F => Next::Goes(branch(within, instr, values, at)),
        0x0D => Next::Goes(branch_if(within, instr, values, at)),
        0x0E => Next::Goes(branch_table(within, instr, values, at)),
        0x10 => Next::Pauses(at, Pause::Call(index(instr.imm))),
        0x11 => Next::Pauses(at, Pause::CallIndirect(index(instr.imm))),
        0x20 => Next::of(at, local(within, instr, values, at)),
        0x23 => Next::of(at, global(within, instr, values, memory, globals, at)),
        0x3F => Next::of(at, size(within, instr, values, memory, globals, at)),
        0x41 => Next::of(at, constant_32(within, instr, values, at)),
        0x42 => Next::of(at, constant_64(within, instr, values, at)),
        0x1A => known(0x1A, within, instr, values, memory, globals, at),
        0x1B => known(0x1B, within, instr, values, memory, globals, at),
        0x21 => known(0x21, within, instr, values, memory, globals, at),
        0x22 => known(0x22, within, instr, values, memory, globals, at),
        0x28 => known(0x28, within, instr, values, memory, globals, at),
        0x29 => known(0x29, within, instr, values, memory, globals, at),
        0x2D => known(0x2D, within, instr, values, memory, globals, at),
        0x35 => known(0x35, within, instr, values, memory, globals, at),
        0x36 => known(0x36, within, instr, values, memory, globals, at),
        0x37 => known(0x37, within, instr, values, memory, globals, at),
        0x3A => known(0x3A, within, instr, values, memory, globals, at),
        0x3E => known(0x3E, within, instr, values, memory, globals, at),
        0x45 => known(0x45, within, instr, values, memory, globals, at),
        0x46 => known(0x46, within, instr, values, memory, globals, at),
        0x47 => known(0x47, within, instr, values, memory, globals, at),
        0x48 => known(0x48, within, instr, values, memory, globals, at),
        0x49 => known(0x49, within, instr, values, memory, globals, at),
        0x4A => known(0x4A, within, instr, values, memory, globals, at),
        0x4B => known(0x4B, within, instr, values, memory, globals, at),
        0x4C => known(0x4C, within, instr, values, memory, globals, at),
        0x4D => known(0x4D, within, instr, values, memory, globals, at),
        0x4E => known(0x4E, within, instr, values, memory, globals, at),
        0x4F => known(0x4F, within, instr, values, memory, globals, at),
        0x50 => known(0x50, within, instr, values, memory, globals, at),
        0x51 => known(0x51, within, instr, values, memory, globals, at),
        0x52 => known(0x52, within, instr, values, memory, globals, at),
        0x54 => known(0x54, within, instr, values, memory, globals, at),
        0x56 => known(0x56, within, instr, values, memory, globals, at),
        0x6A => known(0x6A, within, instr, values, memory, globals, at),
        0x6B => known(0x6B, within, instr, values, memory, globals, at),
        0x6C => known(0x6C, within, instr, values, memory, globals, at),
        0x6E => known(0x6E, within, instr, values, memory, globals, at),
        0x70 => known(0x70, within, instr, values, memory, globals, at),
        0x71 => known(0x71, within, instr, values, memory, globals, at),
        0x72 => known(0x72, within, instr, values, memory, globals, at),
        0x73 => known(0x73, within, instr, values, memory, globals, at),
        0x74 => known(0x74, within, instr, values, memory, globals, at),
        0x75 => known(0x75, within, instr, values, memory, globals, at),
        0x76 => known(0x76, within, instr, values, memory, globals, at),
        0x77 => known(0x77, within, instr, values, memory, globals, at),
        0x79 => known(0x79, within, instr, values, memory, globals, at),
        0x7B => known(0x7B, within, instr, values, memory, globals, at),
        0x7C => known(0x7C, within, instr, values, memory, globals, at),
        0x7D => known(0x7D, within, instr, values, memory, globals, at),
        0x7E => known(0x7E, within, instr, values, memory, globals, at),
        0x80 => known(0x80, within, instr, values, memory, globals, at),
        0x83 => known(0x83, within, instr, values, memory, globals, at),
        0x84 => known(0x84, within, instr, values, memory, globals, at),
        0x85 => known(0x85, within, instr, values, memory, globals, at),
        0x86 => known(0x86, within, instr, values, memory, globals, at),
        0x88 => known(0x88, within, instr, values, memory, globals, at),
        0x89 => known(0x89, within, instr, values, memory, globals, at),
        0xA7 => known(0xA7, within, instr, values, memory, globals, at),
        0xAD => known(0xAD, within, instr, values, memory, globals, at),
        _ => straight(within, instr, values, memory, globals, at),
    }
}

/// Executes a straight instruction that needs no place.
#[inline(always)]
fn straight(
    within: &Within<'_>,
    instr: &Instr,
    values: &mut [u64],
    memory: &mut Memory,
    globals: &mut [u64],
    at: Spot,
) -> Next
    requires stands { CanStep within.now instr.now values.old memory.old globals.old at }
    requires code { IsLow instr.now.code }
    requires room { HasRoom at (length values.old) }
    requires few { length values.old ≤ most_values }
    ensures room { GoesWithin result (length values.new) }
    ensures steps { NextOf within.now instr.now values.old memory.old globals.old at
        values.new memory.new globals.new result }
{
    match execute(instr, values, at.sp, within.base, memory, globals) {
        Ok(sp) => Next::Goes(behind(at, sp)),
        Err(trap) => Next::Pauses(at, Pause::Trap(trap)),
    }
}

/// The same for an instruction whose code is known where this is compiled: it goes straight to its effect.
#[inline(always)]
fn known(
    code: u8,
    within: &Within<'_>,
    instr: &Instr,
    values: &mut [u64],
    memory: &mut Memory,
    globals: &mut [u64],
    at: Spot,
) -> Next
    requires stands { CanStep within.now instr.now values.old memory.old globals.old at }
    requires same { instr.now.code ≡ code }
    requires code { is_low code ≡ true }
    requires room { HasRoom at (length values.old) }
    requires few { length values.old ≤ most_values }
    ensures room { GoesWithin result (length values.new) }
    ensures steps { NextOf within.now instr.now values.old memory.old globals.old at
        values.new memory.new globals.new result }
{
    match execute_here(code, instr, values, at.sp, within.base, memory, globals) {
        Ok(sp) => Next::Goes(behind(at, sp)),
        Err(trap) => Next::Pauses(at, Pause::Trap(trap)),
    }
}
