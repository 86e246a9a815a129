//! The size of the memory, and its growth.
ghost use Rattle.std.specs.Prelude.{◌≡◌, ◌+◌, ◌<◌, ◌≤◌, length, Some};
ghost use Rattle.tree_machine.specs.MemorySize.{size_of};
ghost use Rattle.tree_machine.specs.Outcomes.{Gives};
ghost use Rattle.flat_machine.specs.Flat.{Flat, goes_on};
ghost use Rattle.flat_machine.specs.Shown.{stack_of};
ghost use Rattle.flat_machine.specs.Straight.{grow_memory};
ghost use Rattle.straight_code.specs.Going.{TakesAddress};

use crate::operands::push;
use linear_memory::Memory;

/// -1 as an i32.
const MINUS_ONE: u64 = 0xffff_ffff;

/// `memory.size`.
#[inline(always)]
pub fn push_size(values: &mut [u64], sp: usize, memory: &Memory) -> usize
    requires room { sp < length values.old }
    ensures height { result ≡ sp + 1 }
    ensures sizes { size_of (Some memory.now) (stack_of values.old sp) ≡ Gives (stack_of values.new result) }
{
    push(values, sp, u64::from(memory.pages()))
}

/// `memory.grow`. The height stays. It takes no memory: what the memory may grow to is reserved.
pub fn grow_top(values: &mut [u64], sp: usize, memory: &mut Memory)
    requires takes { TakesAddress values.old sp }
    requires within { sp ≤ length values.old }
    ensures { (flat : Flat) → flat.memory ≡ Some memory.old →
        grow_memory (Some memory.old) (stack_of values.old sp) flat
        ≡ Gives (record (goes_on (stack_of values.new sp) flat) { memory = Some memory.new }) }
{
    let before = memory.pages();
    let pages = values[sp - 1] as u32;
    match memory.grow(pages) {
        Some(_) => values[sp - 1] = u64::from(before),
        None => values[sp - 1] = MINUS_ONE,
    }
}
