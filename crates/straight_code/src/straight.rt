//! The straight instruction at hand.
ghost use Rattle.std.specs.Prelude.{◌≡◌, ◌≤◌, length, IfOk, IfErr};
ghost use Rattle.tree_machine.specs.Instructions.{plain_of};
ghost use Rattle.straight_code.specs.Going.{CanGo, Leaves, AddsNone};

use crate::immediates::{index_of, offset_of};
use crate::memory_access::{load_top, store_top};
use crate::memory_size::grow_top;
use crate::numeric::numeric_top;
use crate::operands::{drop_top, select_top};
use crate::variables::{set_global, set_local, tee_local};
use linear_memory::Memory;
use wasm_form::Instr;
use wasm_ops::Trap;

/// Executes a straight instruction that leaves no value more than it finds, and gives the height after it. Where it
/// traps, nothing is changed.
///
/// It is `unreachable`, `nop`, `drop`, `select`, `local.set`, `local.tee`, `global.set`, a load, a store, `memory.grow`
/// or a numeric instruction.
pub fn execute(
    instr: &Instr,
    values: &mut [u64],
    sp: usize,
    base: usize,
    memory: &mut Memory,
    globals: &mut [u64],
) -> Result<usize, Trap>
    requires goes { CanGo (plain_of instr.now) values.old sp base memory.old globals.old }
    requires within { sp ≤ length values.old }
    requires none { AddsNone instr.now.code }
    ensures height { IfOk result (λ top. top ≤ sp) }
    ensures goes { Leaves (plain_of instr.now) values.old sp base memory.old globals.old
        result values.new memory.new globals.new }
    ensures values { IfErr result (λ _. values.new ≡ values.old) }
    ensures memory { IfErr result (λ _. memory.new ≡ memory.old) }
    ensures globals { IfErr result (λ _. globals.new ≡ globals.old) }
{
    execute_here(instr.code, instr, values, sp, base, memory, globals)
}

/// The same as [`execute`], for an instruction whose code is known where it is called: compiled there, the code leaves
/// one effect alone.
#[inline]
pub fn execute_here(
    code: u8,
    instr: &Instr,
    values: &mut [u64],
    sp: usize,
    base: usize,
    memory: &mut Memory,
    globals: &mut [u64],
) -> Result<usize, Trap>
    requires same { instr.now.code ≡ code }
    requires goes { CanGo (plain_of instr.now) values.old sp base memory.old globals.old }
    requires within { sp ≤ length values.old }
    requires none { AddsNone instr.now.code }
    ensures height { IfOk result (λ top. top ≤ sp) }
    ensures goes { Leaves (plain_of instr.now) values.old sp base memory.old globals.old result values.new memory.new globals.new }
    ensures values { IfErr result (λ _. values.new ≡ values.old) }
    ensures memory { IfErr result (λ _. memory.new ≡ memory.old) }
    ensures globals { IfErr result (λ _. globals.new ≡ globals.old) }
{
    match code {
        0x00 => Err(Trap::Unreachable),
        0x01 => Ok(sp),
        0x1A => Ok(drop_top(values, sp)),
        0x1B => Ok(select_top(values, sp)),
        0x21 => Ok(set_local(values, sp, base, index_of(instr.imm))),
        0x22 => {
            tee_local(values, sp, base, index_of(instr.imm));
            Ok(sp)
        }
        0x24 => Ok(set_global(values, sp, globals, index_of(instr.imm))),
        0x28..=0x35 => load_top(code, offset_of(instr.imm), values, sp, memory),
        0x36..=0x3E => store_top(code, offset_of(instr.imm), values, sp, memory),
        0x40 => {
            grow_top(values, sp, memory);
            Ok(sp)
        }
        0x45..=0xBF => numeric_top(code, values, sp),
        _ => unreachable!(),
    }
}
