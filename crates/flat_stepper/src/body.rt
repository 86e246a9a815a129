ghost use Rattle.std.specs.Prelude.{◌≡◌, ◌<◌, ◌≤◌, ◌+◌, ℕ, Bool, true, false, length, slice_get, Some};
ghost use Rattle.tree_machine.specs.Limits.{most_values};
ghost use Rattle.flat_machine.specs.Flat.{Flat};
ghost use Rattle.flat_machine.specs.Shown.{moved};
ghost use Rattle.wasm_form.specs.declared.instr.Instr.{Instr};
ghost use Rattle.flat_machine.specs.Runs.{Runs};
ghost use Rattle.flat_stepper.specs.Pauses.{PausesSo};
ghost use Rattle.flat_stepper.specs.Begun.{IsBegun};
ghost use Rattle.flat_stepper.specs.Standing.{IsFetched};
ghost use Rattle.flat_stepper.specs.Nexts.{IsCounted};

use crate::step::step;
use crate::{Next, Pause, Place, Spot, Turn, Within};
use code_map::CodeMap;
use linear_memory::Memory;
use wasm_form::{Instr, Parts};

/// Executes at most `budget` instructions of the body of the function at `at`, over the first `sp` of the values, and
/// tells why it pauses. `outer` blocks are open in the function's callers.
pub fn run_body(
    parts: &Parts,
    map: &CodeMap,
    values: &mut [u64],
    memory: &mut Memory,
    globals: &mut [u64],
    at: Place,
    outer: usize,
    sp: usize,
    budget: u64,
) -> Turn
    requires start { (flat : Flat) × (has : Bool)
        × IsBegun parts.now map.now flat has values.old sp at outer memory.old globals.old }
    requires room { sp + at.opens ≤ length values.old }
    requires few { length values.old ≤ most_values }
    requires mapped { length parts.now.bodies ≤ length map.now.bodies }
    ensures within { result.executed ≤ budget }
    ensures room { result.sp + result.opens ≤ length values.new }
    ensures turns { (flat : Flat) (has : Bool) →
        IsBegun parts.now map.now flat has values.old sp at outer memory.old globals.old →
        let to = moved flat has values.new result.sp memory.new globals.new result.pc result.opens in
        Runs parts.now map.now result.executed flat to
        × PausesSo parts.now map.now result.pause budget result.executed (length values.new) to }
{
    let within = fetch(parts, map, at, outer);
    let mut spot = Spot {
        pc: at.pc,
        sp,
        opens: at.opens,
    };
    let mut left = budget;
    while let Some(instr) = within.code.get(spot.pc) {
        if is_spent(left, within.code, spot.pc) {
            return turn(Pause::Slice, budget, spot);
        }
        match step(&within, instr, values, memory, globals, spot) {
            Next::Goes(to) => {
                spot = to;
                left -= 1;
            }
            Next::Passes(to) => spot = to,
            Next::Pauses(here, pause) => return turn(pause, budget - left, here),
        }
    }
    turn(Pause::Over, budget - left, spot)
}

/// Whether nothing is left, and the instruction at this place costs fuel.
#[inline(always)]
fn is_spent(left: u64, code: &[Instr], pc: usize) -> bool
    ensures spent { result ≡ true → left ≡ 0 }
    ensures counted { result ≡ true → (i : Instr) → slice_get code.now pc ≡ Some i → IsCounted i }
    ensures more { result ≡ false → (i : Instr) → slice_get code.now pc ≡ Some i → IsCounted i → 1 ≤ left }
{
    left == 0 && is_counted(code, pc)
}

/// The instruction at this place costs fuel: it is no end and no else. This is asked where nothing is left, and compiled
/// apart.
#[cold]
#[inline(never)]
fn is_counted(code: &[Instr], pc: usize) -> bool
    ensures yes { result ≡ true → (i : Instr) → slice_get code.now pc ≡ Some i → IsCounted i }
    ensures no { result ≡ false → (i : Instr) → slice_get code.now pc ≡ Some i → IsCounted i → ⊥ }
{
    match code.get(pc) {
        Some(instr) => instr.code != 0x0B && instr.code != 0x05,
        None => false,
    }
}

/// The turn that pauses here, after so many instructions.
#[inline(always)]
fn turn(pause: Pause, executed: u64, at: Spot) -> Turn
    ensures pause { result.pause ≡ pause }
    ensures executed { result.executed ≡ executed }
    ensures pc { result.pc ≡ at.pc }
    ensures sp { result.sp ≡ at.sp }
    ensures opens { result.opens ≡ at.opens }
{
    Turn {
        pause,
        executed,
        pc: at.pc,
        sp: at.sp,
        opens: at.opens,
    }
}

/// What stays as it is while the body of the function at `at` is executed.
#[inline(always)]
fn fetch<'a>(parts: &'a Parts, map: &'a CodeMap, at: Place, outer: usize) -> Within<'a>
    requires body { at.body < length parts.now.bodies }
    requires mapped { length parts.now.bodies ≤ length map.now.bodies }
    ensures { IsFetched parts.now map.now at outer result }
{
    let text = &parts.bodies.as_slice()[at.body];
    let body = &map.bodies.as_slice()[at.body];
    Within {
        code: text.expr.code.as_slice(),
        slots: body.slots.as_slice(),
        targets: body.targets.as_slice(),
        tables: body.tables.as_slice(),
        base: at.base,
        outer,
    }
}
