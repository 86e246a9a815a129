//! Runs of a machine, body by body.
ghost use Rattle.std.specs.Prelude.{◌≡◌, ◌<◌, ◌≤◌, ◌-◌, false, length, map, reverse};
ghost use Rattle.flat_machine.specs.Tells.{opens_of};
ghost use Rattle.flat_stepper.specs.Places.{place_of};
ghost use Rattle.flat_machine.specs.Runs.{Runs, IsSafe};
ghost use Rattle.flat_machine.specs.Halts.{HaltsSo};
ghost use Rattle.flat_stepper.specs.Pauses.{PausesSo};
ghost use Rattle.flat_stepper.specs.States.{flat_of, IsSound};
ghost use Rattle.flat_stepper.specs.Outcomes.{AdvancesSo, reason, weight};

use crate::body::run_body;
use crate::calls::{call_function, call_indirect};
use crate::ends::leave;
use crate::stacks::{MOST_VALUES, lengthen};
use crate::state::State;
use crate::{Pause, Place};
use code_map::CodeMap;
use flat_machine::Halt;
use host_port::Spent;
use wasm_form::Parts;

/// How many blocks are open in these functions, of which the innermost stands last.
fn opens_of_callers(callers: &[Place]) -> usize
    ensures { result ≡ opens_of (map place_of (reverse callers.now)) }
{
    match callers.last() {
        Some(caller) => caller.opens,
        None => 0,
    }
}

/// Executes at most `budget` instructions of the body at work, and tells why it pauses and how many they were.
fn go_on(state: &mut State, parts: &Parts, map: &CodeMap, budget: u64) -> (Pause, u64)
    requires sound { IsSound state.old }
    requires safe { IsSafe parts.now map.now (flat_of state.old) }
    requires mapped { length parts.now.bodies ≤ length map.now.bodies }
    ensures sound { IsSound state.new }
    ensures within { result.1 ≤ budget }
    ensures array { length state.new.values.items ≡ length state.old.values.items }
    ensures callers { state.new.callers.items ≡ state.old.callers.items }
    ensures entered { state.new.entered ≡ state.old.entered }
    ensures functions { state.new.invocations.items ≡ state.old.invocations.items }
    ensures runs { Runs parts.now map.now result.1 (flat_of state.old) (flat_of state.new) }
    ensures pauses { PausesSo parts.now map.now result.0 budget result.1 (length state.new.values.items)
        (flat_of state.new) }
{
    let outer = opens_of_callers(state.callers.as_slice());
    let at = state.place;
    let sp = state.sp;
    let values = state.values.as_mut_slice();
    let globals = state.globals.as_mut_slice();
    let memory = &mut state.memory;
    let turn = run_body(parts, map, values, memory, globals, at, outer, sp, budget);
    state.sp = turn.sp;
    state.place.pc = turn.pc;
    state.place.opens = turn.opens;
    (turn.pause, turn.executed)
}

/// Executes instructions of the body at work, at most so many, and what comes then: a call, a return or the next
/// function; or the array of values grows. Tells whether the machine halts, and then why, and how many instructions they
/// were.
fn advance(
    state: &mut State,
    parts: &Parts,
    map: &CodeMap,
    budget: u64,
    halt: &mut Halt,
) -> (bool, u64)
    requires sound { IsSound state.old }
    requires safe { IsSafe parts.now map.now (flat_of state.old) }
    requires mapped { length parts.now.bodies ≤ length map.now.bodies }
    ensures sound { IsSound state.new }
    ensures within { result.1 ≤ budget }
    ensures falls { result.0 ≡ false → weight (budget - result.1) state.new < weight budget state.old }
    ensures advances { AdvancesSo parts.now map.now (reason result.0 halt.new) budget result.1 (flat_of state.old)
        (flat_of state.new) }
{
    let (pause, count) = go_on(state, parts, map, budget);
    match pause {
        Pause::Slice => {
            *halt = Halt::Slice;
            (true, count)
        }
        Pause::Trap(trap) => {
            *halt = Halt::Trap(trap);
            (true, count + 1)
        }
        Pause::Full => {
            let len = state.values.len();
            if len == MOST_VALUES {
                *halt = Halt::Spent(Spent::Values);
                return (true, count + 1);
            }
            lengthen(&mut state.values, len + 1);
            (false, count)
        }
        Pause::Over => {
            let halts = leave(state, parts, map, halt);
            (halts, count)
        }
        Pause::Call(function) => {
            let halts = call_function(state, parts, map, function, halt);
            (halts, count + 1)
        }
        Pause::CallIndirect(ty) => {
            let halts = call_indirect(state, parts, map, ty, halt);
            (halts, count + 1)
        }
    }
}

/// Executes at most `budget` instructions, and tells why it halts and how many they were.
pub(crate) fn run(state: &mut State, parts: &Parts, map: &CodeMap, budget: u64) -> (Halt, u64)
    requires sound { IsSound state.old }
    requires safe { IsSafe parts.now map.now (flat_of state.old) }
    requires mapped { length parts.now.bodies ≤ length map.now.bodies }
    ensures sound { IsSound state.new }
    ensures within { result.1 ≤ budget }
    ensures halts { HaltsSo parts.now map.now result.0 budget result.1 (flat_of state.old) (flat_of state.new) }
{
    let mut halt = Halt::Slice;
    let mut executed = 0;
    loop {
        let (halts, count) = advance(state, parts, map, budget - executed, &mut halt);
        executed += count;
        if halts {
            return (halt, executed);
        }
    }
}
