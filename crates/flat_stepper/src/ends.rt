//! What comes when a function is over: the return to its caller, or the next function.
ghost use Rattle.std.specs.Prelude.{◌≡◌, ◌≢◌, ◌<◌, ◌≤◌, ℕ, Bool, false, [], length};
ghost use Rattle.code_map.specs.declared.callee.Callee.TheVariants as callee;
ghost use Rattle.flat_machine.specs.Moves.{Stuck};
ghost use Rattle.flat_machine.specs.Moves as moves;
ghost use Rattle.flat_stepper.specs.States.{flat_of, IsSound};
ghost use Rattle.flat_stepper.specs.Outcomes.{Leaves, IsOwn, enters, left_in, reason};
ghost use Rattle.flat_stepper.specs.Outcomes as outcomes;

use crate::Place;
use crate::stacks::{MOST_VALUES, begin_with, carry_down, lengthen, push_zeros};
use crate::state::State;
use code_map::{Callee, CodeMap};
use flat_machine::Halt;
use wasm_form::Parts;

/// Behind the end of the body at work: the return to the caller, or the entry of the next function. Tells whether the
/// machine halts there, and then why.
pub(crate) fn leave(state: &mut State, parts: &Parts, map: &CodeMap, halt: &mut Halt) -> bool
    requires sound { IsSound state.old }
    requires applies { moves.leave parts.now map.now (flat_of state.old).callers (flat_of state.old) ≢ Stuck }
    ensures sound { IsSound state.new }
    ensures longer { length state.old.values.items ≤ length state.new.values.items }
    ensures functions { state.new.invocations.items ≡ state.old.invocations.items }
    ensures falls { result ≡ false → left_in state.new < left_in state.old }
    ensures leaves { Leaves (moves.leave parts.now map.now (flat_of state.old).callers (flat_of state.old))
        (reason result halt.new) (flat_of state.old) (flat_of state.new) }
{
    if state.callers.is_empty() {
        return enter_next(state, parts, map, halt);
    }
    let gives = gives_value(parts, map, state.place.body);
    let base = state.place.base;
    let sp = state.sp;
    match state.callers.pop() {
        Some(caller) => {
            state.sp = carry_down(state.values.as_mut_slice(), base, sp, gives);
            state.place = caller;
            false
        }
        None => unreachable!(),
    }
}

/// Whether the function with this body gives a value.
fn gives_value(parts: &Parts, map: &CodeMap, body: usize) -> bool
    requires { IsOwn (moves.callee_with parts.now map.now body) }
    ensures { result ≡ outcomes.gives_value (moves.callee_with parts.now map.now body) }
{
    let callees = map.callees.as_slice();
    let imported = callees.len().saturating_sub(parts.bodies.len());
    match callees[imported + body] {
        Callee::Own { gives, .. } => gives,
        Callee::Host { .. } => unreachable!(),
    }
}

/// The next function is entered, where there is one and its values have room.
fn enter_next(state: &mut State, parts: &Parts, map: &CodeMap, halt: &mut Halt) -> bool
    requires sound { IsSound state.old }
    requires alone { state.old.callers.items ≡ [] }
    requires applies { moves.enter_next parts.now map.now (flat_of state.old).invocations (flat_of state.old) ≢ Stuck }
    ensures sound { IsSound state.new }
    ensures longer { length state.old.values.items ≤ length state.new.values.items }
    ensures functions { state.new.invocations.items ≡ state.old.invocations.items }
    ensures falls { result ≡ false → left_in state.new < left_in state.old }
    ensures leaves { Leaves (moves.enter_next parts.now map.now (flat_of state.old).invocations (flat_of state.old))
        (reason result halt.new) (flat_of state.old) (flat_of state.new) }
{
    if state.entered == state.invocations.len() {
        *halt = Halt::Ends;
        return true;
    }
    let function = state.invocations[state.entered].function();
    match map.callees.as_slice()[function as usize] {
        Callee::Own { body, locals, .. } => enter(state, parts, map, body, locals, halt),
        Callee::Host { .. } => unreachable!(),
    }
}

/// The next function, which has this body and so many locals beside its parameters, is entered where its values have
/// room: its arguments are its first locals, and the others are 0.
fn enter(
    state: &mut State,
    parts: &Parts,
    map: &CodeMap,
    body: u32,
    locals: u32,
    halt: &mut Halt,
) -> bool
    requires sound { IsSound state.old }
    requires alone { state.old.callers.items ≡ [] }
    requires there { state.old.entered < length state.old.invocations.items }
    requires applies { (params : ℕ) × (gives : Bool) × (class : ℕ) × (enters parts.now map.now
        (callee.Own body params locals gives class) (flat_of state.old).invocations (flat_of state.old) ≢ Stuck) }
    ensures sound { IsSound state.new }
    ensures longer { length state.old.values.items ≤ length state.new.values.items }
    ensures functions { state.new.invocations.items ≡ state.old.invocations.items }
    ensures falls { result ≡ false → left_in state.new < left_in state.old }
    ensures leaves { (params : ℕ) (gives : Bool) (class : ℕ) → enters parts.now map.now
        (callee.Own body params locals gives class) (flat_of state.old).invocations (flat_of state.old) ≢ Stuck →
        Leaves (enters parts.now map.now (callee.Own body params locals gives class) (flat_of state.old).invocations
        (flat_of state.old)) (reason result halt.new) (flat_of state.old) (flat_of state.new) }
{
    let next = &state.invocations[state.entered];
    let arguments = next.arguments();
    let count = arguments.len();
    let zeros = locals as usize;
    if count + zeros > MOST_VALUES {
        *halt = Halt::Overfull;
        return true;
    }
    lengthen(&mut state.values, count + zeros);
    begin_with(state.values.as_mut_slice(), arguments);
    push_zeros(state.values.as_mut_slice(), count, zeros);
    state.sp = count + zeros;
    state.place = Place {
        pc: 0,
        body: body as usize,
        base: 0,
        opens: 0,
    };
    state.entered += 1;
    false
}
