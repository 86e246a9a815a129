//! Calls of functions and of the host. Why the machine halts is written where it does, and not given back, since an ask
//! of the host is long, and nearly all calls go on.
ghost use Rattle.std.specs.Prelude.{◌≡◌, ◌≢◌, ℕ, ◌+◌, ◌≤◌, Bool, length, slice_get};
ghost use Rattle.code_map.specs.declared.callee.Callee.TheVariants as callee;
ghost use Rattle.code_map.specs.declared.map.CodeMap.{CodeMap};
ghost use Rattle.wasm_form.specs.declared.instr.Instr.{Instr};
ghost use Rattle.tree_machine.specs.Limits.{most_values};
ghost use Rattle.flat_machine.specs.Calls as place;
ghost use Rattle.flat_machine.specs.Shown.{stack_of};
ghost use Rattle.flat_machine.specs.Tells.{IsInstrAt};
ghost use Rattle.flat_machine.specs.Moves.{Stuck};
ghost use Rattle.flat_machine.specs.Moves as moves;
ghost use Rattle.flat_stepper.specs.Places.{place_of};
ghost use Rattle.flat_stepper.specs.States.{flat_of, IsSound};
ghost use Rattle.flat_stepper.specs.Outcomes.{Calls, reason};

use crate::Place;
use crate::stacks::{MOST_FRAMES, MOST_VALUES, arguments, lengthen, push_zeros};
use crate::state::State;
use code_map::{Callee, CodeMap};
use flat_machine::Halt;
use host_port::{Ask, Spent};
use wasm_form::Parts;
use wasm_ops::Trap;

/// The place of the next instruction.
fn behind(parts: &Parts, at: Place) -> Place
    requires { (i : Instr) × IsInstrAt parts.now (place_of at) i }
    ensures { place_of result ≡ place.behind (place_of at) }
{
    let size = parts.bodies.as_slice()[at.body].expr.code.len();
    prove!(at.pc < size);
    Place {
        pc: at.pc + 1,
        body: at.body,
        base: at.base,
        opens: at.opens,
    }
}

/// call: of the function with this index. Tells whether the machine halts there, and then why.
pub(crate) fn call_function(
    state: &mut State,
    parts: &Parts,
    map: &CodeMap,
    function: u32,
    halt: &mut Halt,
) -> bool
    requires sound { IsSound state.old }
    requires at { (i : Instr) × IsInstrAt parts.now (place_of state.old.place) i }
    requires applies { moves.call_function parts.now map.now (Some function) (flat_of state.old) ≢ Stuck }
    ensures sound { IsSound state.new }
    ensures longer { length state.old.values.items ≤ length state.new.values.items }
    ensures entered { state.new.entered ≡ state.old.entered }
    ensures functions { state.new.invocations.items ≡ state.old.invocations.items }
    ensures calls { Calls (moves.call_function parts.now map.now (Some function) (flat_of state.old))
        (reason result halt.new) (flat_of state.old) (flat_of state.new) }
{
    let callee = map.callees.as_slice()[function as usize];
    let sp = state.sp;
    call(state, parts, map, callee, sp, halt)
}

/// call_indirect: of the element of the table whose place lies on top, which has to have this type. Tells whether the
/// machine halts there, and then why.
pub(crate) fn call_indirect(
    state: &mut State,
    parts: &Parts,
    map: &CodeMap,
    ty: u32,
    halt: &mut Halt,
) -> bool
    requires sound { IsSound state.old }
    requires at { (i : Instr) × IsInstrAt parts.now (place_of state.old.place) i }
    requires applies { moves.call_indirect parts.now map.now (Some ty) (flat_of state.old) ≢ Stuck }
    ensures sound { IsSound state.new }
    ensures longer { length state.old.values.items ≤ length state.new.values.items }
    ensures entered { state.new.entered ≡ state.old.entered }
    ensures functions { state.new.invocations.items ≡ state.old.invocations.items }
    ensures calls { Calls (moves.call_indirect parts.now map.now (Some ty) (flat_of state.old))
        (reason result halt.new) (flat_of state.old) (flat_of state.new) }
{
    let sp = state.sp - 1;
    let element = state.values[sp];
    match element_at(state.table.as_slice(), element) {
        None => {
            *halt = Halt::Trap(Trap::TableBounds);
            true
        }
        Some(None) => {
            *halt = Halt::Trap(Trap::NoElement);
            true
        }
        Some(Some(function)) => {
            let callee = map.callees.as_slice()[function as usize];
            if class_of(callee) == map.classes.as_slice()[ty as usize] {
                call(state, parts, map, callee, sp, halt)
            } else {
                *halt = Halt::Trap(Trap::WrongType);
                true
            }
        }
    }
}

/// The element of the table at this place; `None` past its end.
fn element_at(table: &[Option<u32>], place: u64) -> Option<Option<u32>>
    ensures { result ≡ slice_get table.now place }
{
    table.get(place as usize).copied()
}

/// The class of the type of what is called.
fn class_of(callee: Callee) -> u32
    ensures { result ≡ moves.class_of callee }
{
    match callee {
        Callee::Own { class, .. } => class,
        Callee::Host { class, .. } => class,
    }
}

/// A call with the first `sp` values.
fn call(
    state: &mut State,
    parts: &Parts,
    map: &CodeMap,
    callee: Callee,
    sp: usize,
    halt: &mut Halt,
) -> bool
    requires sound { IsSound state.old }
    requires at { (i : Instr) × IsInstrAt parts.now (place_of state.old.place) i }
    requires within { sp ≤ state.old.sp }
    requires applies { moves.call parts.now map.now (Some callee) (stack_of state.old.values.items sp)
        (flat_of state.old) ≢ Stuck }
    ensures sound { IsSound state.new }
    ensures longer { length state.old.values.items ≤ length state.new.values.items }
    ensures entered { state.new.entered ≡ state.old.entered }
    ensures functions { state.new.invocations.items ≡ state.old.invocations.items }
    ensures calls { Calls (moves.call parts.now map.now (Some callee) (stack_of state.old.values.items sp)
        (flat_of state.old)) (reason result halt.new) (flat_of state.old) (flat_of state.new) }
{
    match callee {
        Callee::Own {
            body,
            params,
            locals,
            ..
        } => call_own(state, parts, map, body, params, locals, sp, halt),
        Callee::Host {
            call,
            params,
            gives,
            ..
        } => ask_host(state, parts, call, params, gives, sp, halt),
    }
}

/// A call of a function of the module: where a frame is left, and then where its values have room, it is entered. Its
/// arguments are its first locals, where they lie, and the others are 0.
fn call_own(
    state: &mut State,
    parts: &Parts,
    map: &CodeMap,
    body: u32,
    params: u32,
    locals: u32,
    sp: usize,
    halt: &mut Halt,
) -> bool
    requires sound { IsSound state.old }
    requires at { (i : Instr) × IsInstrAt parts.now (place_of state.old.place) i }
    requires within { sp ≤ state.old.sp }
    requires applies { (gives : Bool) (class : ℕ) → moves.call parts.now map.now
        (Some (callee.Own body params locals gives class)) (stack_of state.old.values.items sp) (flat_of state.old)
        ≢ Stuck }
    ensures sound { IsSound state.new }
    ensures longer { length state.old.values.items ≤ length state.new.values.items }
    ensures entered { state.new.entered ≡ state.old.entered }
    ensures functions { state.new.invocations.items ≡ state.old.invocations.items }
    ensures calls { (gives : Bool) (class : ℕ) → Calls (moves.call parts.now map.now
        (Some (callee.Own body params locals gives class)) (stack_of state.old.values.items sp) (flat_of state.old))
        (reason result halt.new) (flat_of state.old) (flat_of state.new) }
{
    if state.callers.len() + 2 > MOST_FRAMES {
        *halt = Halt::Spent(Spent::Frames);
        return true;
    }
    let at = state.place;
    let count = locals as usize;
    let need = sp + count + at.opens;
    if need > MOST_VALUES {
        *halt = Halt::Spent(Spent::Values);
        return true;
    }
    let caller = behind(parts, at);
    match state.callers.push(caller) {
        Ok(()) => (),
        Err(_) => unreachable!(),
    }
    lengthen(&mut state.values, need);
    push_zeros(state.values.as_mut_slice(), sp, count);
    state.sp = sp + count;
    state.place = Place {
        pc: 0,
        body: body as usize,
        base: sp - params as usize,
        opens: at.opens,
    };
    false
}

/// A call of the host: it is asked where its result has room, and takes the arguments.
fn ask_host(
    state: &mut State,
    parts: &Parts,
    number: u8,
    params: u32,
    gives: bool,
    sp: usize,
    halt: &mut Halt,
) -> bool
    requires sound { IsSound state.old }
    requires at { (i : Instr) × IsInstrAt parts.now (place_of state.old.place) i }
    requires within { sp ≤ state.old.sp }
    requires params { params ≤ sp }
    requires few { params ≤ 8 }
    ensures sound { IsSound state.new }
    ensures longer { length state.old.values.items ≤ length state.new.values.items }
    ensures entered { state.new.entered ≡ state.old.entered }
    ensures functions { state.new.invocations.items ≡ state.old.invocations.items }
    ensures calls { (map : CodeMap) (class : ℕ) → Calls (moves.call parts.now map
        (Some (callee.Host number params gives class)) (stack_of state.old.values.items sp) (flat_of state.old))
        (reason result halt.new) (flat_of state.old) (flat_of state.new) }
{
    let at = state.place;
    let count = params as usize;
    let below = sp - count;
    if below + at.opens + usize::from(gives) > MOST_VALUES {
        *halt = Halt::Spent(Spent::Values);
        return true;
    }
    let args = arguments(state.values.as_slice(), below, count);
    state.sp = below;
    state.place = behind(parts, at);
    *halt = Halt::Asks(Ask { call: number, args });
    true
}
