ghost use Rattle.std.specs.Prelude.{◌≡◌, Some, None, true, IfSome};
ghost use Rattle.host_port.specs.Areas.{request_of};
ghost use Rattle.host_port.specs.HostTable.{kind_of as kind_of_call};
ghost use Rattle.resource_table.specs.Steps.{told};
ghost use Rattle.world_rules.specs.Kinds.{kind_of};
ghost use Rattle.node_state.specs.Fits.{is_outside};
ghost use Rattle.node_state.specs.Seats.{IsAsked};
ghost use Rattle.host_calls.specs.Shown.{shown_part};
ghost use Rattle.host_calls.specs.Steps.{AreInOrder};
ghost use Rattle.host_calls.specs.Outsides.{side_in, arrived_in, telling, OutsideGives, OutsideKeeps, IsTimeOf};
ghost use Rattle.host_calls.specs.Turning.{HasCome, IsTimeFor};

use crate::{OutStep, Proc, comes_with_clock, outside_step};
use host_port::{Ask, Engine, Kind, kind_of};
use outside::Outside;
use std::alloc::Global;
use world_rules::Side;

/// Asks the outside, and keeps the ask where memory wasn't lacking.
pub(crate) fn ask_outside<E: Engine, O: Outside>(
    alloc: Global,
    proc: &mut Proc<E, O>,
    outside: &mut O,
    ask: Ask,
) -> OutStep<O::Stream>
    requires kind { is_outside (kind_of (request_of (E.memory proc.old.engine) ask)) ≡ true }
    requires asked { IsAsked (E.memory proc.old.engine) (shown_part proc.old) ask }
    requires order { AreInOrder proc.old }
    ensures engine { proc.new.engine ≡ proc.old.engine }
    ensures start { proc.new.start ≡ proc.old.start }
    ensures fuel { proc.new.fuel ≡ proc.old.fuel }
    ensures shed { proc.new.shed ≡ proc.old.shed }
    ensures came { IfSome (side_in result) (λ side.
        HasCome (told O.Stream.taken O.Stream.put O.Stream.faults O.Stream.waits O.Stream.empties O.Stream.down)
        (request_of (E.memory proc.old.engine) ask) proc.old proc.new side (arrived_in result)) }
    ensures time { IfSome (side_in result) (IsTimeOf (O.clock outside.old)) }
    ensures memory { side_in result ≡ None → proc.new ≡ proc.old }
    ensures outside { IfSome (side_in result) (λ side. OutsideGives
        (telling (O.faults outside.old) (O.waits outside.old) (O.rests outside.old) (O.clock outside.old))
        (telling (O.faults outside.new) (O.waits outside.new) (O.rests outside.new) (O.clock outside.new))
        (Some (request_of (E.memory proc.old.engine) ask)) side) }
    ensures untouched { side_in result ≡ None → outside.new ≡ outside.old }
    ensures entered { O.entered outside.new ≡ O.entered outside.old }
{
    match outside_step(alloc, proc, outside, ask) {
        OutStep::Side(side) => {
            proc.owed = Some(ask);
            OutStep::Side(side)
        }
        OutStep::Opened(stream) => {
            proc.owed = Some(ask);
            OutStep::Opened(stream)
        }
        OutStep::NoMemory => OutStep::NoMemory,
    }
}

/// The time, where it comes beside this call; else nothing.
fn time_for<O: Outside>(outside: &mut O, ask: Ask) -> Side
    ensures side { IsTimeFor (O.clock outside.old) ask.call result }
    ensures outside { OutsideKeeps
        (telling (O.faults outside.old) (O.waits outside.old) (O.rests outside.old) (O.clock outside.old))
        (telling (O.faults outside.new) (O.waits outside.new) (O.rests outside.new) (O.clock outside.new)) }
    ensures entered { O.entered outside.new ≡ O.entered outside.old }
{
    if comes_with_clock(ask.call) {
        Side::Clock(outside.now())
    } else {
        Side::Nothing
    }
}

/// The outside is to answer the call.
fn is_outsides(call: u8) -> bool
    ensures { result ≡ is_outside (kind_of_call call) }
{
    match kind_of(call) {
        Some(Kind::Outside) => true,
        _ => false,
    }
}

/// What comes beside the ask of a turn, by the row of its call: the answer of the outside, the time, or nothing.
pub(crate) fn beside<E: Engine, O: Outside>(
    alloc: Global,
    proc: &mut Proc<E, O>,
    outside: &mut O,
    ask: Ask,
) -> OutStep<O::Stream>
    requires unowed { proc.old.owed ≡ None }
    requires asked { IsAsked (E.memory proc.old.engine) (shown_part proc.old) ask }
    requires order { AreInOrder proc.old }
    ensures engine { proc.new.engine ≡ proc.old.engine }
    ensures start { proc.new.start ≡ proc.old.start }
    ensures fuel { proc.new.fuel ≡ proc.old.fuel }
    ensures shed { proc.new.shed ≡ proc.old.shed }
    ensures came { IfSome (side_in result) (λ side.
        HasCome (told O.Stream.taken O.Stream.put O.Stream.faults O.Stream.waits O.Stream.empties O.Stream.down)
        (request_of (E.memory proc.old.engine) ask) proc.old proc.new side (arrived_in result)) }
    ensures time { IfSome (side_in result) (IsTimeOf (O.clock outside.old)) }
    ensures memory { side_in result ≡ None → proc.new ≡ proc.old }
    ensures outside { IfSome (side_in result) (λ side. OutsideGives
        (telling (O.faults outside.old) (O.waits outside.old) (O.rests outside.old) (O.clock outside.old))
        (telling (O.faults outside.new) (O.waits outside.new) (O.rests outside.new) (O.clock outside.new))
        (Some (request_of (E.memory proc.old.engine) ask)) side) }
    ensures untouched { side_in result ≡ None → outside.new ≡ outside.old }
    ensures entered { O.entered outside.new ≡ O.entered outside.old }
{
    if is_outsides(ask.call) {
        ask_outside(alloc, proc, outside, ask)
    } else {
        OutStep::Side(time_for(outside, ask))
    }
}
