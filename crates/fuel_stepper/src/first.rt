//! Where the machine of a module stands before its first function is entered.
ghost use Rattle.std.specs.Prelude.{◌≡◌, ◌≤◌, map, slice_get};
ghost use Rattle.wasm_form.specs.Typing.{value_type};
ghost use Rattle.tree_machine.specs.Typed.{AreValues, IsTypedStart};
ghost use Rattle.flat_machine.specs.Stands.{size_of_body};
ghost use Rattle.fuel_stepper.specs.First.{first_results};

use code_map::{Callee, CodeMap};
use host_port::{Param, Start};
use wasm_form::Parts;

/// How many instructions the first body has, its end among them; none without a body.
pub(crate) fn first_size(parts: &Parts) -> usize
    ensures { result ≡ size_of_body (slice_get parts.now.bodies 0) }
{
    match parts.bodies.as_slice().get(0) {
        Some(body) => body.expr.code.as_slice().len(),
        None => 0,
    }
}

/// How many results the first function has that the module defines; none without one.
pub(crate) fn first_results(parts: &Parts, map: &CodeMap) -> usize
    ensures is { result ≡ first_results parts.now map.now }
    ensures few { result ≤ 1 }
{
    let imported = map.callees.len().saturating_sub(parts.bodies.len());
    match map.callees.as_slice().get(imported) {
        Some(Callee::Own { gives: true, .. }) => 1,
        _ => 0,
    }
}

/// The start is one of a process, as its parts say: few pages, and parameters that are numbers of their types.
pub(crate) fn is_typed(start: &Start)
    ensures { IsTypedStart start.now }
{
    let _pages = start.limits.pages();
    are_typed(start.params.as_slice());
}

/// The parameters are numbers of their types, as each of them says.
fn are_typed(params: &[Param])
    ensures { AreValues (map (λ p. value_type p.num) params.now) (map (λ p. p.value) params.now) }
{
    for param in params {
        let _value = param.value();
    }
}
