//! The parameters that the entry function is given.
ghost use Rattle.std.specs.Prelude.{◌≡◌, ◌↔◌, map, IsTrue, IfOk};
ghost use Rattle.host_port.specs.TypedValue.{TypedValue};
ghost use Rattle.wasm_form.specs.Typing.{value_type};

use host_port::Param;
use memory_refusal::NoMemory;
use std::alloc::Global;
use wasm_form::ValType;
use wasm_ops::Num;

/// These are the types of the parameters, in order.
pub(crate) fn are_types_of(types: &[ValType], params: &[Param]) -> bool
    ensures { IsTrue result ↔ (types.now ≡ map (λ (p : TypedValue). value_type p.num) params.now) }
{
    if types.len() != params.len() {
        return false;
    }
    for (place, param) in params.iter().enumerate() {
        if types[place] != value_type(param.num()) {
            return false;
        }
    }
    true
}

/// The value type that an integer type is.
fn value_type(num: Num) -> ValType
    ensures { result ≡ value_type num }
{
    match num {
        Num::I32 => ValType::I32,
        Num::I64 => ValType::I64,
    }
}

/// The numbers that the parameters' bits spell, in order.
pub(crate) fn values(alloc: Global, params: &[Param]) -> Result<Vec<u64>, NoMemory>
    ensures { IfOk result (λ values. values.items ≡ map (λ (p : TypedValue). p.value) params.now) }
{
    let mut values = Vec::with_capacity(alloc, params.len())?;
    for param in params {
        values.push(param.value())?;
    }
    Ok(values)
}
