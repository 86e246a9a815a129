//! The functions of a module, in their order.
ghost use Rattle.std.specs.Prelude.{IfOk, MatchOption};
ghost use Rattle.wasm_form.specs.Validity.{HasSingleResults};
ghost use Rattle.module_validator.specs.Order.{HasTypedFunctions, IsFirstUntyped};

use body_validator::ModuleContext;
use memory_refusal::NoMemory;
use std::alloc::Global;
use wasm_form::Module;

/// The place of the first body that isn't typed; None where each is.
pub(crate) fn untyped_function(alloc: Global, module: &Module) -> Result<Option<u32>, NoMemory>
    requires { HasSingleResults «module».now }
    ensures { IfOk result (λ untyped. MatchOption untyped (HasTypedFunctions «module».now)
        (λ place. IsFirstUntyped «module».now place)) }
{
    let parts = module.parts();
    let context = ModuleContext::new(alloc, module)?;
    for place in 0..parts.bodies.len() {
        if !context.check(alloc, place)? {
            return Ok(Some(place as u32));
        }
    }
    Ok(None)
}
