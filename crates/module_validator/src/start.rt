//! The rule of modules on the start function.
ghost use Rattle.std.specs.Prelude.{◌≡◌, ◌↔◌, IsTrue, []};
ghost use Rattle.wasm_form.specs.Profile.{ImportsFunctions};
ghost use Rattle.wasm_form.specs.Validity.{IsStart, HasStart};

use crate::types::type_index;
use wasm_form::{FuncType, Module};

/// The start function, where there is one, is there, and takes and gives nothing.
pub(crate) fn has_start(module: &Module) -> bool
    requires { ImportsFunctions «module».now }
    ensures { IsTrue result ↔ HasStart «module».now }
{
    match module.start() {
        Some(function) => is_start(module, function),
        None => true,
    }
}

/// The function is there, and takes and gives nothing.
fn is_start(module: &Module, function: u32) -> bool
    requires { ImportsFunctions «module».now }
    ensures { IsTrue result ↔ IsStart «module».now function }
{
    let Some(index) = type_index(module, function) else {
        return false;
    };
    let Some(ty) = module.types().get(index as usize) else {
        return false;
    };
    takes_nothing(ty)
}

/// The type is from nothing to nothing.
fn takes_nothing(ty: &FuncType) -> bool
    ensures { IsTrue result ↔ ((ty.now.params ≡ []) × (ty.now.results ≡ [])) }
{
    ty.params.is_empty() && ty.results.is_empty()
}
