//! The rules of the profile, in their order.
ghost use Rattle.std.specs.Prelude.{MatchOption};
ghost use Rattle.wasm_form.specs.Profile.{IsInProfile};
ghost use Rattle.wasm_form.specs.Verdict.{IsOutside};
ghost use Rattle.module_validator.specs.Host.{host};

use crate::floats::has_no_float;
use crate::imports::{imports_functions, imports_offered, imports_typed};
use crate::sizes::{
    has_few_globals, has_few_locals, has_few_parameters, has_small_memories, has_small_tables,
};
use wasm_form::Module;

/// The least rule of the profile that is broken; None where the module is inside the profile.
pub(crate) fn broken_profile_rule(module: &Module) -> Option<u8>
    ensures { MatchOption result (IsInProfile host «module».now)
        (λ rule. IsOutside host «module».now rule) }
{
    if !has_no_float(module) {
        Some(1)
    } else if !imports_functions(module) {
        Some(2)
    } else if !imports_offered(module) {
        Some(3)
    } else if !imports_typed(module) {
        Some(4)
    } else if !has_small_memories(module) {
        Some(5)
    } else if !has_small_tables(module) {
        Some(6)
    } else if !has_few_locals(module) {
        Some(7)
    } else if !has_few_globals(module) {
        Some(8)
    } else if !has_few_parameters(module) {
        Some(9)
    } else {
        None
    }
}
