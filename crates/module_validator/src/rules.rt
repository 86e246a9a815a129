//! The rules of modules, in their order.
ghost use Rattle.std.specs.Prelude.{IfOk, MatchOption};
ghost use Rattle.wasm_form.specs.Profile.{ImportsFunctions};
ghost use Rattle.wasm_form.specs.Validity.{KeepsRules};
ghost use Rattle.module_validator.specs.Order.{IsLeastBroken};

use crate::constant::has_constant_globals;
use crate::exports::{has_distinct_names, has_exported};
use crate::limits::{has_limits, has_one_memory, has_one_table};
use crate::segments::{has_elements, has_segments};
use crate::start::has_start;
use crate::types::{has_function_types, has_single_results};
use memory_refusal::NoMemory;
use std::alloc::Global;
use wasm_form::Module;

/// The least rule of modules that is broken; None where the module keeps each.
pub(crate) fn broken_rule(alloc: Global, module: &Module) -> Result<Option<u8>, NoMemory>
    requires { ImportsFunctions «module».now }
    ensures { IfOk result (λ broken. MatchOption broken (KeepsRules «module».now)
        (λ rule. IsLeastBroken «module».now rule)) }
{
    if !has_single_results(module) {
        Ok(Some(1))
    } else if !has_function_types(module) {
        Ok(Some(2))
    } else if !has_one_table(module) {
        Ok(Some(3))
    } else if !has_one_memory(module) {
        Ok(Some(4))
    } else if !has_limits(module) {
        Ok(Some(5))
    } else if !has_constant_globals(module) {
        Ok(Some(6))
    } else if !has_exported(module) {
        Ok(Some(7))
    } else if !has_distinct_names(alloc, module)? {
        Ok(Some(8))
    } else if !has_start(module) {
        Ok(Some(9))
    } else if !has_elements(module) {
        Ok(Some(10))
    } else if !has_segments(module) {
        Ok(Some(11))
    } else {
        Ok(None)
    }
}
