ghost use Rattle.std.specs.Prelude.{◌≡◌, IfOk, IfErr};
ghost use Rattle.wasm_form.specs.Verdict.{IsAccepted};
ghost use Rattle.module_validator.specs.Host.{host};
ghost use Rattle.module_validator.specs.Answers.{IsRefusalOf};
ghost use Rattle.module_validator.specs.Calls.{IsItsMap};

use crate::calls::host_calls;
use crate::functions::untyped_function;
use crate::profile::broken_profile_rule;
use crate::rules::broken_rule;
use crate::{Place, Refused, Valid};
use code_map::CodeMap;
use memory_refusal::NoMemory;
use std::alloc::Global;
use wasm_form::Module;

/// The module with the map of its code, where it is inside the profile and valid.
///
/// `Outside` names the least rule of the profile that is broken, `Invalid` the least rule of modules
/// that is broken or else the first body that isn't typed; the profile is judged before validity.
/// `NoMemory` comes for want of memory alone. The module is dropped where it is refused.
pub fn accept(alloc: Global, module: Module) -> Result<Valid, Refused>
    ensures same { IfOk result (λ valid. valid.parts ≡ «module») }
    ensures accepted { IfOk result (λ valid. IsAccepted host «module») }
    ensures refused { IfErr result (λ refused. IsRefusalOf «module» refused) }
{
    if let Some(rule) = broken_profile_rule(&module) {
        return Err(Refused::Outside(rule));
    }
    if let Some(rule) = broken_rule(alloc, &module)? {
        return Err(Refused::Invalid(Place::Rule(rule)));
    }
    if let Some(place) = untyped_function(alloc, &module)? {
        return Err(Refused::Invalid(Place::Function(place)));
    }
    let map = map_of(alloc, &module)?;
    Ok(Valid::of_accepted(module, map))
}

/// The map of the code of an accepted module. `NoMemory` comes for want of memory alone.
fn map_of(alloc: Global, module: &Module) -> Result<CodeMap, NoMemory>
    requires { IsAccepted host «module».now }
    ensures { IfOk result (λ map. IsItsMap «module».now map) }
{
    let calls = host_calls(alloc, module)?;
    CodeMap::of(alloc, module, calls.as_slice())
}
