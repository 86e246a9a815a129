ghost use Rattle.std.specs.Prelude.{◌≡◌};
ghost use Rattle.wasm_form.specs.Modules.{IsSpelled};
ghost use Rattle.wasm_form.specs.Verdict.{IsAccepted};
ghost use Rattle.module_validator.specs.Calls.{IsItsMap};
ghost use Rattle.module_validator.specs.Host.{host};

use code_map::CodeMap;
use std::marker::Model;
use wasm_form::{Module, Parts};

/// A module that is accepted, inside the profile and valid, with the map of its code; seen as its parts and the map.
#[derive(Debug, Drop)]
pub struct Valid {
    module: Module,
    map: CodeMap,
}

impl Model for Valid {
    ghost use Rattle.wasm_form.specs.Verdict.{IsAccepted};
    ghost use Rattle.module_validator.specs.Calls.{IsItsMap};
    ghost use Rattle.module_validator.specs.Host.{host};
    ghost use Rattle.module_validator.specs.ValidModule.{ValidModule};

    ghost Value = { ValidModule };

    ghost view = { λ v. record { parts = v.«module»; map = v.map } };

    ghost invariant = { λ v. IsAccepted host v.«module» × IsItsMap v.«module» v.map };
}

impl Valid {
    /// The module, which is accepted, with the map of its code.
    pub(crate) fn of_accepted(accepted: Module, map: CodeMap) -> Valid
        requires accepted { IsAccepted host accepted }
        requires mapped { IsItsMap accepted map }
        ensures module { result.parts ≡ accepted }
        ensures map { result.map ≡ map }
    {
        Valid {
            module: accepted,
            map,
        }
    }

    /// The module.
    pub fn module(&self) -> &Module
        ensures is { result.now ≡ self.now.parts }
        ensures accepted { IsAccepted host self.now.parts }
    {
        &self.module
    }

    /// All the parts of the module.
    pub fn parts(&self) -> &Parts
        ensures is { result.now ≡ self.now.parts }
        ensures accepted { IsAccepted host self.now.parts }
        ensures spelled { IsSpelled self.now.parts }
    {
        self.module.parts()
    }

    /// The map of the module's code: where each branch leads, and what each call enters. Its imported functions are the
    /// calls of the host that the module imports, in order.
    pub fn map(&self) -> &CodeMap
        ensures is { result.now ≡ self.now.map }
        ensures mapped { IsItsMap self.now.parts self.now.map }
    {
        &self.map
    }
}
