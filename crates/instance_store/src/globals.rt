//! The globals of an instance.
ghost use Rattle.std.specs.Prelude.{◌≡◌, All, IfOk};
ghost use Rattle.wasm_form.specs.declared.parts.GlobalDef.{GlobalDef};
ghost use Rattle.tree_machine.specs.Instantiation.{new_globals};
ghost use Rattle.instance_store.specs.Constants.{IsOneConstant};

use crate::constant::constant;
use memory_refusal::NoMemory;
use std::alloc::Global;
use wasm_form::Module;

/// Each global has the value of its expression.
pub(crate) fn new_globals(alloc: Global, module: &Module) -> Result<Vec<u64>, NoMemory>
    requires { All (λ (g : GlobalDef). IsOneConstant g.init) «module».now.globals }
    ensures { IfOk result (λ values. values.items ≡ new_globals «module».now) }
{
    let globals = module.globals();
    let mut values = Vec::with_capacity(alloc, globals.len())?;
    for global in globals {
        values.push(constant(&global.init).unwrap_or(0))?;
    }
    Ok(values)
}
