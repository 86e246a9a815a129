//! Which calls of the host a module imports.
ghost use Rattle.std.specs.Prelude.{◌≡◌, IfOk};
ghost use Rattle.module_validator.specs.Calls.{call_of, calls_of};

use memory_refusal::NoMemory;
use std::alloc::Global;
use wasm_form::{Import, Imported, Module};

/// The calls of the host that a module imports, in order: of an accepted module one for each imported function.
///
/// `NoMemory` comes for want of memory alone.
pub(crate) fn host_calls(alloc: Global, module: &Module) -> Result<Vec<u8>, NoMemory>
    ensures { IfOk result (λ calls. calls.items ≡ calls_of «module».now) }
{
    let mut calls = Vec::new(alloc);
    for import in module.imports() {
        if let Some(call) = host_call(import) {
            calls.push(call)?;
        }
    }
    Ok(calls)
}

/// The call of the host that an import is; None where it is no function, or the host serves nothing by its names.
fn host_call(import: &Import) -> Option<u8>
    ensures { result ≡ call_of import.now }
{
    let Imported::Function(_) = import.what else {
        return None;
    };
    let row = host_port::import(
        import.module.as_str().as_bytes(),
        import.name.as_str().as_bytes(),
    )?;
    Some(row.call)
}
