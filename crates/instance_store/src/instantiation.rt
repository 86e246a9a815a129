//! Instantiation.
ghost use Rattle.std.specs.Prelude.{◌≡◌, ◌≢◌, None, Some, IfOk, IfErr};
ghost use Rattle.wasm_form.specs.Verdict.{IsAccepted};
ghost use Rattle.module_validator.specs.Host.{host};
ghost use Rattle.tree_machine.specs.Begin.{begin, instance_of};
ghost use Rattle.instance_store.specs.Instance.{config_of};

use crate::Store;
use crate::globals::new_globals;
use crate::invocation::invocations;
use crate::memory::first_memory;
use crate::refusal::refusal;
use crate::table::first_table;
use host_port::{Start, StartRefusal};
use memory_refusal::NoMemory;
use module_validator::Valid;
use std::alloc::Global;
use wasm_form::Module;

/// Instantiates a module (Core 1.0, 4.5.4): the globals with their values, the table and the memory after all segments,
/// and the functions to be entered, the start function before the entry. The first of `NoExport`, `BadParams`,
/// `PagesOver` and `SegmentOut` that applies refuses it, before any memory is taken; `NoMemory` comes where none does.
pub fn instantiate(alloc: Global, valid: &Valid, start: &Start) -> Result<Store, StartRefusal>
    ensures begins { IfOk result (λ store. begin valid.now.parts start.now ≡ None) }
    ensures made { IfOk result (λ store. config_of store ≡ instance_of valid.now.parts start.now) }
    ensures refused { IfErr result (λ why. why ≢ StartRefusal.NoMemory → begin valid.now.parts start.now ≡ Some why) }
    ensures wants { IfErr result (λ why. why ≡ StartRefusal.NoMemory → begin valid.now.parts start.now ≡ None) }
{
    let module = valid.module();
    if let Some(why) = refusal(module, start) {
        return Err(why);
    }
    match instance(alloc, module, start) {
        Ok(store) => Ok(store),
        Err(NoMemory) => Err(StartRefusal::NoMemory),
    }
}

/// The instance of a module that is not refused.
fn instance(alloc: Global, module: &Module, start: &Start) -> Result<Store, NoMemory>
    requires accepted { IsAccepted host «module».now }
    requires begins { begin «module».now start.now ≡ None }
    ensures { IfOk result (λ store. config_of store ≡ instance_of «module».now start.now) }
{
    Ok(Store::of(
        new_globals(alloc, module)?,
        first_table(alloc, module)?,
        first_memory(alloc, module, start.limits.pages())?,
        invocations(alloc, module, start)?,
    ))
}
