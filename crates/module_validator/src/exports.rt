//! The rules of modules on exports.
ghost use Rattle.std.specs.Prelude.{◌≡◌, ◌↔◌, IsTrue, ◌<◌, true, false, Ok};
ghost use Rattle.wasm_form.specs.Profile.{ImportsFunctions};
ghost use Rattle.wasm_form.specs.Validity.{count_of, HasExported, HasDistinctNames};

use crate::types::has_function;
use memory_refusal::NoMemory;
use std::alloc::Global;
use std::collections::BTreeSet;
use wasm_form::{Export, ExportKind, Module};

/// Each export's index is in range.
pub(crate) fn has_exported(module: &Module) -> bool
    requires { ImportsFunctions «module».now }
    ensures { IsTrue result ↔ HasExported «module».now }
{
    module
        .exports()
        .iter()
        .all(|export| is_exported(module, export))
}

/// The export's index is in range.
fn is_exported(module: &Module, export: &Export) -> bool
    requires { ImportsFunctions «module».now }
    ensures { IsTrue result ↔ (export.now.index < count_of «module».now export.now.kind) }
{
    let index = export.index as usize;
    match export.kind {
        ExportKind::Function => has_function(module, export.index),
        ExportKind::Table => index < module.tables().len(),
        ExportKind::Memory => index < module.memories().len(),
        ExportKind::Global => index < module.globals().len(),
    }
}

/// The export names are distinct.
pub(crate) fn has_distinct_names(alloc: Global, module: &Module) -> Result<bool, NoMemory>
    ensures yes { result ≡ Ok true → HasDistinctNames «module».now }
    ensures no { result ≡ Ok false → ¬ HasDistinctNames «module».now }
{
    let mut names: BTreeSet<&str> = BTreeSet::new(alloc);
    let exports = module.exports();
    for export in exports {
        if !names.insert(export.name.as_str())? {
            return Ok(false);
        }
    }
    Ok(true)
}
