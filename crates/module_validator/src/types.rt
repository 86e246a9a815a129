//! The rules of modules on types: of what functions are.
ghost use Rattle.std.specs.Prelude.{◌≡◌, ◌↔◌, IsTrue, ◌<◌, ⊤, MatchOption, All, length, slice_get};
ghost use Rattle.wasm_form.specs.declared.parts.Import.{Import};
ghost use Rattle.wasm_form.specs.Context.{function_of, functions_of};
ghost use Rattle.wasm_form.specs.Profile.{ImportsFunctions};
ghost use Rattle.wasm_form.specs.Validity.{HasSingleResults, HasFunctionTypes};

use wasm_form::{Import, Imported, Module};

/// Each function type has at most one result.
pub(crate) fn has_single_results(module: &Module) -> bool
    ensures { IsTrue result ↔ HasSingleResults «module».now }
{
    module.types().iter().all(|ty| ty.results.len() <= 1)
}

/// Each type index of an import or a function names a type.
pub(crate) fn has_function_types(module: &Module) -> bool
    requires { ImportsFunctions «module».now }
    ensures { IsTrue result ↔ HasFunctionTypes «module».now }
{
    are_all_below(module.imports(), module.functions(), module.types().len())
}

/// Each type index of an import or a function is less than this.
fn are_all_below(imports: &[Import], functions: &[u32], types: usize) -> bool
    ensures { IsTrue result
        ↔ (All (λ (i : Import). MatchOption (function_of i.what) ⊤ (λ index. index < types)) imports.now
        × All (λ index. index < types) functions.now) }
{
    import_types(imports, types) && are_below(functions, types)
}

/// Each type index of an import is less than this.
fn import_types(imports: &[Import], types: usize) -> bool
    ensures { IsTrue result ↔ All (λ (i : Import). MatchOption (function_of i.what) ⊤ (λ index. index < types)) imports.now }
{
    imports
        .iter()
        .all(|import| is_function_below(types, import.what))
}

fn is_function_below(types: usize, what: Imported) -> bool
    ensures { IsTrue result ↔ MatchOption (function_of what) ⊤ (λ index. index < types) }
{
    match what {
        Imported::Function(index) => (index as usize) < types,
        _ => true,
    }
}

/// Each of these indexes is less than this.
fn are_below(indexes: &[u32], types: usize) -> bool
    ensures { IsTrue result ↔ All (λ index. index < types) indexes.now }
{
    indexes.iter().all(|index| (*index as usize) < types)
}

/// The function's index is in range.
pub(crate) fn has_function(module: &Module, function: u32) -> bool
    requires { ImportsFunctions «module».now }
    ensures { IsTrue result ↔ (function < length (functions_of «module».now)) }
{
    let imported = module.imports().len();
    let place = function as usize;
    place < imported || place - imported < module.functions().len()
}

/// The index of the function's type; None where the function's index is out of range.
pub(crate) fn type_index(module: &Module, function: u32) -> Option<u32>
    requires { ImportsFunctions «module».now }
    ensures { result ≡ slice_get (functions_of «module».now) function }
{
    let imports = module.imports();
    match imports.get(function as usize) {
        Some(import) => function_index(import.what),
        None => module
            .functions()
            .get(function as usize - imports.len())
            .copied(),
    }
}

/// The index of the imported function's type; None where it is no function.
fn function_index(what: Imported) -> Option<u32>
    ensures { result ≡ function_of what }
{
    match what {
        Imported::Function(index) => Some(index),
        _ => None,
    }
}
