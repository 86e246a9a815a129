ghost use Rattle.std.specs.Prelude.{◌≡◌, filter_map, IfOk};
ghost use Rattle.wasm_form.specs.Context.{function_of};
ghost use Rattle.wasm_form.specs.declared.parts.Import.{Import};

use memory_refusal::NoMemory;
use std::alloc::Global;
use wasm_form::{Import, Imported};

/// The imported functions, by the indexes of their types.
pub fn imported_functions(alloc: Global, imports: &[Import]) -> Result<Vec<u32>, NoMemory>
    ensures { IfOk result (λ v. v.items ≡ filter_map (λ (i : Import). function_of i.what) imports.now) }
{
    let mut functions = Vec::new(alloc);
    for import in imports {
        if let Imported::Function(index) = import.what {
            functions.push(index)?;
        }
    }
    Ok(functions)
}
