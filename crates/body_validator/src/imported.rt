ghost use Rattle.std.specs.Prelude.{◌≡◌, ◌↔◌, ◌<◌, length, filter_map, IfOk, IsTrue};
ghost use Rattle.wasm_form.specs.Context.{function_of, table_of, memory_of, global_of};
ghost use Rattle.wasm_form.specs.declared.parts.Import.{Import};

use memory_refusal::NoMemory;
use std::alloc::Global;
use wasm_form::{GlobalType, Import, Imported};

/// The imported functions, by the indexes of their types.
pub(crate) fn imported_functions(alloc: Global, imports: &[Import]) -> Result<Vec<u32>, NoMemory>
    ensures { IfOk result (λ v. v.items ≡ filter_map (λ (i : Import). function_of i.what) imports.now) }
{
    let mut functions = Vec::new(alloc);
    for import in imports {
        if let Imported::Function(index) = import.what {
            functions.push(index)?;
        }
    }
    Ok(functions)
}

/// The types of the imported globals.
pub(crate) fn imported_globals(
    alloc: Global,
    imports: &[Import],
) -> Result<Vec<GlobalType>, NoMemory>
    ensures { IfOk result (λ v. v.items ≡ filter_map (λ (i : Import). global_of i.what) imports.now) }
{
    let mut globals = Vec::new(alloc);
    for import in imports {
        if let Imported::Global(ty) = import.what {
            globals.push(ty)?;
        }
    }
    Ok(globals)
}

/// Whether a table is imported.
pub(crate) fn imports_table(imports: &[Import]) -> bool
    ensures { IsTrue result ↔ 0 < length (filter_map (λ (i : Import). table_of i.what) imports.now) }
{
    for import in imports {
        if let Imported::Table(_) = import.what {
            return true;
        }
    }
    false
}

/// Whether a memory is imported.
pub(crate) fn imports_memory(imports: &[Import]) -> bool
    ensures { IsTrue result ↔ 0 < length (filter_map (λ (i : Import). memory_of i.what) imports.now) }
{
    for import in imports {
        if let Imported::Memory(_) = import.what {
            return true;
        }
    }
    false
}
