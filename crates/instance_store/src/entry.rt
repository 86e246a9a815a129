//! The entry function.
ghost use Rattle.std.specs.Prelude.{◌≡◌, find, option_copied, option_map, option_and_then};
ghost use Rattle.wasm_form.specs.Profile.{ImportsFunctions};
ghost use Rattle.tree_machine.specs.Functions.{Function, own_function, defined_function};
ghost use Rattle.tree_machine.specs.Begin.{is_function, is_entry, entry_of};

use wasm_form::{Export, ExportKind, FuncType, Module};

/// The index of the entry function: of the first export under this name that is a function of the module's own.
pub(crate) fn entry(module: &Module, name: &[u8]) -> Option<u32>
    requires { ImportsFunctions «module».now }
    ensures { result ≡ entry_of «module».now name.now }
{
    match exported_entry(module.exports(), module, name) {
        Some(export) => Some(export.index),
        None => None,
    }
}

/// The first of these exports that is a function of the module's own under this name.
fn exported_entry<'a>(exports: &'a [Export], module: &Module, name: &[u8]) -> Option<&'a Export>
    requires { ImportsFunctions «module».now }
    ensures { option_copied result ≡ find (is_entry «module».now name.now) exports.now }
{
    exports.iter().find(|export| is_entry(module, name, export))
}

/// A function that the module defines is exported under this name; an imported one is none.
fn is_entry(module: &Module, name: &[u8], export: &Export) -> bool
    requires { ImportsFunctions «module».now }
    ensures { result ≡ is_entry «module».now name.now export.now }
{
    export.name.as_str().as_bytes() == name
        && is_function(export.kind)
        && own_type(module, export.index).is_some()
}

/// What is exported is a function.
fn is_function(kind: ExportKind) -> bool
    ensures { result ≡ is_function kind }
{
    match kind {
        ExportKind::Function => true,
        _ => false,
    }
}

/// The type of the function with this index, if the module defines it; the imported functions have the first indexes.
fn own_type<'a>(module: &'a Module, index: u32) -> Option<&'a FuncType>
    requires { ImportsFunctions «module».now }
    ensures { option_copied result ≡ option_map (λ (f : Function). f.ty) (own_function «module».now index) }
{
    let imported = module.imports().len();
    let index = index as usize;
    if index < imported {
        return None;
    }
    defined_type(module, index - imported)
}

/// The type of the function at this place among those that the module defines.
fn defined_type<'a>(module: &'a Module, place: usize) -> Option<&'a FuncType>
    ensures { option_copied result ≡ option_map (λ (f : Function). f.ty) (defined_function «module».now place) }
{
    if place >= module.bodies().len() {
        return None;
    }
    match module.functions().get(place) {
        Some(ty) => module.types().get(*ty as usize),
        None => None,
    }
}

/// The type of the entry function.
pub(crate) fn entry_type<'a>(module: &'a Module, name: &[u8]) -> Option<&'a FuncType>
    requires { ImportsFunctions «module».now }
    ensures { option_copied result
        ≡ option_map (λ (f : Function). f.ty) (option_and_then (own_function «module».now) (entry_of «module».now name.now)) }
{
    match entry(module, name) {
        Some(index) => own_type(module, index),
        None => None,
    }
}
