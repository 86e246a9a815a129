//! What the profile says of imports: they are functions, which the host offers, of its types.
ghost use Rattle.std.specs.Prelude.{◌≡◌, ◌↔◌, IsTrue, IsSome, Some, None, MatchOption, All};
ghost use Rattle.std.specs.Prelude.{map, option_map, option_to_list};
ghost use Rattle.wasm_form.specs.Typing.{value_type};
ghost use Rattle.wasm_form.specs.Profile.{IsFunction, ImportsFunctions, ImportsOffered};
ghost use Rattle.wasm_form.specs.Profile.{HasHostType, ImportsTyped};
ghost use Rattle.module_validator.specs.Host.{host, shown_type};

use host_port::HostRow;
use wasm_form::{FuncType, Import, Imported, Module, ValType};
use wasm_ops::Num;

/// Every import is a function.
pub(crate) fn imports_functions(module: &Module) -> bool
    ensures { IsTrue result ↔ ImportsFunctions «module».now }
{
    module
        .imports()
        .iter()
        .all(|import| is_function(import.what))
}

/// The host offers a function by the names of each import.
pub(crate) fn imports_offered(module: &Module) -> bool
    ensures { IsTrue result ↔ ImportsOffered host «module».now }
{
    module
        .imports()
        .iter()
        .all(|import| row_of(import).is_some())
}

/// Every imported function whose type is there has the type that the host offers.
pub(crate) fn imports_typed(module: &Module) -> bool
    ensures { IsTrue result ↔ ImportsTyped host «module».now }
{
    module
        .imports()
        .iter()
        .all(|import| has_host_type(module, import))
}

fn is_function(what: Imported) -> bool
    ensures { IsTrue result ↔ IsFunction what }
{
    match what {
        Imported::Function(_) => true,
        _ => false,
    }
}

/// The row of the host table by the names of an import; None where the host offers nothing by them.
fn row_of(import: &Import) -> Option<&'static HostRow>
    ensures { MatchOption result (host import.now.«module» import.now.name ≡ None)
        (λ row. host import.now.«module» import.now.name ≡ Some (shown_type row.now)) }
{
    host_port::import(
        import.module.as_str().as_bytes(),
        import.name.as_str().as_bytes(),
    )
}

/// What is imported, if it is a function whose type is there, has the type that the host offers.
fn has_host_type(module: &Module, import: &Import) -> bool
    ensures { IsTrue result ↔ HasHostType host «module».now import.now }
{
    let Imported::Function(index) = import.what else {
        return true;
    };
    match (module.types().get(index as usize), row_of(import)) {
        (Some(ty), Some(row)) => is_type_of(ty, row),
        _ => true,
    }
}

/// The type is that of the call in the row.
fn is_type_of(ty: &FuncType, row: &HostRow) -> bool
    ensures { IsTrue result ↔ (ty.now ≡ shown_type row.now) }
{
    are_value_types(ty.params.as_slice(), row.params)
        && is_value_type(ty.results.as_slice(), row.result)
}

fn are_value_types(types: &[ValType], nums: &[Num]) -> bool
    ensures { IsTrue result ↔ (types.now ≡ map value_type nums.now) }
{
    if types.len() != nums.len() {
        return false;
    }
    for (place, num) in nums.iter().enumerate() {
        if types[place] != value_type(*num) {
            return false;
        }
    }
    true
}

fn is_value_type(types: &[ValType], num: Option<Num>) -> bool
    ensures { IsTrue result ↔ (types.now ≡ option_to_list (option_map value_type num)) }
{
    match (types, num) {
        ([], None) => true,
        ([ty], Some(num)) => *ty == value_type(num),
        _ => false,
    }
}

fn value_type(num: Num) -> ValType
    ensures { result ≡ value_type num }
{
    match num {
        Num::I32 => ValType::I32,
        Num::I64 => ValType::I64,
    }
}
