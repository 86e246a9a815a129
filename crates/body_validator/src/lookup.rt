ghost use Rattle.std.specs.Prelude.{◌≡◌, slice_get, option_copied};

use wasm_form::{Body, FuncType, GlobalType};

/// The type with this index; none past the last.
pub(crate) fn type_at(types: &[FuncType], index: u32) -> Option<&FuncType>
    ensures { option_copied result ≡ slice_get types.now index }
{
    types.get(index as usize)
}

/// The type of the global with this index; none past the last.
pub(crate) fn global_at(globals: &[GlobalType], index: u32) -> Option<GlobalType>
    ensures { result ≡ slice_get globals.now index }
{
    globals.get(index as usize).copied()
}

/// The index of the type of the function with this index; none past the last.
pub(crate) fn function_at(functions: &[u32], index: usize) -> Option<u32>
    ensures { result ≡ slice_get functions.now index }
{
    functions.get(index).copied()
}

/// The body of the function at this place; none past the last.
pub(crate) fn body_at(bodies: &[Body], place: usize) -> Option<&Body>
    ensures { option_copied result ≡ slice_get bodies.now place }
{
    bodies.get(place)
}
