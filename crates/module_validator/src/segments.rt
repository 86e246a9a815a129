//! The rules of modules on element and data segments.
ghost use Rattle.std.specs.Prelude.{◌≡◌, ◌↔◌, IsTrue, ◌<◌, All, length};
ghost use Rattle.wasm_form.specs.Context.{functions_of};
ghost use Rattle.wasm_form.specs.Profile.{ImportsFunctions};
ghost use Rattle.wasm_form.specs.Validity.{IsElement, HasElements, IsSegment, HasSegments};
ghost use Rattle.module_validator.specs.Constants.{IsDataSegment};

use crate::constant::is_constant_expr;
use crate::types::has_function;
use wasm_form::{Element, Module, Segment, ValType};

/// Each element segment is valid.
pub(crate) fn has_elements(module: &Module) -> bool
    requires { ImportsFunctions «module».now }
    ensures { IsTrue result ↔ HasElements «module».now }
{
    module
        .elements()
        .iter()
        .all(|element| is_element(module, element))
}

/// Each data segment is valid.
pub(crate) fn has_segments(module: &Module) -> bool
    requires { ImportsFunctions «module».now }
    ensures { IsTrue result ↔ HasSegments «module».now }
{
    are_data_segments(module)
}

fn are_data_segments(module: &Module) -> bool
    requires { ImportsFunctions «module».now }
    ensures { IsTrue result ↔ All (IsDataSegment «module».now) «module».now.segments }
{
    module
        .segments()
        .iter()
        .all(|segment| is_data_segment(module, segment))
}

fn is_data_segment(module: &Module, segment: &Segment) -> bool
    requires { ImportsFunctions «module».now }
    ensures { IsTrue result ↔ IsDataSegment «module».now segment.now }
{
    is_segment(module, segment)
}

/// The segment's table is there, its offset is constant, and its functions are there.
fn is_element(module: &Module, element: &Element) -> bool
    requires { ImportsFunctions «module».now }
    ensures { IsTrue result ↔ IsElement «module».now element.now }
{
    let tables = module.tables();
    if element.table as usize >= tables.len() {
        return false;
    }
    if !is_constant_expr(module, &element.offset, ValType::I32) {
        return false;
    }
    have_functions(module, element.functions.as_slice())
}

fn have_functions(module: &Module, functions: &[u32]) -> bool
    requires { ImportsFunctions «module».now }
    ensures { IsTrue result ↔ All (λ function. function < length (functions_of «module».now)) functions.now }
{
    functions
        .iter()
        .all(|function| has_function(module, *function))
}

/// The segment's memory is there, and its offset is constant.
fn is_segment(module: &Module, segment: &Segment) -> bool
    requires { ImportsFunctions «module».now }
    ensures { IsTrue result ↔ IsSegment «module».now segment.now }
{
    let memories = module.memories();
    if segment.memory as usize >= memories.len() {
        return false;
    }
    is_constant_expr(module, &segment.offset, ValType::I32)
}
