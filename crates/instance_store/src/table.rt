//! The table of an instance.
ghost use Rattle.std.specs.Prelude.{◌≡◌, ℕ, ◌+◌, ◌≤◌, true, All, IfOk, length, map, Some};
ghost use Rattle.std.specs.List.{fold};
ghost use Rattle.wasm_form.specs.declared.parts.Element.{Element};
ghost use Rattle.wasm_form.specs.Profile.{ImportsFunctions};
ghost use Rattle.tree_machine.specs.Instantiation.{new_table, first_table, overwritten, put_element, lies_in, value_of};
ghost use Rattle.instance_store.specs.Constants.{IsOneConstant};
ghost use Rattle.instance_store.specs.Segments.{elements_lie_in};

use crate::constant::constant;
use memory_refusal::NoMemory;
use std::alloc::Global;
use wasm_form::{Element, Module};

/// The elements with which the table begins; none without one.
pub(crate) fn table_size(module: &Module) -> u32
    requires { ImportsFunctions «module».now }
    ensures { result ≡ length (new_table «module».now) }
{
    match module.tables().first() {
        Some(bounds) => bounds.min,
        None => 0,
    }
}

/// The table after all element segments, which lie in it, were written in their order.
pub(crate) fn first_table(alloc: Global, module: &Module) -> Result<Vec<Option<u32>>, NoMemory>
    requires functions { ImportsFunctions «module».now }
    requires constant { All (λ (e : Element). IsOneConstant e.offset) «module».now.elements }
    requires inside { elements_lie_in (length (new_table «module».now)) «module».now.elements ≡ true }
    ensures { IfOk result (λ table. table.items ≡ first_table «module».now) }
{
    let mut table = vec![in alloc; None; table_size(module) as usize]?;
    put_elements(table.as_mut_slice(), module.elements());
    Ok(table)
}

/// Writes the element segments in their order.
fn put_elements(table: &mut [Option<u32>], elements: &[Element])
    requires constant { All (λ (e : Element). IsOneConstant e.offset) elements.now }
    requires inside { elements_lie_in (length table.old) elements.now ≡ true }
    ensures { table.new ≡ fold put_element table.old elements.now }
{
    for element in elements {
        write_element(table, element);
    }
}

/// Writes an element segment: its functions from its offset on.
fn write_element(table: &mut [Option<u32>], element: &Element)
    requires constant { IsOneConstant element.now.offset }
    requires inside { lies_in (length table.old) (value_of element.now.offset) (length element.now.functions) ≡ true }
    ensures { table.new ≡ put_element table.old element.now }
{
    let offset = constant(&element.offset).unwrap_or(0);
    write_functions(table, offset as usize, element.functions.as_slice());
}

/// Writes these functions from this place on.
fn write_functions(table: &mut [Option<u32>], at: usize, functions: &[u32])
    requires { at + length functions.now ≤ length table.old }
    ensures { table.new ≡ overwritten table.old at (map (λ (function : ℕ). Some function) functions.now) }
{
    for (place, function) in functions.iter().enumerate() {
        table[at + place] = Some(*function);
    }
}
