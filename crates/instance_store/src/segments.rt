//! Where segments lie. All of them are judged before any is written.
ghost use Rattle.std.specs.Prelude.{◌≡◌, ℕ, All, length};
ghost use Rattle.wasm_form.specs.declared.parts.Element.{Element};
ghost use Rattle.wasm_form.specs.declared.parts.Segment.{Segment};
ghost use Rattle.tree_machine.specs.Instantiation.{lies_in, segments_lie_in};
ghost use Rattle.instance_store.specs.Constants.{IsOneConstant};
ghost use Rattle.instance_store.specs.Segments.{elements_lie_in, data_lie_in};

use crate::constant::constant;
use wasm_form::{Element, Segment};

/// Each element segment lies in a table of so many places.
pub(crate) fn elements_lie_in(places: u64, elements: &[Element]) -> bool
    requires { All (λ (e : Element). IsOneConstant e.offset) elements.now }
    ensures { result ≡ elements_lie_in places elements.now }
{
    for element in elements {
        if !lies_in(places, constant(&element.offset), element.functions.len()) {
            return false;
        }
    }
    true
}

/// Each data segment lies in a memory of so many bytes.
pub(crate) fn data_lie_in(places: u64, segments: &[Segment]) -> bool
    requires { All (λ (s : Segment). IsOneConstant s.offset) segments.now }
    ensures { result ≡ data_lie_in places segments.now }
{
    for segment in segments {
        if !lies_in(places, constant(&segment.offset), segment.bytes.len()) {
            return false;
        }
    }
    true
}

/// So many places from this offset on lie among those that there are.
fn lies_in(places: u64, offset: Option<u64>, count: usize) -> bool
    ensures { result ≡ lies_in places offset count }
{
    match offset {
        Some(offset) => match offset.checked_add(count as u64) {
            Some(end) => end <= places,
            None => false,
        },
        None => false,
    }
}
