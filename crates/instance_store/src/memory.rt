//! The memory of an instance.
ghost use Rattle.std.specs.Prelude.{◌≡◌, ℕ, ◌*◌, ◌≤◌, true, All, IfOk, length, slice_get, Option, Some};
ghost use Rattle.std.specs.List.{fold};
ghost use Rattle.linear_memory.specs.Contents.{page_size};
ghost use Rattle.wasm_form.specs.declared.parts.Segment.{Segment};
ghost use Rattle.wasm_form.specs.Context.{memories_of};
ghost use Rattle.wasm_form.specs.Profile.{ImportsFunctions};
ghost use Rattle.wasm_form.specs.Validity.{IsLimits};
ghost use Rattle.tree_machine.specs.Begin.{least_pages};
ghost use Rattle.tree_machine.specs.Config.{bytes_of};
ghost use Rattle.tree_machine.specs.Instantiation.{new_memory, first_memory, most_pages, put_segment, lies_in, value_of};
ghost use Rattle.instance_store.specs.Constants.{IsOneConstant};
ghost use Rattle.instance_store.specs.Segments.{data_lie_in};

use crate::constant::constant;
use linear_memory::Memory;
use memory_refusal::NoMemory;
use std::alloc::Global;
use wasm_form::{Module, Segment};

/// The pages with which the memory begins; none without one.
pub(crate) fn least_pages(module: &Module) -> u32
    requires { ImportsFunctions «module».now }
    ensures { result ≡ least_pages (slice_get (memories_of «module».now) 0) }
{
    match module.memories().first() {
        Some(bounds) => bounds.min,
        None => 0,
    }
}

/// The most pages that a memory may have: its maximum, where it has one, and the limit of the process.
fn most_pages(limit: u32, max: Option<u32>) -> u32
    ensures { result ≡ most_pages limit max }
{
    match max {
        Some(max) => max.min(limit),
        None => limit,
    }
}

/// The memory after all data segments, which lie in it, were written in their order. It has room for the most pages
/// that it may have.
pub(crate) fn first_memory(
    alloc: Global,
    module: &Module,
    limit: u32,
) -> Result<Option<Memory>, NoMemory>
    requires functions { ImportsFunctions «module».now }
    requires limits { All IsLimits (memories_of «module».now) }
    requires constant { All (λ (s : Segment). IsOneConstant s.offset) «module».now.segments }
    requires pages { least_pages (slice_get (memories_of «module».now) 0) ≤ limit }
    requires few { limit ≤ 1024 }
    requires inside { data_lie_in (length (bytes_of (new_memory limit «module».now))) «module».now.segments ≡ true }
    ensures { IfOk result (λ memory. memory ≡ first_memory limit «module».now) }
{
    let Some(bounds) = module.memories().first() else {
        return Ok(None);
    };
    let mut memory = Memory::new(alloc, bounds.min, most_pages(limit, bounds.max))?;
    put_segments(&mut memory, module.segments());
    Ok(Some(memory))
}

/// Writes the data segments in their order.
fn put_segments(memory: &mut Memory, segments: &[Segment])
    requires few { length memory.old.bytes ≤ 1024 * page_size }
    requires constant { All (λ (s : Segment). IsOneConstant s.offset) segments.now }
    requires inside { data_lie_in (length memory.old.bytes) segments.now ≡ true }
    ensures { Some memory.new ≡ fold put_segment (Some memory.old) segments.now }
{
    for segment in segments {
        write_segment(memory, segment);
    }
}

/// Writes a data segment: its bytes from its offset on.
fn write_segment(memory: &mut Memory, segment: &Segment)
    requires few { length memory.old.bytes ≤ 1024 * page_size }
    requires constant { IsOneConstant segment.now.offset }
    requires inside { lies_in (length memory.old.bytes) (value_of segment.now.offset) (length segment.now.bytes) ≡ true }
    ensures { Some memory.new ≡ put_segment (Some memory.old) segment.now }
{
    let offset = constant(&segment.offset).unwrap_or(0);
    memory.fill_from(offset as u32, segment.bytes.as_slice());
}
