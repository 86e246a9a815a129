//! The rules of modules on tables and memories.
ghost use Rattle.std.specs.Prelude.{◌≡◌, ◌↔◌, IsTrue, All};
ghost use Rattle.wasm_form.specs.Profile.{ImportsFunctions};
ghost use Rattle.wasm_form.specs.Validity.{IsLimits, IsWithin, HasOneTable, HasOneMemory, HasLimits};

use wasm_form::{Bounds, Module};

/// The most pages of a memory (Core 1.0, 3.2.4).
const PAGES: u32 = 65_536;

/// There is at most one table.
pub(crate) fn has_one_table(module: &Module) -> bool
    requires { ImportsFunctions «module».now }
    ensures { IsTrue result ↔ HasOneTable «module».now }
{
    module.tables().len() <= 1
}

/// There is at most one memory.
pub(crate) fn has_one_memory(module: &Module) -> bool
    requires { ImportsFunctions «module».now }
    ensures { IsTrue result ↔ HasOneMemory «module».now }
{
    module.memories().len() <= 1
}

/// The limits of tables and memories are in order, those of memories at most 65,536 pages.
pub(crate) fn has_limits(module: &Module) -> bool
    requires { ImportsFunctions «module».now }
    ensures { IsTrue result ↔ HasLimits «module».now }
{
    are_all_limits(module.tables(), module.memories())
}

fn are_all_limits(tables: &[Bounds], memories: &[Bounds]) -> bool
    ensures { IsTrue result
        ↔ (All IsLimits tables.now × All IsLimits memories.now × All (IsWithin 65536) memories.now) }
{
    are_limits(tables) && are_limits(memories) && are_within(memories)
}

fn are_limits(bounds: &[Bounds]) -> bool
    ensures { IsTrue result ↔ All IsLimits bounds.now }
{
    bounds.iter().all(|bounds| is_limits(*bounds))
}

fn are_within(bounds: &[Bounds]) -> bool
    ensures { IsTrue result ↔ All (IsWithin 65536) bounds.now }
{
    bounds.iter().all(|bounds| is_within(*bounds))
}

/// The minimum is not above the maximum.
fn is_limits(bounds: Bounds) -> bool
    ensures { IsTrue result ↔ IsLimits bounds }
{
    match bounds.max {
        Some(max) => bounds.min <= max,
        None => true,
    }
}

/// Neither the minimum nor the maximum is above what a memory may have.
fn is_within(bounds: Bounds) -> bool
    ensures { IsTrue result ↔ IsWithin 65536 bounds }
{
    match bounds.max {
        Some(max) => bounds.min <= PAGES && max <= PAGES,
        None => bounds.min <= PAGES,
    }
}
