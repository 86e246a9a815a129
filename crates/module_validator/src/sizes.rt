//! How much of each thing the profile allows.
ghost use Rattle.std.specs.Prelude.{◌≡◌, ◌↔◌, ◌+◌, ◌<◌, ◌≤◌, IsTrue, All, length, sum_by};
ghost use Rattle.wasm_form.specs.declared.types.FuncType.{FuncType};
ghost use Rattle.wasm_form.specs.declared.types.Bounds.{Bounds};
ghost use Rattle.wasm_form.specs.declared.body.LocalRun.{LocalRun};
ghost use Rattle.wasm_form.specs.Profile.{ImportsFunctions, HasSmallMemories, HasSmallTables};
ghost use Rattle.wasm_form.specs.Profile.{HasFewLocals, HasFewGlobals, HasFewParameters};
ghost use Rattle.module_validator.specs.Sizes.{HasFewLocalsAt};

use wasm_form::{Bounds, LocalRun, Module};

/// The most pages that a memory may have from the start.
const PAGES: u32 = 1024;

/// The most elements that a table may have from the start.
const TABLE_ELEMENTS: u32 = 10_000;

/// The most parameters and locals of a function.
const LOCALS: usize = 50_000;

/// The most globals of a module.
const GLOBALS: usize = 10_000;

/// The most parameters of a function type.
const PARAMETERS: usize = 1000;

/// Each memory's minimum is at most 1,024 pages.
pub(crate) fn has_small_memories(module: &Module) -> bool
    requires { ImportsFunctions «module».now }
    ensures { IsTrue result ↔ HasSmallMemories «module».now }
{
    are_small(module.memories(), PAGES)
}

/// Each table's minimum is at most 10,000 elements.
pub(crate) fn has_small_tables(module: &Module) -> bool
    requires { ImportsFunctions «module».now }
    ensures { IsTrue result ↔ HasSmallTables «module».now }
{
    are_small(module.tables(), TABLE_ELEMENTS)
}

/// Each minimum is at most this.
fn are_small(bounds: &[Bounds], most: u32) -> bool
    ensures { IsTrue result ↔ All (λ (b : Bounds). b.min ≤ most) bounds.now }
{
    bounds.iter().all(|bounds| bounds.min <= most)
}

/// Each body whose type is there has at most 50,000 parameters and locals together.
pub(crate) fn has_few_locals(module: &Module) -> bool
    ensures { IsTrue result ↔ HasFewLocals «module».now }
{
    for place in 0..module.functions().len() {
        if !has_few_locals_at(module, place) {
            return false;
        }
    }
    true
}

/// The body at this place, where its type is there, has at most 50,000 parameters and locals.
fn has_few_locals_at(module: &Module, place: usize) -> bool
    requires { place < length «module».now.functions }
    ensures { IsTrue result ↔ HasFewLocalsAt «module».now place }
{
    let index = module.functions()[place];
    let Some(ty) = module.types().get(index as usize) else {
        return true;
    };
    let Some(body) = module.bodies().get(place) else {
        return true;
    };
    has_few(ty.params.len(), body.locals.as_slice())
}

/// So many parameters and the locals of these runs are at most 50,000 together.
fn has_few(params: usize, runs: &[LocalRun]) -> bool
    ensures { IsTrue result ↔ (params + sum_by (λ (run : LocalRun). run.count) runs.now ≤ 50000) }
{
    if params > LOCALS {
        return false;
    }
    let mut total = params;
    let mut left = runs;
    while let Some((run, rest)) = left.split_first() {
        total += run.count as usize;
        if total > LOCALS {
            return false;
        }
        left = rest;
    }
    true
}

/// There are at most 10,000 globals.
pub(crate) fn has_few_globals(module: &Module) -> bool
    requires { ImportsFunctions «module».now }
    ensures { IsTrue result ↔ HasFewGlobals «module».now }
{
    module.globals().len() <= GLOBALS
}

/// Each function type has at most 1,000 parameters.
pub(crate) fn has_few_parameters(module: &Module) -> bool
    ensures { IsTrue result ↔ HasFewParameters «module».now }
{
    module
        .types()
        .iter()
        .all(|ty| ty.params.len() <= PARAMETERS)
}
