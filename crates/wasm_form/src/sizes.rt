ghost use Rattle.std.specs.Prelude.{◌≡◌, ◌<◌, ◌^◌, ◌↔◌, All, IsTrue, MatchOption, sum_by};
ghost use Rattle.wasm_form.specs.Ranges.{HasRanges, HasStartRange};
ghost use Rattle.wasm_form.specs.Spellable.{HasSizes, HasFewLocals};

use crate::least_length::{tables_length, vector_length};
use crate::{Body, LocalRun, Parts};

/// Whether the contents of each section can have a size of 32 bits.
pub fn have_sizes(parts: &Parts) -> bool
    ensures yes { IsTrue result → HasSizes parts.now × HasRanges parts.now }
    ensures no { HasSizes parts.now → IsTrue result }
{
    section_sizes(parts).is_some()
}

/// Something where the contents of each section can have a size of 32 bits.
fn section_sizes(parts: &Parts) -> Option<()>
    ensures { MatchOption result (HasSizes parts.now → ⊥) (λ _. HasSizes parts.now × HasRanges parts.now) }
{
    vector_length(&parts.types)?;
    vector_length(&parts.imports)?;
    vector_length(&parts.functions)?;
    tables_length(&parts.tables)?;
    vector_length(&parts.memories)?;
    vector_length(&parts.globals)?;
    vector_length(&parts.exports)?;
    check_start(parts.start);
    vector_length(&parts.elements)?;
    vector_length(&parts.bodies)?;
    vector_length(&parts.segments)?;
    Some(())
}

/// The index of a function has 32 bits. It computes nothing.
fn check_start(start: Option<u32>)
    ensures { HasStartRange start }
{
    if let Some(function) = start {
        let _read = function;
    }
}

/// Whether each body has fewer than 2 ^ 32 locals in all.
pub fn have_few_locals(bodies: &[Body]) -> bool
    ensures { IsTrue result ↔ All HasFewLocals bodies.now }
{
    for body in bodies {
        if !are_few(body.locals.as_slice()) {
            return false;
        }
    }
    true
}

/// Whether these are fewer than 2 ^ 32 locals in all (Core 1.0, 5.5.13).
pub fn are_few(runs: &[LocalRun]) -> bool
    ensures { IsTrue result ↔ (sum_by (λ run. run.count) runs.now < 2 ^ 32) }
{
    let mut total = 0u64;
    for run in runs {
        total += u64::from(run.count);
        if total >= 1 << 32 {
            return false;
        }
    }
    true
}
