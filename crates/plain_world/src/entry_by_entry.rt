ghost use Rattle.std.specs.Prelude.{IfOk};
ghost use Rattle.plain_world.specs.Shown.{shown_world};
ghost use Rattle.plain_world.specs.Applied.{IsApplied};

use crate::PlainWorld;
use memory_refusal::NoMemory;
use world_rules::{Birth, Entry};

/// The world after this entry; None exactly where the entry is not allowed. What spawns come to is taken from the
/// births, and nothing is tested against terms. `NoMemory` comes where `allows` or `advance` answers it; then the
/// world is let go.
pub fn apply(
    world: PlainWorld,
    births: &[Birth],
    entry: &Entry,
) -> Result<Option<PlainWorld>, NoMemory>
    ensures { IfOk result (λ next. IsApplied births.now (shown_world world) entry.now next) }
{
    if !world.allows(births, entry)? {
        return Ok(None);
    }
    let mut next = world;
    next.advance(births, entry)?;
    Ok(Some(next))
}
