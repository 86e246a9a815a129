//! How many names each process stands under.
ghost use Rattle.std.specs.Prelude.{◌≡◌, ◌<◌, ◌+◌, ◌-◌, ◌^◌, ℕ, Some, OnOk, OnErr};
ghost use Rattle.name_registry.specs.Counts.{count_of, one_if};

use memory_refusal::NoMemory;
use std::collections::BTreeMap;

/// Counts one name more for a process. `NoMemory` comes for want of memory alone, and then the counts
/// are as they were.
pub(crate) fn one_more(counts: &mut BTreeMap<u64, u64>, pid: u64) -> Result<(), NoMemory>
    requires { count_of counts.old pid < 2 ^ 63 }
    ensures ok { OnOk result ((other : ℕ)
        → count_of counts.new other ≡ count_of counts.old other + one_if other (Some pid)) }
    ensures err { OnErr result ((other : ℕ) → count_of counts.new other ≡ count_of counts.old other) }
{
    let count = counts.get(&pid).copied().unwrap_or(0);
    counts.insert(pid, count + 1)?;
    Ok(())
}

/// Counts one name less for a process, if one is given. Who has none left has no entry.
pub(crate) fn one_less(counts: &mut BTreeMap<u64, u64>, pid: Option<u64>)
    ensures { (other : ℕ) → count_of counts.new other ≡ count_of counts.old other - one_if other pid }
{
    if let Some(pid) = pid {
        match counts.get(&pid).copied() {
            Some(count) if count > 1 => match counts.insert(pid, count - 1) {
                Ok(_) => {}
                Err(_) => unreachable!(),
            },
            _ => {
                counts.remove(&pid);
            }
        }
    }
}
