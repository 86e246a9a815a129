ghost use Rattle.std.specs.Prelude.{◌≡◌, ◌≤◌, ◌∷◌, ℕ, MatchOption, vec_capacity};
ghost use Rattle.std.specs.BTreeMap.{btree_map_len};
ghost use Rattle.std.specs.FinMap as map;
ghost use Rattle.link_signals.specs.Fall.{IsFall, is_among};
ghost use Rattle.link_signals.specs.Spread.{FallsNext, lets_fall, falls_by, dies_by};

use std::collections::BTreeMap;

/// Finds who falls with the first process: writes the others by rising number into `others`, whose
/// room is enough for every process.
pub(crate) fn spread(
    processes: &BTreeMap<u64, bool>,
    tags: &BTreeMap<(u64, u64), u64>,
    first: u64,
    others: &mut Vec<u64>,
)
    requires { btree_map_len processes.now ≤ vec_capacity others.old }
    ensures fall { IsFall (map.from_entries processes.now.entries) (map.from_entries tags.now.entries) first (first ∷ others.new.items) }
    ensures capacity { vec_capacity others.old ≤ vec_capacity others.new }
{
    others.clear();
    while let Some(pid) = next_to_fall(processes, tags, first, others) {
        match others.push(pid) {
            Ok(()) => {}
            Err(_) => unreachable!(),
        }
    }
    others.sort_unstable();
}

/// A process that is not among the members yet, is linked with one of them and dies with links.
fn next_to_fall(
    processes: &BTreeMap<u64, bool>,
    tags: &BTreeMap<(u64, u64), u64>,
    first: u64,
    others: &[u64],
) -> Option<u64>
    ensures { MatchOption result
        ((pid : ℕ) → FallsNext (map.from_entries processes.now.entries) (map.from_entries tags.now.entries) (first ∷ others.now) pid → ⊥)
        (FallsNext (map.from_entries processes.now.entries) (map.from_entries tags.now.entries) (first ∷ others.now)) }
{
    for (pair, _) in tags {
        if let Some(pid) = falls_by(processes, first, others, *pair) {
            return Some(pid);
        }
    }
    None
}

/// The end of a link that falls with the other end, if one does.
fn falls_by(
    processes: &BTreeMap<u64, bool>,
    first: u64,
    others: &[u64],
    pair: (u64, u64),
) -> Option<u64>
    ensures { result ≡ falls_by (first ∷ others.now) (dies_by processes.now) pair }
{
    if pair.0 > pair.1 {
        return None;
    }
    if lets_fall(processes, first, others, pair.0, pair.1) {
        return Some(pair.1);
    }
    if lets_fall(processes, first, others, pair.1, pair.0) {
        return Some(pair.0);
    }
    None
}

/// Whether `member` is among the members, and `pid` is not yet and dies with links.
fn lets_fall(
    processes: &BTreeMap<u64, bool>,
    first: u64,
    others: &[u64],
    member: u64,
    pid: u64,
) -> bool
    ensures { result ≡ lets_fall (first ∷ others.now) (dies_by processes.now) member pid }
{
    is_member(first, others, member)
        && (!is_member(first, others, pid) && processes.get(&pid).copied().unwrap_or(false))
}

/// Whether a process is the first one or among the others.
pub(crate) fn is_member(first: u64, others: &[u64], pid: u64) -> bool
    ensures { result ≡ is_among (first ∷ others.now) pid }
{
    first == pid || others.contains(&pid)
}
