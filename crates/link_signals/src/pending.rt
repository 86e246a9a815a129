ghost use Rattle.std.specs.Prelude.{◌≡◌, ◌≤◌, ◌++◌, [], slice_get};
ghost use Rattle.std.specs.VecDeque.{deque_capacity};
ghost use Rattle.std.specs.BTreeMap.{btree_map_len};
ghost use Rattle.std.specs.FinMap as map;
ghost use Rattle.link_signals.specs.Fall.{signal_to, signals_from, signals_left, members_of, is_among};

use crate::Signal;
use crate::fall::is_member;
use crate::link_ends::ends;
use std::collections::{BTreeMap, VecDeque};

/// Fills an empty queue with the signals of the next member that has any, and goes on in the
/// members.
pub(crate) fn refill(
    pending: &mut VecDeque<Signal>,
    next: &mut usize,
    processes: &BTreeMap<u64, bool>,
    tags: &BTreeMap<(u64, u64), u64>,
    first: Option<u64>,
    others: &[u64],
)
    requires room { btree_map_len processes.now ≤ deque_capacity pending.old }
    ensures signals { pending.new.items ++ signals_left (map.from_entries processes.now.entries) (map.from_entries tags.now.entries) (members_of first others.now) next.new
        ≡ pending.old.items ++ signals_left (map.from_entries processes.now.entries) (map.from_entries tags.now.entries) (members_of first others.now) next.old }
    ensures filled { pending.new.items ≡ [] → signals_left (map.from_entries processes.now.entries) (map.from_entries tags.now.entries) (members_of first others.now) next.new ≡ [] }
    ensures capacity { deque_capacity pending.old ≤ deque_capacity pending.new }
{
    while pending.is_empty() {
        match member_at(first, others, *next) {
            Some(member) => {
                *next += 1;
                fill(pending, processes, tags, first, others, member);
            }
            None => break,
        }
    }
}

/// The member at a place: the first process, and then the others.
fn member_at(first: Option<u64>, others: &[u64], place: usize) -> Option<u64>
    ensures { result ≡ slice_get (members_of first others.now) place }
{
    match first {
        Some(pid) => {
            if place == 0 {
                Some(pid)
            } else {
                others.get(place - 1).copied()
            }
        }
        None => others.get(place).copied(),
    }
}

/// Writes the signals of one member into an empty queue that has room for one to every process.
pub(crate) fn fill(
    pending: &mut VecDeque<Signal>,
    processes: &BTreeMap<u64, bool>,
    tags: &BTreeMap<(u64, u64), u64>,
    first: Option<u64>,
    others: &[u64],
    member: u64,
)
    requires empty { pending.old.items ≡ [] }
    requires room { btree_map_len processes.now ≤ deque_capacity pending.old }
    ensures signals { pending.new.items ≡ signals_from (map.from_entries processes.now.entries) (map.from_entries tags.now.entries) (members_of first others.now) member }
    ensures capacity { deque_capacity pending.old ≤ deque_capacity pending.new }
{
    for (pid, _) in processes {
        if let Some(signal) = signal_to(tags, first, others, member, *pid) {
            match pending.push_back(signal) {
                Ok(()) => {}
                Err(_) => unreachable!(),
            }
        }
    }
}

/// The signal that a member brings a process, if it brings one.
fn signal_to(
    tags: &BTreeMap<(u64, u64), u64>,
    first: Option<u64>,
    others: &[u64],
    member: u64,
    pid: u64,
) -> Option<Signal>
    ensures { result ≡ signal_to (map.from_entries tags.now.entries) (members_of first others.now) member pid }
{
    if is_fallen(first, others, pid) {
        return None;
    }
    let tag = tags.get(&ends(member, pid)).copied()?;
    Some(Signal { to: pid, tag })
}

/// Whether a process is one of the members.
pub(crate) fn is_fallen(first: Option<u64>, others: &[u64], pid: u64) -> bool
    ensures { result ≡ is_among (members_of first others.now) pid }
{
    match first {
        Some(first) => is_member(first, others, pid),
        None => others.contains(&pid),
    }
}
