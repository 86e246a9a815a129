//! Adding amounts by a pass.
ghost use Rattle.std.specs.Prelude.{◌≡◌, ℕ, ◌<◌, ◌≤◌, [], ◌∷◌, ◌++◌, length, take, IfOk};
ghost use Rattle.log_lock.specs.Knowledge.{with_seen};
ghost use Rattle.log_lock.specs.Words.{IsPassOf, knowledge, passes_of};
ghost use Rattle.tally_log.specs.Tally.{Adds, AddsAll, IsOwnPassOf, amounts_of};

use crate::tally::{Entry, Tally};
use log_lock::{LogLock, Logged, Pass, Passes};
use memory_refusal::NoMemory;
use std::alloc::Global;
use std::sync::Wait;

/// Adds an entry with this amount, and tells whether there was memory for it. Where there wasn't,
/// the tally stays as it was.
pub fn add<R: Wait>(
    rt: &R,
    lock: &LogLock<Tally>,
    pass: Pass<Tally>,
    amount: u64,
) -> (Pass<Tally>, bool)
    requires { IsPassOf lock.now pass }
    ensures lock { IsPassOf lock.now result.0 }
    ensures adds { Adds result.1 amount (knowledge pass) (knowledge result.0) }
{
    let by = pass.number();
    let (mut tally, hold) = lock.enter(rt, pass);
    let added = tally.entries.push(Entry { by, amount }).is_ok();
    (lock.leave(tally, hold), added)
}

/// Adds the amounts in their order, each in a turn of its own, up to the first for which there is no
/// memory, and tells whether it added all.
pub fn add_all<R: Wait>(
    rt: &R,
    lock: &LogLock<Tally>,
    mut pass: Pass<Tally>,
    amounts: &[u64],
) -> (Pass<Tally>, bool)
    requires { IsOwnPassOf lock.now pass }
    ensures lock { IsOwnPassOf lock.now result.0 }
    ensures knows { knowledge result.0 ≡ with_seen (knowledge result.0).seen (knowledge pass) }
    ensures adds { AddsAll result.1 amounts.now (knowledge pass) (knowledge result.0) }
{
    let mut count = 0;
    while count < amounts.len() {
        let (next, added) = add(rt, lock, pass, amounts[count]);
        pass = next;
        if !added {
            return (pass, false);
        }
        count += 1;
    }
    (pass, true)
}

// Both passes of a lock that has two.
fn both_passes<V: Logged>(mut passes: Passes<V>) -> (Pass<V>, Pass<V>)
    requires { length (passes_of passes) ≡ 2 }
    ensures { passes_of passes ≡ result.0 ∷ result.1 ∷ [] }
{
    let Some(one) = passes.next() else {
        unreachable!()
    };
    let Some(two) = passes.next() else {
        unreachable!()
    };
    (one, two)
}

/// Two passes add an amount each, the first one first. `NoMemory` comes for want of memory alone, and
/// then the tally is dropped.
pub fn add_in_turn<R: Wait>(
    rt: &R,
    alloc: Global,
    start: u64,
    first: u64,
    second: u64,
) -> Result<Tally, NoMemory>
    ensures start { IfOk result (λ t. t.start ≡ start) }
    ensures first { IfOk result (λ t. amounts_of 0 t.entries.items ≡ first ∷ []) }
    ensures second { IfOk result (λ t. amounts_of 1 t.entries.items ≡ second ∷ []) }
{
    let tally = Tally {
        start,
        entries: Vec::new(alloc),
    };
    let Ok((lock, passes)) = LogLock::new(alloc, tally, 2) else {
        return Err(NoMemory);
    };
    let (one, two) = both_passes(passes);
    let (one, one_added) = add(rt, &lock, one, first);
    let (two, two_added) = add(rt, &lock, two, second);
    let pass = lock.join(one, two);
    let tally = lock.close(pass);
    if one_added && two_added {
        Ok(tally)
    } else {
        Err(NoMemory)
    }
}
