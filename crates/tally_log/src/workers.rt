//! Workers in threads of their own, each with a pass.
ghost use Rattle.std.specs.Prelude.{◌≡◌, ℕ, ◌+◌, ◌<◌, ◌≤◌, length, IfOk};
ghost use Rattle.std.specs.List.{All};
ghost use Rattle.std.specs.Thread.{IsSync};
ghost use Rattle.log_lock.specs.Words.{EachFrom, IsNewPass, IsPassOf, knowledge, passes_of};
ghost use Rattle.tally_log.specs.Tally.{HasWorked, amounts_of};

use crate::adding::add_all;
use crate::tally::Tally;
use log_lock::{LogLock, Pass, Passes};
use memory_refusal::NoMemory;
use std::alloc::Global;
use std::sync::Wait;
use std::thread::{Threads, join};

/// What the workers do: each of them adds all the amounts to a tally that begins at the start.
#[derive(Drop)]
pub struct Plan {
    /// What the tally begins with.
    pub start: u64,
    /// How many workers there are, from 1 to 64.
    pub workers: u8,
    /// What each worker adds, in this order.
    pub amounts: Vec<u64>,
}

/// Runs the plan's workers, in threads as far as the machine makes them. `NoMemory` comes for want of
/// memory alone, and then the tally is dropped.
pub fn run_workers<R: Threads + Wait + Sync>(
    rt: &R,
    alloc: Global,
    plan: &Plan,
) -> Result<Tally, NoMemory>
    requires { (0 < plan.now.workers) × (plan.now.workers ≤ 64) }
    ensures start { IfOk result (λ t. t.start ≡ plan.now.start) }
    ensures amounts { IfOk result (λ t. (k : ℕ) → k < plan.now.workers
        → amounts_of k t.entries.items ≡ plan.now.amounts.items) }
    ensures makers { IfOk result (λ t. All (λ e. e.by < plan.now.workers) t.entries.items) }
{
    let tally = Tally {
        start: plan.start,
        entries: Vec::new(alloc),
    };
    let Ok((lock, passes)) = LogLock::new(alloc, tally, plan.workers) else {
        return Err(NoMemory);
    };
    let (pass, added) = work_from(rt, &lock, plan, 0, passes);
    let tally = lock.close(pass);
    if added { Ok(tally) } else { Err(NoMemory) }
}

// The workers from `from` on, whose passes these are. Their passes are joined, with whether all was added.
fn work_from<R: Threads + Wait + Sync>(
    rt: &R,
    lock: &LogLock<Tally>,
    plan: &Plan,
    from: u8,
    mut passes: Passes<Tally>,
) -> (Pass<Tally>, bool)
    requires each { EachFrom (IsNewPass lock.now plan.now.start plan.now.workers) from (passes_of passes) }
    requires count { (0 < length (passes_of passes)) × (from + length (passes_of passes) ≡ plan.now.workers) }
    ensures lock { IsPassOf lock.now result.0 }
    ensures worked { HasWorked plan.now.start plan.now.workers plan.now.amounts.items from plan.now.workers result.1
        (knowledge result.0) }
{
    let Some(pass) = passes.next() else {
        unreachable!()
    };
    if plan.workers - from == 1 {
        return work(rt, lock, plan, from, pass);
    }
    let next = from + 1;
    let ((one, one_added), (others, others_added)) = join(
        rt,
        || -> (Pass<Tally>, bool)
            requires { IsNewPass lock.now plan.now.start plan.now.workers from pass }
            ensures { IsPassOf lock.entry.now result.0
                × HasWorked plan.entry.now.start plan.entry.now.workers plan.entry.now.amounts.items from (from + 1)
                result.1 (knowledge result.0) }
        { work(rt, lock, plan, from, pass) },
        || -> (Pass<Tally>, bool)
            requires { IsSync R.row
                × EachFrom (IsNewPass lock.now plan.now.start plan.now.workers) next (passes_of passes)
                × (0 < length (passes_of passes)) × (next + length (passes_of passes) ≡ plan.now.workers) }
            ensures { IsPassOf lock.entry.now result.0
                × HasWorked plan.entry.now.start plan.entry.now.workers plan.entry.now.amounts.items next
                plan.entry.now.workers result.1 (knowledge result.0) }
        { work_from(rt, lock, plan, next, passes) },
    );
    (lock.join(one, others), one_added && others_added)
}

// The one worker whose pass this is.
fn work<R: Wait>(
    rt: &R,
    lock: &LogLock<Tally>,
    plan: &Plan,
    number: u8,
    pass: Pass<Tally>,
) -> (Pass<Tally>, bool)
    requires { IsNewPass lock.now plan.now.start plan.now.workers number pass }
    ensures lock { IsPassOf lock.now result.0 }
    ensures worked { HasWorked plan.now.start plan.now.workers plan.now.amounts.items number (number + 1) result.1
        (knowledge result.0) }
{
    add_all(rt, lock, pass, &plan.amounts)
}
