ghost use Rattle.std.specs.Prelude.{◌≡◌, ◌<◌, ◌≤◌, ◌+◌, ◌-◌, ◌^◌, ◌++◌, ℕ, List, [], All, true, false, cond, min};
ghost use Rattle.outside.specs.Makes.{GoesNotBack};
ghost use Rattle.resource_table.specs.Steps.{told as tells_of};
ghost use Rattle.world_rules.specs.Views.{worker_of, is_pending as side_is_pending};
ghost use Rattle.world_rules.specs.World.{is_away};
ghost use Rattle.world_rules.specs.Told.{told};
ghost use Rattle.world_rules.specs.Legal.{Rounds};
ghost use Rattle.world_rules.specs.Lives.{IsRun};
ghost use Rattle.host_calls.specs.Outsides.{OutsideKeeps, telling};
ghost use Rattle.process_table.specs.Seen.{setting_of, world_of};
ghost use Rattle.process_table.specs.Takes.{SameTerms};
ghost use Rattle.lunatic_cli.specs.Statuses.{EndsByLast};
ghost use Rattle.lunatic_cli.specs.Causes.{failures_of, waits_of};
ghost use Rattle.lunatic_cli.specs.Handles.{StandInOnePlace};
ghost use Rattle.lunatic_cli.specs.Quiet.{quiet_in, HasRested};
ghost use Rattle.lunatic_cli.specs.Resting.{NodeRests, NodeWakes, HasRead, rounds_left};
ghost use Rattle.lunatic_cli.specs.Times.{times_of, AreBetween};
ghost use Rattle.lunatic_cli.specs.Entering.{takes_of, EntersAll};

use host_calls::turn;
use host_port::Engine;
use journal::Journal;
use outside::{Outside, Stream};
use process_table::{Node, Taken};
use resource_table::Owned;
use std::alloc::Global;
use world_rules::{Side, placed, sound, touches};

/// The number of the only worker.
const WORKER: u8 = 0;

/// What a run leaves.
#[derive(Drop)]
pub struct Ran<S: Stream> {
    /// What happened in it.
    pub journal: Journal,
    /// Its streams, shut, in the order of their closing.
    pub closed: Vec<Owned<S>>,
}

/// Runs a node to its end: one worker goes round it with one outside, and gives up its journal, and its streams.
///
/// It returns. The outside is told of each process that is taken, before its turn, and is let rest where nothing was
/// ready after a Tick, and where a request couldn't be answered yet. Where the machine refuses the memory for a round,
/// the run is over by a Starve.
pub fn run_alone<E: Engine, O: Outside>(
    alloc: Global,
    mut node: Node<E, O>,
    outside: &mut O,
) -> Ran<O::Stream>
    requires blank { node.book.entries ≡ [] }
    requires idle { 1 ≤ node.idle }

    // What becomes of the node.
    ensures births { result.journal.births ≡ node.book.births }
    ensures run { IsRun (setting_of E.begin E.at node) result.journal }
    ensures over { (told result.journal).over ≡ true }
    ensures home { (pid : ℕ) → is_away ((told result.journal).process pid).stage ≡ false }
    ensures rounds { Rounds result.journal }
    ensures worker { All (λ entry. worker_of entry ≡ 0) result.journal.entries }
    ensures ended { EndsByLast (setting_of E.begin E.at node) (told result.journal) result.journal.entries }
    ensures handles { StandInOnePlace
        (tells_of O.Stream.taken O.Stream.put O.Stream.faults O.Stream.waits O.Stream.empties O.Stream.down)
        result.journal result.closed.items }

    // What becomes of the outside.
    ensures times { AreBetween (O.clock outside.old) (O.clock outside.new) (times_of result.journal.entries) }
    ensures entered { EntersAll (O.entered outside.old) (O.entered outside.new) (takes_of result.journal.entries) }
    ensures clock { GoesNotBack (O.clock outside.old) (O.clock outside.new) }
    ensures failed { O.faults outside.old + failures_of result.journal ≤ O.faults outside.new }
    ensures waited { O.waits outside.old + waits_of result.journal ≤ O.waits outside.new }
    ensures rests { O.rests outside.old ≤ O.rests outside.new }
    ensures rested { HasRested (O.rests outside.old) (O.rests outside.new) (quiet_in result.journal) }
{
    // So each stream stands in one place, and who has ended holds none.
    placed();
    sound();
    touches();
    while go_round(alloc, &mut node, outside) {}
    let (journal, closed) = node.close();
    Ran { journal, closed }
}

/// One round: reads the clock where somebody waits with a deadline; then takes the process that is ready, runs its
/// turn, and gives it back, or rests where none is; and rests after a request that couldn't be answered yet. Answers
/// whether the run goes on.
fn go_round<E: Engine, O: Outside>(alloc: Global, node: &mut Node<E, O>, outside: &mut O) -> bool
    requires { NodeRests E.begin E.at node.old }
    ensures same { SameTerms node.old node.new }
    ensures rest { NodeRests E.begin E.at node.new }
    ensures over { result ≡ false → (world_of node.new).over ≡ true }
    ensures fewer { result ≡ true →
        rounds_left (setting_of E.begin E.at node.new) (world_of node.new)
        < rounds_left (setting_of E.begin E.at node.old) (world_of node.old) }
    ensures times { (more : List ℕ) × (times_of node.new.book.entries ≡ times_of node.old.book.entries ++ more)
        × AreBetween (O.clock outside.old) (O.clock outside.new) more }
    ensures entered { (pids : List ℕ) × (takes_of node.new.book.entries ≡ takes_of node.old.book.entries ++ pids)
        × EntersAll (O.entered outside.old) (O.entered outside.new) pids }
    ensures clock { GoesNotBack (O.clock outside.old) (O.clock outside.new) }
    ensures failed { O.faults outside.old + failures_of node.new.book
        ≤ O.faults outside.new + failures_of node.old.book }
    ensures waited { O.waits outside.old + waits_of node.new.book ≤ O.waits outside.new + waits_of node.old.book }
    ensures rests { O.rests outside.old ≤ O.rests outside.new }
    ensures rested { (n : ℕ) × (quiet_in node.new.book ≡ quiet_in node.old.book + n) × (n ≤ 1)
        × (result ≡ true → min (O.rests outside.old + n) (2 ^ 64 - 1) ≤ O.rests outside.new) }
{
    if node.reserve_turn().is_err() {
        node.starve(WORKER);
        return false;
    }
    read_clock(node, outside);
    match node.take(WORKER) {
        Taken::Proc(proc) => {
            outside.enter(proc.start.pid);
            let turn = turn(alloc, proc, outside);
            let pending = is_pending(&turn.side);
            node.give(WORKER, turn);
            rest_if(pending, outside);
            true
        }
        Taken::Nothing => {
            outside.rest();
            true
        }
        Taken::Over => false,
    }
}

/// Whether there is no answer from outside yet.
fn is_pending(side: &Side) -> bool
    ensures { result ≡ side_is_pending side.now }
{
    matches!(side, Side::Pending)
}

/// Lets the outside rest where this is so.
fn rest_if<O: Outside>(so: bool, outside: &mut O)
    ensures rests { min (O.rests outside.old + cond so 1 0) (2 ^ 64 - 1) ≤ O.rests outside.new }
    ensures no_fewer { O.rests outside.old ≤ O.rests outside.new }
    ensures faults { O.faults outside.new ≡ O.faults outside.old }
    ensures waits { O.waits outside.old ≤ O.waits outside.new }
    ensures clock { GoesNotBack (O.clock outside.old) (O.clock outside.new) }
    ensures entered { O.entered outside.new ≡ O.entered outside.old }
{
    if so {
        outside.rest();
    }
}

/// Reads the clock where somebody waits with a deadline, and ends the waits whose deadline has come.
fn read_clock<E: Engine, O: Outside>(node: &mut Node<E, O>, outside: &mut O)
    requires rest { NodeRests E.begin E.at node.old }
    requires spare { 1 ≤ node.old.spare }
    ensures same { SameTerms node.old node.new }
    ensures awake { NodeWakes E.begin E.at node.new }
    ensures read { HasRead (world_of node.old) (world_of node.new) (quiet_in node.old.book) (quiet_in node.new.book) }
    ensures spare { node.old.spare ≤ node.new.spare + 1 }
    ensures times { (more : List ℕ) × (times_of node.new.book.entries ≡ times_of node.old.book.entries ++ more)
        × AreBetween (O.clock outside.old) (O.clock outside.old) more }
    ensures takes { takes_of node.new.book.entries ≡ takes_of node.old.book.entries }
    ensures failures { failures_of node.new.book ≡ failures_of node.old.book }
    ensures waits { waits_of node.new.book ≡ waits_of node.old.book }
    ensures outside { OutsideKeeps
        (telling (O.faults outside.old) (O.waits outside.old) (O.rests outside.old) (O.clock outside.old))
        (telling (O.faults outside.new) (O.waits outside.new) (O.rests outside.new) (O.clock outside.new)) }
    ensures entered { O.entered outside.new ≡ O.entered outside.old }
{
    if !node.timed() {
        return;
    }
    node.tick(WORKER, outside);
}
