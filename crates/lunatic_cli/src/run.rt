ghost use Rattle.std.specs.Prelude.{◌≡◌, ◌≢◌, ◌<◌, ◌≤◌, ◌⊎◌, ◌↔◌, Some, IsSome, [], true, false, map, vec_len};
ghost use Rattle.std.specs.List.{list_any};
ghost use Rattle.resource_table.specs.Steps.{told};
ghost use Rattle.outside.specs.Causes.{RoseOrFull, Stayed, StayedBelow};
ghost use Rattle.world_rules.specs.Lives.{Setting};
ghost use Rattle.world_rules.specs.Report.{IsReportable};
ghost use Rattle.world_rules.specs.Told.{told as told_by};
ghost use Rattle.process_table.specs.Seen.{setting_of};
ghost use Rattle.wasm_form.specs.declared.parts.Parts.{Parts};
ghost use Rattle.module_validator.specs.ValidModule.{ValidModule};
ghost use Rattle.tree_machine.specs.Begin.{begin};
ghost use Rattle.command_words.specs.declared.options.Options.{Options as Opts};
ghost use Rattle.lunatic_cli.specs.Ending.{WritesReport, RefusesStart, RunsNothing, RunsModule};
ghost use Rattle.lunatic_cli.specs.Statuses.{is_stall, is_idle, EndsByLast};
ghost use Rattle.lunatic_cli.specs.Headline.{OneJournal, tellings_of};
ghost use Rattle.lunatic_cli.specs.Options.{first_start};
ghost use Rattle.lunatic_cli.specs.Runs.{Returns};
ghost use Rattle.lunatic_cli.specs.Times.{NoneFalls, NoneGoesBack};
ghost use Rattle.lunatic_cli.specs.Writing.{Written};

use crate::alone::{Ran, run_alone};
use crate::finish::{MEMORY, MODULE, SINK};
use crate::start::first_node;
use crate::status::status_of;
use crate::telling::{line_of_start, write_refusal};
use crate::writing::write_all;
use crate::{Finish, Options, Verdict};
use host_port::{Engine, StartRefusal};
use journal::{Journal, report};
use module_validator::Valid;
use outside::{Failed, Outside, Sink, Stream};
use process_table::Node;
use std::alloc::Global;

/// Runs the node to its end with the first of the outsides.
fn run_first<E: Engine, O: Outside>(
    alloc: Global,
    node: Node<E, O>,
    outsides: &mut Vec<O>,
) -> Ran<O::Stream>
    requires some { 0 < vec_len outsides.old }
    requires blank { node.book.entries ≡ [] }
    requires idle { 1 ≤ node.idle }
    ensures journal { OneJournal (setting_of E.begin E.at node)
        (tellings_of O.clock O.faults O.waits O.rests outsides.old.items outsides.new.items)
        (told O.Stream.taken O.Stream.put O.Stream.faults O.Stream.waits O.Stream.empties O.Stream.down)
        result.journal result.closed.items }
    ensures ended { EndsByLast (setting_of E.begin E.at node) (told_by result.journal) result.journal.entries }
    ensures clocks { NoneGoesBack (map O.clock outsides.old.items) (map O.clock outsides.new.items) }
    ensures faults { NoneFalls (map O.faults outsides.old.items) (map O.faults outsides.new.items) }
    ensures waits { NoneFalls (map O.waits outsides.old.items) (map O.waits outsides.new.items) }
    ensures rests { NoneFalls (map O.rests outsides.old.items) (map O.rests outsides.new.items) }
{
    run_alone(alloc, node, &mut outsides[0])
}

/// Writes the report of a journal, and answers the status of its run. The text is whole before the first write.
fn write_report<K: Sink>(alloc: Global, journal: &Journal, out: &mut K) -> u8
    requires reportable { IsReportable journal.now }
    requires ended { (setting : Setting ValidModule) × EndsByLast setting (told_by journal.now) journal.now.entries }
    ensures writes { WritesReport (K.written out.old) (K.written out.new) journal.now result }
    ensures unwritten { result ≡ 5 → RoseOrFull (K.faults out.old) (K.faults out.new) }
    ensures written { result ≢ 5 → result ≢ 8 → Stayed (K.faults out.old) (K.faults out.new) }
    ensures later { K.faults out.old ≤ K.faults out.new }
{
    let status = status_of(journal);
    if status == MEMORY {
        return MEMORY;
    }
    let Ok(text) = report(alloc, journal) else {
        return MEMORY;
    };
    match write_all(out, text.as_slice()) {
        Ok(()) => status,
        Err(Failed) => SINK,
    }
}

/// Ends a run whose process 1 can't start so, with the line of the cause. For want of memory nothing is written, and no
/// cause is told.
fn end_unstarted<K: Sink, S: Stream>(alloc: Global, out: &mut K, why: StartRefusal) -> Finish<S>
    ensures verdict { result.verdict ≡ Some Verdict.Accepted }
    ensures ends { (options : Opts) (m : Parts) →
        (why ≢ StartRefusal.NoMemory → begin m (first_start options) ≡ Some why) →
        let sink : Written = record {
          faults_before = K.faults out.old;
          faults_after = K.faults out.new;
          before = K.written out.old;
          after = K.written out.new;
        } in
        RefusesStart options m sink result ⊎ RunsNothing sink result }
    ensures refused { (result.status ≡ 3) ↔ IsSome result.start }
    ensures statuses { (result.status ≡ 3) ⊎ (result.status ≡ 8) }
    ensures later { K.faults out.old ≤ K.faults out.new }
{
    match why {
        StartRefusal::NoMemory => {
            Finish::without_run(alloc, MEMORY, Some(Verdict::Accepted), None)
        }
        _ => {
            write_refusal(out, line_of_start(why));
            Finish::without_run(alloc, MODULE, Some(Verdict::Accepted), Some(why))
        }
    }
}

/// Runs the module and writes the report, or the cause for which process 1 can't start.
pub fn run<K: Sink, O: Outside>(
    alloc: Global,
    valid: Valid,
    out: &mut K,
    outsides: &mut Vec<O>,
    options: &Options,
) -> Finish<O::Stream>
    requires some { 0 < vec_len outsides.old }
    requires idle { 1 ≤ options.now.idle }
    ensures verdict { result.verdict ≡ Some Verdict.Accepted }
    ensures runs { RunsModule options.now valid.parts
        (told O.Stream.taken O.Stream.put O.Stream.faults O.Stream.waits O.Stream.empties O.Stream.down)
        (record {
          sink = record {
            faults_before = K.faults out.old;
            faults_after = K.faults out.new;
            before = K.written out.old;
            after = K.written out.new;
          };
          outsides = tellings_of O.clock O.faults O.waits O.rests outsides.old.items outsides.new.items;
        }) result }
    ensures returned { Returns options.now valid.parts → StayedBelow (K.faults out.old) (K.faults out.new)
        → (result.status ≡ 0) ⊎ (result.status ≡ 8) }
    // Nothing can happen any more, or the run was idle for too long, and not both.
    ensures one_cause { list_any is_stall result.journal.entries ≡ true →
        list_any is_idle result.journal.entries ≡ false }
    ensures refused { (result.status ≡ 3) ↔ IsSome result.start }
    ensures unstarted { IsSome result.start → outsides.new.items ≡ outsides.old.items }
    ensures unwritten { result.status ≡ 5 → RoseOrFull (K.faults out.old) (K.faults out.new) }
    ensures written { result.status ≢ 3 → result.status ≢ 5 → result.status ≢ 8
        → Stayed (K.faults out.old) (K.faults out.new) }
    ensures later { K.faults out.old ≤ K.faults out.new }
    ensures clocks { NoneGoesBack (map O.clock outsides.old.items) (map O.clock outsides.new.items) }
    ensures faults { NoneFalls (map O.faults outsides.old.items) (map O.faults outsides.new.items) }
    ensures waits { NoneFalls (map O.waits outsides.old.items) (map O.waits outsides.new.items) }
    ensures rests { NoneFalls (map O.rests outsides.old.items) (map O.rests outsides.new.items) }
{
    let node = match first_node(alloc, valid, options) {
        Ok(node) => node,
        Err(why) => return end_unstarted(alloc, out, why),
    };
    let Ran { journal, closed } = run_first(alloc, node, outsides);
    let status = write_report(alloc, &journal, out);
    Finish {
        status,
        verdict: Some(Verdict::Accepted),
        start: None,
        journal,
        closed,
    }
}
