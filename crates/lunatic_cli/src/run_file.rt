ghost use Rattle.std.specs.Prelude.{◌≡◌, ◌≢◌, ◌<◌, ◌≤◌, ◌⊎◌, ◌↔◌, ℕ, List, [], Option, Some, IfOk, IfErr, IsSome, IsSomeAnd, None, true, map, vec_len};
ghost use Rattle.std.specs.List.{list_any};
ghost use Rattle.resource_table.specs.Steps.{told};
ghost use Rattle.outside.specs.Causes.{Rose, RoseOrFull, Stayed, StayedBelow};
ghost use Rattle.world_rules.specs.Book.{IsBlank};
ghost use Rattle.command_words.specs.declared.options.Options.{Options as Opts};
ghost use Rattle.lunatic_cli.specs.File.{HasModule, TellsUnread};
ghost use Rattle.lunatic_cli.specs.Headline.{Tellings, HeadlineOfFile, tellings_of};
ghost use Rattle.lunatic_cli.specs.Ending.{EndsRun, RunCompletes};
ghost use Rattle.lunatic_cli.specs.Ranges.{IsRunBy};
ghost use Rattle.lunatic_cli.specs.Statuses.{is_stall, is_idle, is_starve};
ghost use Rattle.lunatic_cli.specs.Times.{NoneFalls, NoneGoesBack};

use crate::judge::{JudgedFile, judge};
use crate::laws::accepted_alone;
use crate::run::run;
use crate::telling::{tell_unjudged, tell_verdict};
use crate::{Finish, Options, Verdict};
use module_validator::Valid;
use outside::{Files, Outside, Sink, Stream};
use std::alloc::Global;
use wasm_form::one_module;

/// The module to run from the file of this name: the file is read and judged, and its module is run where it is
/// accepted. Else the end of the run, in which nothing ran.
fn module_to_run<F: Files, K: Sink, S: Stream>(
    alloc: Global,
    files: &mut F,
    out: &mut K,
    name: &str,
) -> Result<Valid, Finish<S>>
    ensures accepted { IfOk result (λ valid. HasModule (F.content files.old) name.now valid.parts) }
    ensures silent { IfOk result (λ _. out.new ≡ out.old) }
    ensures ends { IfErr result (λ finish. (options : Opts) (outsides : Tellings) →
        EndsRun (F.content files.old) name.now options (told S.taken S.put S.faults S.waits S.empties S.down) (record {
          sink = record {
            faults_before = K.faults out.old;
            faults_after = K.faults out.new;
            before = K.written out.old;
            after = K.written out.new;
          };
          outsides = outsides;
        }) finish finish.verdict) }
    ensures unaccepted { IfErr result (λ finish. finish.verdict ≢ Some Verdict.Accepted) }
    ensures unstarted { IfErr result (λ finish. finish.start ≡ None) }
    ensures blank { IfErr result (λ finish. IsBlank finish.journal) }
    ensures closed_blank { IfErr result (λ finish. finish.closed.items ≡ []) }
    ensures refused { IfErr result (λ finish. (finish.status ≡ 3) ↔ IsSome finish.verdict) }
    ensures statuses { IfErr result (λ finish. (finish.status ≡ 3) ⊎ ((finish.status ≡ 4) ⊎ (finish.status ≡ 8))) }
    ensures past_file { IfOk result (λ _.
        Stayed (F.faults files.old) (F.faults files.new) × Stayed (F.lacks files.old) (F.lacks files.new)) }
    ensures refused_file { IfErr result (λ finish. IsSome finish.verdict
        → Stayed (F.faults files.old) (F.faults files.new) × Stayed (F.lacks files.old) (F.lacks files.new)) }
    ensures unread { IfErr result (λ finish. finish.status ≡ 4
        → Rose (F.faults files.old) (F.faults files.new) ⊎ Rose (F.lacks files.old) (F.lacks files.new)) }
    ensures unread_told { IfErr result (λ finish. TellsUnread (F.content files.old) (F.faults files.old)
        (F.faults files.new) name.now finish.status) }
    ensures completes { IfErr result (λ finish. Stayed (F.faults files.old) (F.faults files.new)
        → Stayed (F.lacks files.old) (F.lacks files.new)
        → (options : Opts) → RunCompletes (F.content files.old) name.now options finish.status) }
    ensures content { F.content files.new ≡ F.content files.old }
    ensures file_faults { F.faults files.old ≤ F.faults files.new }
    ensures file_lacks { F.lacks files.old ≤ F.lacks files.new }
    ensures sink_faults { K.faults out.old ≤ K.faults out.new }
{
    // So an accepted file is not refused.
    accepted_alone();
    let file = match judge(alloc, files, name) {
        Ok(file) => file,
        Err(why) => return Err(Finish::of_check(alloc, tell_unjudged(out, why))),
    };
    match file {
        JudgedFile::Accepted(valid) => Ok(valid),
        JudgedFile::Refused(verdict) => {
            Err(Finish::of_check(alloc, tell_verdict(alloc, out, verdict)))
        }
    }
}

/// Reads the file of this name and judges it as a module, runs the module by these options with the first of the
/// outsides, and writes the report.
///
/// The status is 0 where process 1 returned, 1 where it ended otherwise, 3 where the module or process 1's start is
/// refused, 4 where the file is missing, longer than 16,777,216 bytes, or its reading failed, 6 where nothing could
/// happen any more, 7 where the run was idle for too long, 5 in place of 0, 1, 6 and 7 where the sink failed, and 8 for
/// want of memory.
pub fn run_call<F: Files, K: Sink, O: Outside>(
    alloc: Global,
    files: &mut F,
    out: &mut K,
    outsides: &mut Vec<O>,
    name: &str,
    options: &Options,
) -> Finish<O::Stream>
    requires some { 0 < vec_len outsides.old }
    requires one_worker { options.now.workers ≡ 1 }
    requires idle { 1 ≤ options.now.idle }

    // Where a run is told to its end, what is written is the report of one journal.
    ensures headline { result.status ≢ 3 → result.status ≢ 4 → result.status ≢ 5 → result.status ≢ 8 →
        HeadlineOfFile (F.content files.old) name.now options.now
        (tellings_of O.clock O.faults O.waits O.rests outsides.old.items outsides.new.items)
        (told O.Stream.taken O.Stream.put O.Stream.faults O.Stream.waits O.Stream.empties O.Stream.down)
        (K.written out.old) (K.written out.new) result.journal result.closed.items }

    // The run is by these options.
    ensures run_by { IsBlank result.journal ⊎ IsRunBy options.now result.journal }

    // What is judged and what is written, with each status.
    ensures ends { EndsRun (F.content files.old) name.now options.now
        (told O.Stream.taken O.Stream.put O.Stream.faults O.Stream.waits O.Stream.empties O.Stream.down)
        (record {
          sink = record {
            faults_before = K.faults out.old;
            faults_after = K.faults out.new;
            before = K.written out.old;
            after = K.written out.new;
          };
          outsides = tellings_of O.clock O.faults O.waits O.rests outsides.old.items outsides.new.items;
        }) result result.verdict }
    ensures stalled { list_any is_stall result.journal.entries ≡ true →
        (result.status ≡ 6) ⊎ ((result.status ≡ 5) ⊎ (result.status ≡ 8)) }
    ensures stalls { result.status ≡ 6 → list_any is_stall result.journal.entries ≡ true }
    ensures idled { list_any is_idle result.journal.entries ≡ true →
        (result.status ≡ 7) ⊎ ((result.status ≡ 5) ⊎ (result.status ≡ 8)) }
    ensures idles { result.status ≡ 7 → list_any is_idle result.journal.entries ≡ true }
    ensures starved { list_any is_starve result.journal.entries ≡ true → result.status ≡ 8 }
    ensures blank { result.verdict ≢ Some Verdict.Accepted → IsBlank result.journal }
    ensures blank_unstarted { IsSome result.start → IsBlank result.journal }
    ensures closed_blank { IsBlank result.journal → result.closed.items ≡ [] }

    // When each status comes.
    ensures words { result.status ≢ 2 }
    ensures refused { (result.status ≡ 3)
        ↔ (IsSomeAnd result.verdict (λ said. said ≢ Verdict.Accepted) ⊎ IsSome result.start) }
    ensures start { IsSome result.start → result.verdict ≡ Some Verdict.Accepted }
    ensures unread { result.status ≡ 4
        → Rose (F.faults files.old) (F.faults files.new) ⊎ Rose (F.lacks files.old) (F.lacks files.new) }
    ensures unread_told { TellsUnread (F.content files.old) (F.faults files.old) (F.faults files.new) name.now
        result.status }
    ensures past_file { IsSome result.verdict
        → Stayed (F.faults files.old) (F.faults files.new) × Stayed (F.lacks files.old) (F.lacks files.new) }
    ensures unwritten { result.status ≡ 5 → RoseOrFull (K.faults out.old) (K.faults out.new) }
    ensures written { result.status ≢ 3 → result.status ≢ 4 → result.status ≢ 5 → result.status ≢ 8
        → Stayed (K.faults out.old) (K.faults out.new) }
    ensures completes { Stayed (F.faults files.old) (F.faults files.new)
        → Stayed (F.lacks files.old) (F.lacks files.new)
        → StayedBelow (K.faults out.old) (K.faults out.new)
        → RunCompletes (F.content files.old) name.now options.now result.status }

    // What the outside keeps.
    ensures untouched { result.verdict ≢ Some Verdict.Accepted → outsides.new.items ≡ outsides.old.items }
    ensures untouched_unstarted { IsSome result.start → outsides.new.items ≡ outsides.old.items }
    ensures content { F.content files.new ≡ F.content files.old }
    ensures file_faults { F.faults files.old ≤ F.faults files.new }
    ensures file_lacks { F.lacks files.old ≤ F.lacks files.new }
    ensures sink_faults { K.faults out.old ≤ K.faults out.new }
    ensures clocks { NoneGoesBack (map O.clock outsides.old.items) (map O.clock outsides.new.items) }
    ensures faults { NoneFalls (map O.faults outsides.old.items) (map O.faults outsides.new.items) }
    ensures waits { NoneFalls (map O.waits outsides.old.items) (map O.waits outsides.new.items) }
    ensures rests { NoneFalls (map O.rests outsides.old.items) (map O.rests outsides.new.items) }
{
    // So an accepted file is not refused, and has one module.
    accepted_alone();
    one_module();
    match module_to_run(alloc, files, out, name) {
        Ok(valid) => run(alloc, valid, out, outsides, options),
        Err(finish) => finish,
    }
}
