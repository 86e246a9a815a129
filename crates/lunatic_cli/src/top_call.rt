ghost use Rattle.std.specs.Prelude.{◌≡◌, ◌≢◌, ◌≤◌, ◌⊎◌, ◌↔◌, ℕ, List, [], Some, None, IfSome, IsSome, IsSomeAnd, true, map, string_bytes, vec_len};
ghost use Rattle.std.specs.List.{list_any};
ghost use Rattle.resource_table.specs.Steps.{told};
ghost use Rattle.outside.specs.Causes.{Rose, RoseOrFull, Stayed, StayedBelow};
ghost use Rattle.world_rules.specs.Book.{IsBlank};
ghost use Rattle.command_words.specs.declared.options.Options.{Options as Opts};
ghost use Rattle.lunatic_cli.specs.declared.words.Asked.TheVariants.{Run, Check};
ghost use Rattle.lunatic_cli.specs.Words.{asked_by, file_of};
ghost use Rattle.lunatic_cli.specs.Ranges.{IsRunBy};
ghost use Rattle.lunatic_cli.specs.File.{TellsUnread};
ghost use Rattle.lunatic_cli.specs.Headline.{HeadlineOfFile, tellings_of};
ghost use Rattle.lunatic_cli.specs.Ending.{Ends, Completes};
ghost use Rattle.lunatic_cli.specs.Statuses.{is_stall, is_idle, is_starve};
ghost use Rattle.lunatic_cli.specs.Times.{NoneFalls, NoneGoesBack};

use crate::check::check_call;
use crate::finish::{MEMORY, WORDS};
use crate::run_file::run_call;
use crate::telling::write_refusal;
use crate::words::{Asked, read_words};
use crate::{Finish, Verdict};
use command_words::WordsFault;
use outside::{Files, Outside, Sink};
use std::alloc::Global;

/// Does all that the program does, over this store of files, this sink and these outsides, for the words after the
/// program's name.
pub fn lunatic<F: Files, K: Sink, O: Outside>(
    alloc: Global,
    words: &[String],
    files: &mut F,
    out: &mut K,
    outsides: &mut Vec<O>,
) -> Finish<O::Stream>
    requires outsides { 16 ≤ vec_len outsides.old }

    // Where a run is told to its end, what is written is the report of one journal.
    ensures headline { (name : List ℕ) (options : Opts) → asked_by (map string_bytes words.now) ≡ Some (Run name options)
        → result.status ≢ 3 → result.status ≢ 4 → result.status ≢ 5 → result.status ≢ 8 →
        HeadlineOfFile (F.content files.old) name options
        (tellings_of O.clock O.faults O.waits O.rests outsides.old.items outsides.new.items)
        (told O.Stream.taken O.Stream.put O.Stream.faults O.Stream.waits O.Stream.empties O.Stream.down)
        (K.written out.old) (K.written out.new) result.journal result.closed.items }

    // A run is by the options that the words name.
    ensures run_by { (name : List ℕ) (options : Opts) → asked_by (map string_bytes words.now) ≡ Some (Run name options)
        → IsBlank result.journal ⊎ IsRunBy options result.journal }

    // What is judged and what is written, with each status.
    ensures ends { Ends (F.content files.old)
        (told O.Stream.taken O.Stream.put O.Stream.faults O.Stream.waits O.Stream.empties O.Stream.down)
        (record {
          sink = record {
            faults_before = K.faults out.old;
            faults_after = K.faults out.new;
            before = K.written out.old;
            after = K.written out.new;
          };
          outsides = tellings_of O.clock O.faults O.waits O.rests outsides.old.items outsides.new.items;
        }) result (asked_by (map string_bytes words.now)) }
    ensures stalled { list_any is_stall result.journal.entries ≡ true →
        (result.status ≡ 6) ⊎ ((result.status ≡ 5) ⊎ (result.status ≡ 8)) }
    ensures stalls { result.status ≡ 6 → list_any is_stall result.journal.entries ≡ true }
    ensures idled { list_any is_idle result.journal.entries ≡ true →
        (result.status ≡ 7) ⊎ ((result.status ≡ 5) ⊎ (result.status ≡ 8)) }
    ensures idles { result.status ≡ 7 → list_any is_idle result.journal.entries ≡ true }
    ensures starved { list_any is_starve result.journal.entries ≡ true → result.status ≡ 8 }
    ensures blank { result.verdict ≢ Some Verdict.Accepted → IsBlank result.journal }
    ensures blank_unstarted { IsSome result.start → IsBlank result.journal }
    ensures blank_check { (name : List ℕ) → asked_by (map string_bytes words.now) ≡ Some (Check name)
        → IsBlank result.journal }
    ensures closed_blank { IsBlank result.journal → result.closed.items ≡ [] }

    // When each status comes.
    ensures words { result.status ≡ 2 → asked_by (map string_bytes words.now) ≡ None }
    ensures words_refused { asked_by (map string_bytes words.now) ≡ None → (result.status ≡ 2) ⊎ (result.status ≡ 8) }
    ensures refused { (result.status ≡ 3)
        ↔ (IsSomeAnd result.verdict (λ said. said ≢ Verdict.Accepted) ⊎ IsSome result.start) }
    ensures start { IsSome result.start → result.verdict ≡ Some Verdict.Accepted }
    ensures start_check { (name : List ℕ) → asked_by (map string_bytes words.now) ≡ Some (Check name)
        → result.start ≡ None }
    ensures unread { result.status ≡ 4
        → Rose (F.faults files.old) (F.faults files.new) ⊎ Rose (F.lacks files.old) (F.lacks files.new) }
    ensures unread_told { IfSome (asked_by (map string_bytes words.now)) (λ asked.
        TellsUnread (F.content files.old) (F.faults files.old) (F.faults files.new) (file_of asked) result.status) }
    ensures past_file { IsSome result.verdict
        → Stayed (F.faults files.old) (F.faults files.new) × Stayed (F.lacks files.old) (F.lacks files.new) }
    ensures unwritten { result.status ≡ 5 → RoseOrFull (K.faults out.old) (K.faults out.new) }
    ensures written { result.status ≢ 2 → result.status ≢ 3 → result.status ≢ 4 → result.status ≢ 5 → result.status ≢ 8
        → Stayed (K.faults out.old) (K.faults out.new) }
    ensures completes { Stayed (F.faults files.old) (F.faults files.new)
        → Stayed (F.lacks files.old) (F.lacks files.new)
        → StayedBelow (K.faults out.old) (K.faults out.new)
        → Completes (F.content files.old) (asked_by (map string_bytes words.now)) result.status }

    // What the outside keeps.
    ensures unread_words { result.status ≡ 2 → files.new ≡ files.old }
    ensures untouched { result.verdict ≢ Some Verdict.Accepted → outsides.new.items ≡ outsides.old.items }
    ensures untouched_unstarted { IsSome result.start → outsides.new.items ≡ outsides.old.items }
    ensures untouched_check { (name : List ℕ) → asked_by (map string_bytes words.now) ≡ Some (Check name)
        → outsides.new.items ≡ outsides.old.items }
    ensures content { F.content files.new ≡ F.content files.old }
    ensures file_faults { F.faults files.old ≤ F.faults files.new }
    ensures file_lacks { F.lacks files.old ≤ F.lacks files.new }
    ensures sink_faults { K.faults out.old ≤ K.faults out.new }
    ensures clocks { NoneGoesBack (map O.clock outsides.old.items) (map O.clock outsides.new.items) }
    ensures faults { NoneFalls (map O.faults outsides.old.items) (map O.faults outsides.new.items) }
    ensures waits { NoneFalls (map O.waits outsides.old.items) (map O.waits outsides.new.items) }
    ensures rests { NoneFalls (map O.rests outsides.old.items) (map O.rests outsides.new.items) }
{
    match read_words(alloc, words) {
        Ok(Asked::Run { name, options }) => {
            run_call(alloc, files, out, outsides, name.as_str(), &options)
        }
        Ok(Asked::Check { name }) => {
            Finish::of_check(alloc, check_call(alloc, files, out, name.as_str()))
        }
        Err(WordsFault::Words) => {
            write_refusal(out, b"refused: words\n");
            Finish::without_run(alloc, WORDS, None, None)
        }
        Err(WordsFault::NoMemory) => Finish::without_run(alloc, MEMORY, None, None),
    }
}
