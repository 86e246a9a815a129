ghost use Rattle.std.specs.Prelude.{◌≡◌, ◌≢◌, ◌≤◌, ◌⊎◌, ◌↔◌, IsSome, IsSomeAnd};
ghost use Rattle.outside.specs.Causes.{Rose, RoseOrFull, Stayed, StayedBelow};
ghost use Rattle.lunatic_cli.specs.File.{TellsUnread};
ghost use Rattle.lunatic_cli.specs.Checks.{EndsCheck, CheckCompletes};

use crate::judge::judge;
use crate::laws::accepted_alone;
use crate::telling::{tell_unjudged, tell_verdict};
use crate::{Checked, Verdict};
use outside::{Files, Sink};
use std::alloc::Global;

/// Reads the file of this name, judges it as a module, and writes the verdict's line.
///
/// The status is 0 where the module is accepted, 3 where it is refused, 4 where the file is missing, longer than
/// 16,777,216 bytes, or its reading failed, 5 in place of 0 where the sink failed, and 8 for want of memory, with which
/// nothing is written.
pub fn check_call<F: Files, K: Sink>(
    alloc: Global,
    files: &mut F,
    out: &mut K,
    name: &str,
) -> Checked
    // What is judged and what is written, with each status.
    ensures ends { EndsCheck (F.content files.old) name.now (record {
      faults_before = K.faults out.old;
      faults_after = K.faults out.new;
      before = K.written out.old;
      after = K.written out.new;
    }) result.status result.verdict }

    // When each status comes.
    ensures refused { (result.status ≡ 3) ↔ IsSomeAnd result.verdict (λ said. said ≢ Verdict.Accepted) }
    ensures unread { result.status ≡ 4
        → Rose (F.faults files.old) (F.faults files.new) ⊎ Rose (F.lacks files.old) (F.lacks files.new) }
    ensures unread_told { TellsUnread (F.content files.old) (F.faults files.old) (F.faults files.new) name.now
        result.status }
    ensures past_file { IsSome result.verdict
        → Stayed (F.faults files.old) (F.faults files.new) × Stayed (F.lacks files.old) (F.lacks files.new) }
    ensures unwritten { result.status ≡ 5 → RoseOrFull (K.faults out.old) (K.faults out.new) }
    ensures written { result.status ≢ 3 → result.status ≢ 4 → result.status ≢ 5 → result.status ≢ 8
        → Stayed (K.faults out.old) (K.faults out.new) }
    ensures completes { Stayed (F.faults files.old) (F.faults files.new)
        → Stayed (F.lacks files.old) (F.lacks files.new)
        → StayedBelow (K.faults out.old) (K.faults out.new)
        → CheckCompletes (F.content files.old) name.now result.status }

    // What the outside keeps.
    ensures content { F.content files.new ≡ F.content files.old }
    ensures file_faults { F.faults files.old ≤ F.faults files.new }
    ensures file_lacks { F.lacks files.old ≤ F.lacks files.new }
    ensures sink_faults { K.faults out.old ≤ K.faults out.new }
{
    // So an accepted file is not refused.
    accepted_alone();
    match judge(alloc, files, name) {
        Ok(file) => tell_verdict(alloc, out, file.verdict()),
        Err(why) => tell_unjudged(out, why),
    }
}
