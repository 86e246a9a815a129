ghost use Rattle.std.specs.Prelude.{◌≡◌, ◌≢◌, ◌≤◌, ◌⊎◌, None, IfOk, IfSome, IfNone, string_bytes};
ghost use Rattle.outside.specs.Causes.{RoseOrFull, Stayed};
ghost use Rattle.lunatic_cli.specs.Texts.{start_line, verdict_line};
ghost use Rattle.lunatic_cli.specs.Writing.{WritesLine};
ghost use Rattle.lunatic_cli.specs.Checks.{EndsUnjudged, TellsVerdict};

use crate::finish::{DONE, FILE, MEMORY, MODULE, SINK};
use crate::judge::Unjudged;
use crate::writing::write_all;
use crate::{Checked, Place, Verdict};
use host_port::StartRefusal;
use memory_refusal::NoMemory;
use outside::Sink;
use std::alloc::Global;

/// Writes the line of a refusal, whose status stands even where the line can't be written.
pub fn write_refusal<K: Sink>(out: &mut K, line: &[u8])
    ensures line { WritesLine line.now (record {
      faults_before = K.faults out.old;
      faults_after = K.faults out.new;
      before = K.written out.old;
      after = K.written out.new;
    }) }
    ensures later { K.faults out.old ≤ K.faults out.new }
{
    let _ = write_all(out, line);
}

/// Tells that the file was not judged, and ends the command. For want of memory nothing is written.
pub fn tell_unjudged<K: Sink>(out: &mut K, why: Unjudged) -> Checked
    ensures verdict { result.verdict ≡ None }
    ensures ends { EndsUnjudged (record {
      faults_before = K.faults out.old;
      faults_after = K.faults out.new;
      before = K.written out.old;
      after = K.written out.new;
    }) result.status }
    ensures unread { result.status ≡ 4 → why ≡ Unjudged.Unread }
    ensures statuses { (result.status ≡ 4) ⊎ (result.status ≡ 8) }
    ensures later { K.faults out.old ≤ K.faults out.new }
{
    let status = match why {
        Unjudged::Unread => {
            write_refusal(out, b"refused: file 0\n");
            FILE
        }
        Unjudged::NoMemory => MEMORY,
    };
    Checked {
        status,
        verdict: None,
    }
}

/// The line of a start that is refused. For want of memory it is empty.
pub fn line_of_start(why: StartRefusal) -> &'static [u8]
    ensures { result.now ≡ start_line why }
{
    match why {
        StartRefusal::NoExport => b"refused: entry\n",
        StartRefusal::BadParams => b"refused: parameters\n",
        StartRefusal::PagesOver => b"refused: pages\n",
        StartRefusal::SegmentOut => b"refused: segment\n",
        StartRefusal::NoMemory => b"",
    }
}

/// The line of a verdict.
fn line_of(alloc: Global, verdict: Verdict) -> Result<String, NoMemory>
    ensures { IfOk result (λ line. string_bytes line ≡ verdict_line verdict) }
{
    Ok(match verdict {
        Verdict::Malformed => format!(in alloc; "refused: module 0 malformed\n")?,
        Verdict::Outside(rule) => format!(in alloc; "refused: module 0 outside rule {rule}\n")?,
        Verdict::Invalid(Place::Rule(rule)) => format!(in alloc;
            "refused: module 0 invalid rule {rule}\n"
        )?,
        Verdict::Invalid(Place::Function(place)) => format!(in alloc;
            "refused: module 0 invalid function {place}\n"
        )?,
        Verdict::Accepted => format!(in alloc; "accepted\n")?,
    })
}

/// Writes the line of a verdict, and answers the status.
fn write_verdict<K: Sink>(out: &mut K, verdict: Verdict, line: &[u8]) -> u8
    requires { line.now ≡ verdict_line verdict }
    ensures told { TellsVerdict verdict (record {
      faults_before = K.faults out.old;
      faults_after = K.faults out.new;
      before = K.written out.old;
      after = K.written out.new;
    }) result }
    ensures unwritten { result ≡ 5 → RoseOrFull (K.faults out.old) (K.faults out.new) }
    ensures written { result ≢ 3 → result ≢ 5 → Stayed (K.faults out.old) (K.faults out.new) }
    ensures later { K.faults out.old ≤ K.faults out.new }
{
    let wrote = write_all(out, line);
    match verdict {
        Verdict::Accepted => { if wrote.is_ok() { DONE } else { SINK } }
        _ => MODULE,
    }
}

/// Tells the verdict on a file, and ends the command. The line is whole before the first write; for want of memory
/// nothing is written, and no verdict is told.
pub fn tell_verdict<K: Sink>(alloc: Global, out: &mut K, verdict: Verdict) -> Checked
    ensures told { IfSome result.verdict (λ said. (said ≡ verdict) × TellsVerdict verdict (record {
      faults_before = K.faults out.old;
      faults_after = K.faults out.new;
      before = K.written out.old;
      after = K.written out.new;
    }) result.status) }
    ensures memory { IfNone result.verdict ((result.status ≡ 8) × (out.new ≡ out.old)) }
    ensures unwritten { result.status ≡ 5 → RoseOrFull (K.faults out.old) (K.faults out.new) }
    ensures written { result.status ≢ 3 → result.status ≢ 5 → Stayed (K.faults out.old) (K.faults out.new) }
    ensures later { K.faults out.old ≤ K.faults out.new }
{
    let Ok(line) = line_of(alloc, verdict) else {
        return Checked {
            status: MEMORY,
            verdict: None,
        };
    };
    Checked {
        status: write_verdict(out, verdict, line.as_bytes()),
        verdict: Some(verdict),
    }
}
