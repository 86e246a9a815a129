ghost use Rattle.std.specs.Prelude.{◌≡◌, IfOk};
ghost use Rattle.world_rules.specs.Report.{report_text, IsReportable};

use crate::Journal;
use memory_refusal::NoMemory;
use std::alloc::Global;

/// The report of a journal whose entries tell a world and whose list of ends is that world's: entry by entry what its
/// calls printed and the lines of its ends, and then the total line. `NoMemory` comes for want of memory alone.
pub fn report(alloc: Global, journal: &Journal) -> Result<Vec<u8>, NoMemory>
    requires { IsReportable journal.now }
    ensures { IfOk result (λ text. text.items ≡ report_text journal.now) }
{
    plain_world::report(alloc, journal.births(), journal.entries(), journal.ends())
}
