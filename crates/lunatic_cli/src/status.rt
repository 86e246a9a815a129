ghost use Rattle.std.specs.Prelude.{◌≡◌, Some};
ghost use Rattle.world_rules.specs.declared.halt.End.{End};
ghost use Rattle.world_rules.specs.Views.{Ends, want_of};
ghost use Rattle.world_rules.specs.Told.{told};
ghost use Rattle.world_rules.specs.Lives.{Setting};
ghost use Rattle.module_validator.specs.ValidModule.{ValidModule};
ghost use Rattle.lunatic_cli.specs.Statuses.{HasStatus, EndsByLast, status_of_end};

use crate::finish::{DONE, FAILED, IDLE, MEMORY, STALLED};
use journal::Journal;
use world_rules::{Entry, Halt};

/// The status by the halt with which process 1 ended.
fn status_by(halt: &Halt) -> u8
    ensures { (end : End) → want_of halt.now ≡ Ends end → result ≡ status_of_end end }
{
    match halt {
        Halt::Done => DONE,
        Halt::NoMemory => MEMORY,
        _ => FAILED,
    }
}

/// The status that the journal of a run tells, which its last entry has ended.
pub fn status_of(journal: &Journal) -> u8
    requires { (setting : Setting ValidModule) × EndsByLast setting (told journal.now) journal.now.entries }
    ensures { HasStatus journal.now result }
{
    match journal.entries() {
        [.., Entry::Give { halt, .. }] => status_by(halt),
        [.., Entry::Stall { .. }] => STALLED,
        [.., Entry::Idle { .. }] => IDLE,
        [.., Entry::Starve { .. }] => MEMORY,
        [.., Entry::Take { .. } | Entry::Tick { .. }] | [] => unreachable!(),
    }
}
