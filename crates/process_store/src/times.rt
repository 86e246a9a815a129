ghost use Rattle.std.specs.Prelude.{◌≡◌, ◌+◌, ◌<◌};
ghost use Rattle.node_state.specs.Posts.{time_beside, deadline_of};

use world_rules::Side;

/// The time after what came beside a Give.
pub(crate) fn time_after(side: &Side, time: u64) -> u64
    ensures { result ≡ time_beside side.now time }
{
    match side {
        Side::Clock(now) => time.max(*now),
        _ => time,
    }
}

/// The deadline of a wait of so many milliseconds that begins at this time; none where the wait has no end.
pub(crate) fn deadline_of(time: u64, ms: u64) -> Option<u64>
    ensures { result ≡ deadline_of time ms }
{
    if ms == 0 || ms > i64::MAX as u64 {
        return None;
    }
    Some(time.saturating_add(ms))
}

/// One early Tick or Pending give more in the row, which is shorter than the journal.
pub(crate) fn longer_row(row: u64, entries: u64) -> u64
    requires { row < entries }
    ensures { result ≡ row + 1 }
{
    let _entries = entries;
    row + 1
}
