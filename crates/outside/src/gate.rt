use std::sync::atomic::{AtomicBool, Ordering};

/// How many turns a wait at a gate takes at most.
const MOST_TURNS: u64 = 300_000_000;

/// Where the outsides of two workers wait for each other, so that a test can tell that two turns run at once.
///
/// At it the `enter` of two processes waits, each until the other has begun the same call, and so does the `connect` in
/// their turns. A wait takes 300,000,000 turns at most. No clause says what it does.
#[derive(Drop)]
pub struct Gate {
    first: u64,
    second: u64,
    enters: Meeting,
    connects: Meeting,
    ran_out: AtomicBool,
}

impl Gate {
    /// A gate for the processes of these two numbers.
    pub fn new(first: u64, second: u64) -> Gate {
        Gate {
            first,
            second,
            enters: Meeting::new(),
            connects: Meeting::new(),
            ran_out: AtomicBool::new(false),
        }
    }

    /// Whether a wait ran out.
    pub fn ran_out(&self) -> bool {
        self.ran_out.load(Ordering::SeqCst)
    }

    /// Waits where a worker enters this process.
    pub(crate) fn enter(&self, pid: u64) {
        self.wait(&self.enters, pid, MOST_TURNS);
    }

    /// Waits where this process connects.
    pub(crate) fn connect(&self, pid: u64) {
        self.wait(&self.connects, pid, MOST_TURNS);
    }

    fn wait(&self, meeting: &Meeting, pid: u64, turns: u64) {
        let met = if pid == self.first {
            meet(&meeting.first, &meeting.second, turns)
        } else if pid == self.second {
            meet(&meeting.second, &meeting.first, turns)
        } else {
            true
        };
        if !met {
            self.ran_out.store(true, Ordering::SeqCst);
        }
    }
}

/// Which of two have come.
#[derive(Drop)]
struct Meeting {
    first: AtomicBool,
    second: AtomicBool,
}

impl Meeting {
    fn new() -> Meeting {
        Meeting {
            first: AtomicBool::new(false),
            second: AtomicBool::new(false),
        }
    }
}

/// Says that one has come, and waits for the other. Answers whether it came.
fn meet(mine: &AtomicBool, other: &AtomicBool, turns: u64) -> bool {
    mine.store(true, Ordering::SeqCst);
    for _ in 0..turns {
        if other.load(Ordering::SeqCst) {
            return true;
        }
    }
    false
}

#[cfg(test)]
mod tests {
    use super::Gate;

    #[test]
    fn a_wait_ends_when_the_other_has_come(rt: HostRuntime) {
        let gate = Gate::new(2, 3);
        gate.wait(&gate.enters, 5, 4);
        assert!(rt; !gate.ran_out());
        gate.wait(&gate.enters, 2, 4);
        assert!(rt; gate.ran_out());
        let gate = Gate::new(2, 3);
        gate.enters.first.store(true, super::Ordering::SeqCst);
        gate.enter(3);
        assert!(rt; !gate.ran_out());
        gate.wait(&gate.connects, 3, 4);
        assert!(rt; gate.ran_out());
    }
}
