//! The value under the lock.
use log_lock::Logged;

/// An amount, and the number of the pass by which it was entered.
#[derive(Drop)]
pub struct Entry {
    /// The number of the pass.
    pub by: u8,
    /// The amount.
    pub amount: u64,
}

/// A start, which never changes, and the entries since.
#[derive(Drop)]
pub struct Tally {
    /// What the tally began with.
    pub start: u64,
    /// The entries, in the order in which they were entered.
    pub entries: Vec<Entry>,
}

impl Logged for Tally {
    type Item = Entry;

    type Base = u64;

    ghost entries = { λ t. t.entries.items };

    ghost maker = { λ e. e.by };

    ghost base = { λ t. t.start };
}
