//! The lock, its passes and its holds.
ghost use Rattle.std.specs.Prelude.{◌≡◌, ◌<◌, true, [], ◌∷◌, length, None};
ghost use Rattle.log_lock.specs.Rule.{is_served};
ghost use Rattle.log_lock.specs.declared.knowledge.Turn.TheVariants.{Idle};

use crate::logged::Logged;
use crate::rule::{LogSeat, LogTable};

/// A lock over a value, which it hands out to one pass at a time.
pub struct LogLock<V: Logged> {
    pub(crate) table: LogTable<V>,
    ghost sized: { (table.shared.table_id.words ≡ 2) × (table.shared.table_id.slots ≡ 1) },
}

/// The right to enter a lock, and what its bearer has seen of the value.
#[derive(Drop)]
pub struct Pass<V: Logged> {
    pub(crate) seat: LogSeat<V>,
    pub(crate) number: u8,
    ghost empty: { seat.me.1 ≡ [] },
    ghost idle: { seat.me.0.turn ≡ Idle },
    ghost named: { seat.me.0.knows.number ≡ number },
    ghost live: { 0 < length seat.me.0.knows.numbers },
}

/// A pass while its bearer has the value. It can't be let go: `leave` takes it, with the value.
pub struct Hold<V: Logged> {
    pub(crate) seat: LogSeat<V>,
    pub(crate) number: u8,
    ghost taken: { seat.me.1 ≡ (0, None) ∷ [] },
    ghost served: { is_served seat.me.0.turn ≡ true },
    ghost named: { seat.me.0.knows.number ≡ number },
    ghost live: { 0 < length seat.me.0.knows.numbers },
}

/// The passes that weren't handed out yet. Contracts see them as a list, the least number first.
#[derive(Drop)]
pub struct Passes<V: Logged> {
    // The least number lies last.
    pub(crate) rest: Vec<Pass<V>>,
}
