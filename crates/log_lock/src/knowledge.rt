//! What a seat at the lock's table knows. These types serve the proofs alone: no value of them is made.
use std::collections::LinkedList;

/// What a pass knows. One in which no number stands is spent: it was joined into another.
pub struct Knowledge<I, B> {
    /// The base of the lock's value.
    pub base: Option<B>,
    /// How many passes the lock was made with.
    pub count: u8,
    /// Its own number.
    pub number: u8,
    /// The numbers that stand in it: its own, and those of the passes that were joined into it.
    pub numbers: LinkedList<u8>,
    /// The entries that it has seen, the first one first.
    pub seen: LinkedList<I>,
}

/// Where a seat stands in the queue. A ticket is counted without end here; its word keeps it modulo 2^64.
pub enum Turn {
    /// It has no ticket.
    Idle,
    /// It has this ticket, and waits.
    Waiting(u64),
    /// It has this ticket, and is served.
    Served(u64),
}

/// What the table's rule knows of a seat.
pub struct View<I, B> {
    pub knows: Knowledge<I, B>,
    pub turn: Turn,
    /// What the passes knew from which it was joined, until it looks at the table again.
    pub sources: LinkedList<Knowledge<I, B>>,
}
