/// What becomes of a message that a process sends.
#[derive(Clone, Copy, Debug, PartialEq, Eq)]
pub enum Post {
    /// It is put into the mailbox: answered 0.
    Put,
    /// No live process has the number: answered 1.
    Nobody,
    /// The mailbox is full: answered 2.
    Full,
    /// The machine refused memory: answered 12.
    Refused,
}

/// What becomes of a receive.
#[derive(Clone, Copy, Debug, PartialEq, Eq)]
pub enum Receipt {
    /// A message is delivered: answered 0.
    Delivered,
    /// Nothing is wanted, and the time is up at once: answered 9027.
    TimedOut,
    /// Nothing is wanted, and the process waits.
    Waits,
}
