/// Why an item was not put into a mailbox. The item comes back.
#[derive(Debug, Drop)]
pub enum PutRefused<M> {
    /// The mailbox holds 1,024 items that count.
    Full(M),
    /// The machine refused memory.
    NoMemory(M),
}
