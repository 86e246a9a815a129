use thiserror::Error;

/// Fewer bytes are left than were wanted.
#[derive(Clone, Copy, Debug, PartialEq, Eq, Error)]
#[error("the input ends too early")]
pub struct Short;

/// Why no number stands at the cursor.
#[derive(Clone, Copy, Debug, PartialEq, Eq, Error)]
pub enum LebFault {
    /// The input ends inside the number.
    #[error("the input ends inside a number")]
    Short,
    /// The last byte that the number may have continues, or has wrong unused bits.
    #[error("a number is longer than its type allows")]
    TooLong,
}
