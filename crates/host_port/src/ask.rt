/// A call of the host, as the guest makes it.
#[derive(Clone, Copy, Debug, PartialEq, Eq)]
pub struct Ask {
    /// The number of the call in the host table.
    pub call: u8,
    /// The arguments in their order; those that the call does not have are 0. An i32 is the
    /// number below 2^32 that its bits spell, an i64 the number below 2^64.
    pub args: [u64; 8],
}
