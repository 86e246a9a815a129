use host_port::Start;

/// What became of the start of a process.
#[derive(Debug, Drop)]
pub enum Birth {
    /// The process was born with this start.
    Born(Start),
    /// No process was born, and the caller got this reply.
    Refused(u64),
}

/// The memory of a process at its end.
#[derive(Clone, Copy, Debug, PartialEq, Eq)]
pub struct Ended {
    /// The process's number.
    pub pid: u64,
    /// The size of its memory, in pages of 65,536 bytes.
    pub pages: u32,
    /// The sum of (i + 1) times byte i of its memory, modulo 2^64.
    pub mark: u64,
}
