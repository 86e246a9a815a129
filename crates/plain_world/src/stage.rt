use host_port::Request;
use world_rules::End;

/// Where a process is.
#[derive(Debug, Drop)]
pub enum PlainStage {
    /// Not born yet.
    Unborn,
    /// At home, and able to go on.
    Ready,
    /// Out to this worker.
    Out(u8),
    /// Waiting for the answer to this request.
    Waiting(Request),
    /// Out to this worker, with the end that it will have.
    Doomed(u8, End),
    /// Ended so.
    Ended(End),
}
