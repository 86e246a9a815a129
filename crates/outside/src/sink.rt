ghost use Rattle.std.specs.Prelude.{◌≡◌, ℕ, List, Option, IfOk, OnErr};
ghost use Rattle.outside.specs.Sinks.{TakesFirst, SinkFault};

/// The write failed and took nothing.
#[derive(Clone, Copy, Debug, PartialEq, Eq)]
pub struct Failed;

/// What takes bytes, a piece at a time, in order.
pub trait Sink {
    /// What was written so far, where the sink tells it: always or never.
    ghost written: { Self → Option (List ℕ) };

    /// How often a write failed, or took nothing of a piece that has bytes. It never falls.
    ghost faults: { Self → ℕ };

    /// Takes the first bytes of the piece, and answers how many.
    ///
    /// `Failed` comes only where the faults rose, and then nothing was taken. A piece that has bytes is answered with
    /// 0 only where the faults rose or stand at 2^64 - 1. They rise nowhere else.
    fn write(&mut self, piece: &[u8]) -> Result<usize, Failed>
        ensures taken { IfOk result (TakesFirst piece.now (written self.old) (written self.new)) }
        ensures kept { OnErr result (written self.new ≡ written self.old) }
        ensures faults { SinkFault (faults self.old) (faults self.new) piece.now result };
}
