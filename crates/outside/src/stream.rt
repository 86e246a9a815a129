ghost use Rattle.std.specs.Prelude.{◌≡◌, ◌≤◌, ℕ, List, Option, Bool, true, length};
ghost use Rattle.outside.specs.Streams.{Moves, StreamFault, StreamWait, StreamEmpty};

/// How a read or a write of a stream ended.
#[derive(Clone, Copy, Debug, PartialEq, Eq)]
pub enum IoStep {
    /// So many bytes were moved. Of a read with a buffer that has room, 0 is the end of the stream.
    Done(usize),
    /// No byte can be moved now.
    NotReady,
    /// The call failed, and no byte was moved.
    Failed,
}

/// A connection: bytes are read from it and written to it until it is shut.
///
/// A stream need not be `Drop` or `Clone`, so code over any stream can neither drop nor copy one: it hands each one on by
/// value, shut or not.
pub trait Stream: Send {
    /// The bytes that were read so far, where the stream tells them: always or never.
    ghost taken: { Self → Option (List ℕ) };

    /// The bytes that were written so far, where the stream tells them: always or never.
    ghost put: { Self → Option (List ℕ) };

    /// How often a call failed. It never falls.
    ghost faults: { Self → ℕ };

    /// How often a call was answered `NotReady`. It never falls.
    ghost waits: { Self → ℕ };

    /// How often a call moved no byte, though the buffer had room or the piece had bytes. It never
    /// falls.
    ghost empties: { Self → ℕ };

    /// The stream was shut.
    ghost down: { Self → Bool };

    /// Reads bytes into the front of the buffer.
    ///
    /// `NotReady` comes only where the waits rose, `Failed` exactly where the faults rose; then nothing was read. A
    /// buffer with room is answered with `Done(0)`, the end of the stream, only where the empties rose or stand at
    /// 2^64 - 1.
    fn read(&mut self, buffer: &mut [u8]) -> IoStep
        ensures taken { Moves result buffer.new (taken self.old) (taken self.new) }
        ensures put { put self.new ≡ put self.old }
        ensures down { down self.new ≡ down self.old }
        ensures faults { StreamFault (faults self.old) (faults self.new) result }
        ensures waits { StreamWait (waits self.old) (waits self.new) result }
        ensures empties { StreamEmpty (empties self.old) (empties self.new) (length buffer.old) result };

    /// Writes the first bytes of the piece.
    ///
    /// `NotReady` comes only where the waits rose, `Failed` exactly where the faults rose; then nothing was written. A
    /// piece that has bytes is answered with `Done(0)` only where the empties rose or stand at 2^64 - 1.
    fn write(&mut self, piece: &[u8]) -> IoStep
        ensures put { Moves result piece.now (put self.old) (put self.new) }
        ensures taken { taken self.new ≡ taken self.old }
        ensures down { down self.new ≡ down self.old }
        ensures faults { StreamFault (faults self.old) (faults self.new) result }
        ensures waits { StreamWait (waits self.old) (waits self.new) result }
        ensures empties { StreamEmpty (empties self.old) (empties self.new) (length piece.now) result };

    /// Shuts the stream, for both directions and for good.
    fn shut(&mut self)
        ensures down { down self.new ≡ true }
        ensures taken { taken self.new ≡ taken self.old }
        ensures put { put self.new ≡ put self.old }
        ensures faults { faults self.new ≡ faults self.old }
        ensures waits { waits self.old ≤ waits self.new }
        ensures empties { empties self.old ≤ empties self.new };
}
