ghost use Rattle.std.specs.Prelude.{◌≡◌, length};
ghost use Rattle.resource_table.specs.Steps.{Reads, Writes, IsShut, told};

use outside::{IoStep, Stream};
use std::marker::Model;

/// A stream with its number. It is neither `Clone` nor `Copy`, and `Drop` only where its stream is: over other streams it is
/// handed on, or gives its stream up by name.
#[derive(Drop)]
pub struct Owned<S: Stream> {
    number: u64,
    stream: S,
}

impl<S: Stream> Model for Owned<S> {
    ghost use Rattle.resource_table.specs.Handles.{Handle};

    ghost Value = { Handle S };

    ghost view = { λ a. record { number = a.number; stream = a.stream } };
}

impl<S: Stream> Owned<S> {
    /// A stream with this number.
    pub fn of(number: u64, stream: S) -> Owned<S>
        ensures { result ≡ record { number = number; stream = stream } }
    {
        Owned { number, stream }
    }

    /// The number.
    pub fn number(&self) -> u64
        ensures { result ≡ self.now.number }
    {
        self.number
    }

    /// The stream.
    pub fn stream(&self) -> &S
        ensures { result.now ≡ self.now.stream }
    {
        &self.stream
    }

    /// The stream, without its number.
    pub fn into_stream(self) -> S
        ensures { result ≡ self.stream }
    {
        let Owned { number: _, stream } = self;
        stream
    }

    /// Reads bytes of the stream into the front of the buffer.
    pub(crate) fn read(&mut self, buffer: &mut [u8]) -> IoStep
        ensures number { self.new.number ≡ self.old.number }
        ensures read { Reads (told S.taken S.put S.faults S.waits S.empties S.down) (length buffer.old) buffer.new
            result self.old.stream self.new.stream }
    {
        self.stream.read(buffer)
    }

    /// Writes the first bytes of the piece to the stream.
    pub(crate) fn write(&mut self, piece: &[u8]) -> IoStep
        ensures number { self.new.number ≡ self.old.number }
        ensures written { Writes (told S.taken S.put S.faults S.waits S.empties S.down) (length piece.now) piece.now
            result self.old.stream self.new.stream }
    {
        self.stream.write(piece)
    }

    /// Shuts the stream.
    pub(crate) fn shut(&mut self)
        ensures { IsShut (told S.taken S.put S.faults S.waits S.empties S.down) self.old self.new }
    {
        self.stream.shut();
    }
}
