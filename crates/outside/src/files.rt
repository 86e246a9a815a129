ghost use Rattle.std.specs.Prelude.{◌≡◌, ◌≤◌, ℕ, List, [], Option, IfSome, length};
ghost use Rattle.outside.specs.Files.{Contents, FitsFile, FaultCause, LackCause};

/// How the read of a file ended.
#[derive(Clone, Copy, Debug, PartialEq, Eq)]
pub enum FileStep {
    /// The file was read whole.
    Done,
    /// The file has more bytes than the limit.
    TooLong,
    /// There is no file of this name.
    Missing,
    /// The reading failed.
    Failed,
    /// The machine refused memory.
    NoMemory,
}

/// A store of files, which are read whole.
pub trait Files {
    /// The bytes of each file, where the store tells them: always or never.
    ghost content: { Self → Option Contents };

    /// How often a read failed. It never falls.
    ghost faults: { Self → ℕ };

    /// How often a file was missing or too long. It never falls.
    ghost lacks: { Self → ℕ };

    /// Reads the file of this name into a buffer that is empty, at most `limit` bytes of it.
    ///
    /// `TooLong` and `Missing` come only where the lacks rose, `Failed` only where the faults rose, and the counts rise
    /// nowhere else. After an answer other than `Done` the buffer holds nothing of use.
    fn read(&mut self, name: &str, into: &mut Vec<u8>, limit: u64) -> FileStep
        requires empty { into.old.items ≡ [] }
        ensures within { result ≡ FileStep.Done → length into.new.items ≤ limit }
        ensures told { IfSome (content self.old) (λ files. FitsFile (files name.now) limit into.new.items result) }
        ensures content { content self.new ≡ content self.old }
        ensures faults { FaultCause (faults self.old) (faults self.new) result }
        ensures lacks { LackCause (lacks self.old) (lacks self.new) result };
}
