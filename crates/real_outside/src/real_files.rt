ghost use Rattle.std.specs.Prelude.{◌≡◌, ◌≤◌, length};

use outside::{FileStep, Files, raise};
use std::fs::File;
use std::io::{self, ErrorKind, Read};
use std::rt;

/// The files of the machine. It tells no content.
#[derive(Drop)]
pub struct RealFiles<'a, R: rt::Files> {
    rt: &'a R,
    faults: u64,
    lacks: u64,
}

impl<'a, R: rt::Files> RealFiles<'a, R> {
    /// A store whose counts begin at 0.
    pub fn new(rt: &'a R) -> RealFiles<'a, R>
        ensures faults { result.faults ≡ 0 }
        ensures lacks { result.lacks ≡ 0 }
    {
        RealFiles {
            rt,
            faults: 0,
            lacks: 0,
        }
    }
}

impl<R: rt::Files> Files for RealFiles<'_, R> {
    ghost use Rattle.std.specs.Prelude.{None};

    ghost content = { λ _. None };

    ghost faults = { λ s. s.faults };

    ghost lacks = { λ s. s.lacks };

    fn read(&mut self, name: &str, into: &mut Vec<u8>, limit: u64) -> FileStep {
        let step = read_file(self.rt, name, into, limit);
        // A count at its end rises no more, so the answer that would raise it is want of memory.
        let counted = match step {
            FileStep::Failed => raise(&mut self.faults),
            FileStep::TooLong | FileStep::Missing => raise(&mut self.lacks),
            FileStep::Done | FileStep::NoMemory => true,
        };
        if counted { step } else { FileStep::NoMemory }
    }
}

/// Reads the file, one byte past the limit at most.
fn read_file<R: rt::Files>(rt: &R, name: &str, into: &mut Vec<u8>, limit: u64) -> FileStep
    ensures within { result ≡ FileStep.Done → length into.new.items ≤ limit }
{
    match read_bytes(rt, name, into, limit.saturating_add(1)) {
        Ok(()) if into.len() as u64 <= limit => FileStep::Done,
        Ok(()) => FileStep::TooLong,
        Err(error) => match error.kind() {
            ErrorKind::NotFound => FileStep::Missing,
            ErrorKind::OutOfMemory => FileStep::NoMemory,
            _ => FileStep::Failed,
        },
    }
}

/// Reads at most so many bytes from the front of the file.
fn read_bytes<R: rt::Files>(rt: &R, name: &str, into: &mut Vec<u8>, most: u64) -> io::Result<()> {
    File::open(rt, name)?.take(most).read_to_end(into)?;
    Ok(())
}
