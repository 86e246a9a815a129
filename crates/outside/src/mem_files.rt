ghost use Rattle.std.specs.Prelude.{◌≡◌, ◌≢◌, ◌≤◌, [], map, length, string_bytes};
ghost use Rattle.outside.specs.Files.{FitsFile, FaultCause, LackCause};
ghost use Rattle.std.specs.Option.{option_copied};
ghost use Rattle.outside.specs.MemFiles.{PlannedRead, contents_of, lacks_file, new_store};

use crate::{FileStep, Files, raise};
use std::marker::Model;

/// Files in memory, which tell their contents. Reads of chosen numbers fail.
///
/// Contracts see the files by their names, the numbers of the reads that are to fail, the number of the next read and
/// the counts. With no read that is to fail, no read raises the count of faults. A read that would raise a count that
/// stands at its end answers `NoMemory`.
#[derive(Drop)]
pub struct MemFiles {
    files: Vec<(String, Vec<u8>)>,
    fails: Vec<u64>,
    calls: u64,
    faults: u64,
    lacks: u64,
}

impl Model for MemFiles {
    ghost use Rattle.std.specs.Prelude.{map, string_bytes};
    ghost use Rattle.outside.specs.MemFiles.{MemStore};

    ghost Value = { MemStore };

    ghost view = { λ s. record {
      files = map (λ file. (string_bytes file.0, file.1.items)) s.files.items;
      fails = s.fails.items;
      calls = s.calls;
      faults = s.faults;
      lacks = s.lacks;
    } };
}

impl MemFiles {
    /// A store of these files. Where two have one name, the first counts. `fails` are the numbers of the reads that
    /// are to fail, counted from 0.
    pub fn new(files: Vec<(String, Vec<u8>)>, fails: Vec<u64>) -> MemFiles
        ensures { result ≡ new_store (map (λ file. (string_bytes file.0, file.1.items)) files.items) fails.items }
    {
        MemFiles {
            files,
            fails,
            calls: 0,
            faults: 0,
            lacks: 0,
        }
    }
}

impl Files for MemFiles {
    ghost use Rattle.std.specs.Prelude.{Some};
    ghost use Rattle.outside.specs.MemFiles.{contents_of};

    ghost content = { λ s. Some (contents_of s.files) };

    ghost faults = { λ s. s.faults };

    ghost lacks = { λ s. s.lacks };

    fn read(&mut self, name: &str, into: &mut Vec<u8>, limit: u64) -> FileStep
        requires empty { into.old.items ≡ [] }
        ensures within { result ≡ FileStep.Done → length into.new.items ≤ limit }
        ensures told { FitsFile (contents_of self.old.files name.now) limit into.new.items result }
        ensures content { contents_of self.new.files ≡ contents_of self.old.files }
        ensures faults { FaultCause self.old.faults self.new.faults result }
        ensures lacks { LackCause self.old.lacks self.new.lacks result }
        ensures planned { PlannedRead self.old name.now limit into.new.items result self.new }
    {
        let call = self.calls;
        self.calls = call.saturating_add(1);
        if self.fails.contains(&call) {
            if raise(&mut self.faults) {
                return FileStep::Failed;
            }
            return FileStep::NoMemory;
        }
        let step = read_within(find(&self.files, name), into, limit);
        if !is_lack(step) {
            return step;
        }
        if raise(&mut self.lacks) {
            step
        } else {
            FileStep::NoMemory
        }
    }
}

/// Whether the file was missing or too long.
fn is_lack(step: FileStep) -> bool
    ensures { result ≡ lacks_file step }
{
    matches!(step, FileStep::TooLong | FileStep::Missing)
}

/// The bytes of the first file of this name.
fn find<'a>(files: &'a [(String, Vec<u8>)], name: &str) -> Option<&'a [u8]>
    ensures { option_copied result ≡ contents_of (map (λ file. (string_bytes file.0, file.1.items)) files.now) name.now }
{
    for (known, bytes) in files {
        if known.as_str() == name {
            return Some(bytes.as_slice());
        }
    }
    None
}

/// Reads a file that is there or isn't into a buffer that is empty.
fn read_within(file: Option<&[u8]>, into: &mut Vec<u8>, limit: u64) -> FileStep
    requires empty { into.old.items ≡ [] }
    ensures within { result ≡ FileStep.Done → length into.new.items ≤ limit }
    ensures fits { FitsFile (option_copied file.entry) limit into.new.items result }
    ensures no_fault { result ≢ FileStep.Failed }
{
    let Some(bytes) = file else {
        return FileStep::Missing;
    };
    if bytes.len() as u64 > limit {
        return FileStep::TooLong;
    }
    match into.extend_from_slice(bytes) {
        Ok(()) => FileStep::Done,
        Err(_) => FileStep::NoMemory,
    }
}
