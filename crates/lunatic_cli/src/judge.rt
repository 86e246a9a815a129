ghost use Rattle.std.specs.Prelude.{◌≡◌, ◌≤◌, ◌⊎◌, Err, IfOk, IfSome, OnOk};
ghost use Rattle.outside.specs.Causes.{Rose, Stayed};
ghost use Rattle.lunatic_cli.specs.File.{HasVerdict, IsUnreadable};
ghost use Rattle.lunatic_cli.specs.Judged.{IsJudged, IsJudgedText, IsJudgedModule, verdict_of};

use body_reader::ReadFault;
use memory_refusal::NoMemory;
use module_reader::read_module;
use module_validator::{Valid, Verdict, accept};
use outside::{FileStep, Files};
use std::alloc::Global;
use wasm_form::Module;

/// The longest module file, in bytes.
const FILE_LIMIT: u64 = 16_777_216;

/// A module file that was read and judged.
#[derive(Drop)]
pub enum JudgedFile {
    /// Its module is accepted, and this is it.
    Accepted(Valid),
    /// Its module is refused by this verdict.
    Refused(Verdict),
}

impl JudgedFile {
    /// The verdict on the file.
    pub fn verdict(&self) -> Verdict
        ensures { result ≡ verdict_of self.now }
    {
        match self {
            JudgedFile::Accepted(_) => Verdict::Accepted,
            JudgedFile::Refused(verdict) => *verdict,
        }
    }
}

/// Why a module file isn't judged.
#[derive(Clone, Copy)]
pub enum Unjudged {
    /// It is missing, too long, or its reading failed.
    Unread,
    /// The machine has no memory.
    NoMemory,
}

/// Reads the file of this name and judges it.
pub fn judge<F: Files>(alloc: Global, files: &mut F, name: &str) -> Result<JudgedFile, Unjudged>
    ensures judged { IfOk result (λ file. IsJudged (F.content files.old) name.now file) }
    ensures verdict { IfOk result (λ file. HasVerdict (F.content files.old) name.now (verdict_of file)) }
    ensures stayed { OnOk result (Stayed (F.faults files.old) (F.faults files.new)
        × Stayed (F.lacks files.old) (F.lacks files.new)) }
    ensures unread { result ≡ Err Unjudged.Unread
        → Rose (F.faults files.old) (F.faults files.new) ⊎ Rose (F.lacks files.old) (F.lacks files.new) }
    ensures told { result ≡ Err Unjudged.Unread → Stayed (F.faults files.old) (F.faults files.new)
        → IfSome (F.content files.old) (λ files. IsUnreadable (files name.now)) }
    ensures faults { F.faults files.old ≤ F.faults files.new }
    ensures lacks { F.lacks files.old ≤ F.lacks files.new }
    ensures content { F.content files.new ≡ F.content files.old }
{
    let mut bytes = Vec::new(alloc);
    match files.read(name, &mut bytes, FILE_LIMIT) {
        FileStep::Done => {}
        FileStep::TooLong | FileStep::Missing | FileStep::Failed => return Err(Unjudged::Unread),
        FileStep::NoMemory => return Err(Unjudged::NoMemory),
    }
    match judge_text(alloc, bytes.as_slice()) {
        Ok(file) => Ok(file),
        Err(NoMemory) => Err(Unjudged::NoMemory),
    }
}

/// Judges the bytes of a file.
fn judge_text(alloc: Global, bytes: &[u8]) -> Result<JudgedFile, NoMemory>
    ensures { IfOk result (λ file. IsJudgedText bytes.now file) }
{
    match read_module(alloc, bytes) {
        Ok(module) => judge_module(alloc, module),
        Err(fault) => match fault {
            ReadFault::Malformed => Ok(JudgedFile::Refused(Verdict::Malformed)),
            ReadFault::NoMemory => Err(NoMemory),
        },
    }
}

/// Judges a module that some bytes spell.
fn judge_module(alloc: Global, module: Module) -> Result<JudgedFile, NoMemory>
    ensures { IfOk result (λ file. IsJudgedModule «module» file) }
{
    match accept(alloc, module) {
        Ok(valid) => Ok(JudgedFile::Accepted(valid)),
        Err(refused) => match refused.verdict() {
            Some(verdict) => Ok(JudgedFile::Refused(verdict)),
            None => Err(NoMemory),
        },
    }
}
