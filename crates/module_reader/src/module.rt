ghost use Rattle.wasm_form.specs.Modules.{Spells};
ghost use Rattle.body_reader.specs.Reading.{AnswersWhole};

use crate::sections::read_sections;
use body_reader::ReadFault;
use std::alloc::Global;
use wasm_form::Module;

/// The magic number and the version (Core 1.0, 5.5.15).
const PREAMBLE: [u8; 8] = [0x00, 0x61, 0x73, 0x6D, 0x01, 0x00, 0x00, 0x00];

/// The one module that the bytes spell (Core 1.0, 5.5). `Malformed` exactly where they
/// spell none; `NoMemory` where the machine has no memory for them.
pub fn read_module(alloc: Global, bytes: &[u8]) -> Result<Module, ReadFault>
    ensures { AnswersWhole Spells bytes.now result }
{
    let Some(sections) = bytes.strip_prefix(PREAMBLE.as_slice()) else {
        return Err(ReadFault::Malformed);
    };
    let parts = read_sections(alloc, sections)?;
    if parts.functions.len() != parts.bodies.len() {
        return Err(ReadFault::Malformed);
    }
    Ok(Module::of_spelled(parts))
}
