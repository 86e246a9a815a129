ghost use Rattle.std.specs.Prelude.{◌≡◌, ◌^◌, ◌<◌, ◌≤◌, List, ℕ, IfOk, Err, length};
ghost use Rattle.wasm_form.specs.Least.{least_module};
ghost use Rattle.wasm_form.specs.Modules.{Spells};
ghost use Rattle.module_writer.specs.Shortest.{IsShortest};

use crate::WriteFault;
use crate::lengths::module_length;
use crate::sections::{write_early, write_late};
use std::alloc::Global;
use wasm_form::Module;

/// The magic number and the version (Core 1.0, 5.5.15).
const PREAMBLE: [u8; 8] = [0x00, 0x61, 0x73, 0x6D, 0x01, 0x00, 0x00, 0x00];

/// The most bytes that a written module may have.
const MOST_BYTES: u32 = 1 << 24;

/// The fewest bytes that spell the module, at most 16,777,216. `TooLarge` exactly where all bytes
/// that spell it are more; `NoMemory` where the machine has no memory for them, and only for a
/// module whose fewest bytes are at most 16,777,216.
pub fn write_module(alloc: Global, module: &Module) -> Result<Vec<u8>, WriteFault>
    ensures shortest { IfOk result (λ written. IsShortest written.items «module».now) }
    ensures few { IfOk result (λ written. length written.items ≤ 2 ^ 24) }
    ensures too_large { result ≡ Err WriteFault.TooLarge → (bytes : List ℕ)
        → Spells bytes «module».now → 2 ^ 24 < length bytes }
    ensures wants { result ≡ Err WriteFault.NoMemory → least_module «module».now ≤ 2 ^ 24 }
{
    wasm_form::least_lengths();
    wasm_form::least_contents();
    let parts = module.parts();
    let length = match module_length(parts) {
        Some(length) if length <= MOST_BYTES => length,
        _ => return Err(WriteFault::TooLarge),
    };
    let mut written = Vec::with_capacity(alloc, length as usize)?;
    written.extend_from_slice(&PREAMBLE)?;
    write_early(parts, &mut written)?;
    write_late(parts, &mut written)?;
    Ok(written)
}
