//! The least lengths of numbers, and of what follows a code.

ghost use Rattle.std.specs.Prelude.{◌≡◌, ◌≤◌, ◌+◌, All, ⊤, length};
ghost use Rattle.wasm_form.specs.Least.{least_unsigned, least_signed, least_s32, least_s64};
ghost use Rattle.wasm_form.specs.Least.{least_bytes, least_sized, least_imm, zero_byte};
ghost use Rattle.wasm_form.specs.Lengths.{IsLength};
ghost use Rattle.wasm_form.specs.Ranges.{IsOctet, HasImmRange};

use crate::{Imm, Immediates};

/// Of an unsigned number.
#[tactic(auto, unfolding(crate::specs::Least::least_unsigned))]
pub fn unsigned_length(n: u64) -> u32
    ensures is { result ≡ least_unsigned n }
    ensures few { result ≤ 5 }
{
    if n < 1 << 7 {
        1
    } else if n < 1 << 14 {
        2
    } else if n < 1 << 21 {
        3
    } else if n < 1 << 28 {
        4
    } else {
        5
    }
}

/// Of the signed numbers `n` and `-1 - n`.
#[tactic(auto, unfolding(crate::specs::Least::least_signed))]
pub fn signed_length(n: u64) -> u32
    ensures is { result ≡ least_signed n }
    ensures few { result ≤ 10 }
{
    if n < 1 << 6 {
        1
    } else if n < 1 << 13 {
        2
    } else if n < 1 << 20 {
        3
    } else if n < 1 << 27 {
        4
    } else if n < 1 << 34 {
        5
    } else if n < 1 << 41 {
        6
    } else if n < 1 << 48 {
        7
    } else if n < 1 << 55 {
        8
    } else if n < 1 << 62 {
        9
    } else {
        10
    }
}

fn s32_length(bits: u32) -> u32
    ensures is { result ≡ least_s32 bits }
    ensures few { result ≤ 10 }
{
    let n = if bits < 1 << 31 {
        bits
    } else {
        u32::MAX - bits
    };
    signed_length(u64::from(n))
}

fn s64_length(bits: u64) -> u32
    ensures is { result ≡ least_s64 bits }
    ensures few { result ≤ 10 }
{
    let n = if bits < 1 << 63 {
        bits
    } else {
        u64::MAX - bits
    };
    signed_length(n)
}

/// Of the numbers of an instruction.
pub fn imm_length(imm: Imm) -> u32
    ensures is { result ≡ least_imm imm }
    ensures few { result ≤ 10 }
    ensures range { HasImmRange imm }
{
    match imm {
        Imm::None => 0,
        Imm::Block(_) => 1,
        Imm::Index(n) => unsigned_length(u64::from(n)),
        Imm::Table { count, last, .. } => {
            unsigned_length(u64::from(count)) + unsigned_length(u64::from(last))
        }
        Imm::Mem { align, offset } => {
            unsigned_length(u64::from(align)) + unsigned_length(u64::from(offset))
        }
        Imm::I32(bits) => s32_length(bits),
        Imm::I64(bits) => s64_length(bits),
        Imm::F32(_bits) => 4,
        Imm::F64(_bits) => 8,
    }
}

/// How many bytes 00 an instruction has.
pub fn zero_length(kind: Option<Immediates>) -> u32
    ensures is { result ≡ zero_byte kind }
    ensures few { result ≤ 1 }
{
    match kind {
        Some(Immediates::TypeAndZero | Immediates::Zero) => 1,
        _ => 0,
    }
}

/// Two lengths together.
pub fn together(first: u32, second: u32) -> Option<u32>
    ensures { IsLength (first + second) ⊤ result }
{
    first.checked_add(second)
}

/// Of contents of so many bytes with their size before them.
pub fn sized_length(contents: u32) -> Option<u32>
    ensures { IsLength (least_sized contents) ⊤ result }
{
    together(unsigned_length(u64::from(contents)), contents)
}

/// Of these bytes with their number before them.
pub fn bytes_length(bytes: &[u8]) -> Option<u32>
    ensures { IsLength (least_bytes bytes.now) (All IsOctet bytes.now) result }
{
    let count = u32::try_from(bytes.len()).ok()?;
    sized_length(count)
}
