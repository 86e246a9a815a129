//! Numbers in as few bytes as spell them (Core 1.0, 5.2.2), and bytes.

ghost use Rattle.std.specs.Prelude.{◌≡◌, ◌-◌, ◌^◌, ◌<◌, ℕ, ℤ, OnOk};
ghost use Rattle.std.specs.Int.{cast_unsigned, w32, w64};
ghost use Rattle.leb_read.specs.Numbers.{SpellsSigned};
ghost use Rattle.wasm_form.specs.Values.{SpellsU32, SpellsBytes};
ghost use Rattle.wasm_form.specs.Least.{least_unsigned, least_signed, least_s32, least_s64};
ghost use Rattle.wasm_form.specs.Least.{least_bytes};
ghost use Rattle.module_writer.specs.Writing.{HasSpelling, Appends};
ghost use Rattle.module_writer.specs.Writing.{signed_of, next_byte, last_byte};

use memory_refusal::NoMemory;

/// An unsigned number of 32 bits.
pub fn write_u32(n: u32, out: &mut Vec<u8>) -> Result<(), NoMemory>
    ensures { OnOk result (Appends SpellsU32 least_unsigned n out.old.items out.new.items) }
{
    let mut rest = n;
    while rest >= 128 {
        out.push((rest % 128) as u8 + 128)?;
        rest /= 128;
    }
    out.push(rest as u8)?;
    Ok(())
}

/// The signed number `n`, or `-1 - n`, whatever number of bits holds it.
fn write_signed(n: u64, negative: bool, out: &mut Vec<u8>) -> Result<(), NoMemory>
    ensures { OnOk result ((N : ℕ) → 0 < N → n < 2 ^ (N - 1)
        → Appends (λ s _. SpellsSigned N s (signed_of negative n)) least_signed n
        out.old.items out.new.items) }
{
    let mut rest = n;
    while rest >= 64 {
        out.push(next_byte(rest, negative))?;
        rest /= 128;
    }
    out.push(last_byte(rest, negative))?;
    Ok(())
}

/// A byte that another follows, of the number `n`, or `-1 - n`.
fn next_byte(n: u64, negative: bool) -> u8
    ensures { result ≡ next_byte negative n }
{
    let low = (n % 128) as u8;
    if negative { 255 - low } else { 128 + low }
}

/// The last byte of the number `n`, or `-1 - n`.
fn last_byte(n: u64, negative: bool) -> u8
    requires { n < 64 }
    ensures { result ≡ last_byte negative n }
{
    let low = n as u8;
    if negative { 127 - low } else { low }
}

/// The signed number of 32 bits that has these bits.
pub fn write_s32(bits: u32, out: &mut Vec<u8>) -> Result<(), NoMemory>
    ensures { OnOk result (Appends (λ s b. (n : ℤ) × SpellsSigned 32 s n × (b ≡ cast_unsigned w32 n))
        least_s32 bits out.old.items out.new.items) }
{
    if bits < 1 << 31 {
        write_signed(bits as u64, false, out)?;
        return Ok(());
    }
    write_signed((u32::MAX - bits) as u64, true, out)?;
    Ok(())
}

/// The signed number of 64 bits that has these bits.
pub fn write_s64(bits: u64, out: &mut Vec<u8>) -> Result<(), NoMemory>
    ensures { OnOk result (Appends (λ s b. (n : ℤ) × SpellsSigned 64 s n × (b ≡ cast_unsigned w64 n))
        least_s64 bits out.old.items out.new.items) }
{
    if bits < 1 << 63 {
        write_signed(bits, false, out)?;
        return Ok(());
    }
    write_signed(u64::MAX - bits, true, out)?;
    Ok(())
}

/// Bytes, with their number before them (Core 1.0, 5.1.3).
pub fn write_bytes(bytes: &[u8], out: &mut Vec<u8>) -> Result<(), NoMemory>
    requires { HasSpelling SpellsBytes bytes.now }
    ensures { OnOk result (Appends SpellsBytes least_bytes bytes.now out.old.items out.new.items) }
{
    write_u32(bytes.len() as u32, out)?;
    out.extend_from_slice(bytes)?;
    Ok(())
}
