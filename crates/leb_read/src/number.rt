ghost use Rattle.std.specs.Prelude.{◌+◌, ◌*◌, ◌<◌, ◌≤◌, [], ◌∷◌, MatchResult, MatchOption};
ghost use Rattle.leb_read.specs.Numbers.{SpellsUnsigned, SpellsSigned};
ghost use Rattle.leb_read.specs.Reading.{IsRead, Cause, MayEndUnsigned, MayEndSigned};

use crate::LebFault;

/// The unsigned number at the front and the bytes after it, in at most `more` bytes that continue
/// and one of which the number has `last_bits` bits. A number has ten bytes at most, and the calls
/// nest no deeper.
pub fn unsigned(more: u32, last_bits: u32, bytes: &[u8]) -> Result<(u64, &[u8]), LebFault>
    requires some { 1 ≤ last_bits }
    requires fits { 7 * more + last_bits ≤ 64 }
    requires last { last_bits ≤ 7 }
    ensures { MatchResult result
        (λ x. IsRead (λ s. SpellsUnsigned (7 * more + last_bits) s x.0) bytes.now x.1.now)
        (λ e. Cause (MayEndUnsigned last_bits) (more + 1) bytes.now e) }
{
    let Some((&first, rest)) = bytes.split_first() else {
        return Err(LebFault::Short);
    };
    if more == 0 {
        return if first < 1 << last_bits {
            Ok((u64::from(first), rest))
        } else {
            Err(LebFault::TooLong)
        };
    }
    if first < 128 {
        return Ok((u64::from(first), rest));
    }
    let (high, rest) = unsigned(more - 1, last_bits, rest)?;
    Ok((128 * high + u64::from(first - 128), rest))
}

/// The signed number at the front and the bytes after it, in at most `more` bytes that continue
/// and one of which the number has `last_bits` bits.
pub fn signed(more: u32, last_bits: u32, bytes: &[u8]) -> Result<(i64, &[u8]), LebFault>
    requires some { 1 ≤ last_bits }
    requires fits { 7 * more + last_bits ≤ 64 }
    requires last { last_bits ≤ 7 }
    ensures { MatchResult result
        (λ x. IsRead (λ s. SpellsSigned (7 * more + last_bits) s x.0) bytes.now x.1.now)
        (λ e. Cause (MayEndSigned last_bits) (more + 1) bytes.now e) }
{
    let Some((&first, rest)) = bytes.split_first() else {
        return Err(LebFault::Short);
    };
    if more == 0 {
        return match last_signed(last_bits, first) {
            Some(value) => Ok((value, rest)),
            None => Err(LebFault::TooLong),
        };
    }
    if first < 128 {
        return Ok((sign_extended(first), rest));
    }
    let (high, rest) = signed(more - 1, last_bits, rest)?;
    Ok((128 * high + i64::from(first - 128), rest))
}

/// The value of a byte that ends a signed number of which it has `bits` bits; none where it may
/// not end it.
fn last_signed(bits: u32, last: u8) -> Option<i64>
    requires some { 1 ≤ bits }
    requires fits { bits ≤ 7 }
    ensures { MatchOption result (¬ MayEndSigned bits last) (λ v. SpellsSigned bits (last ∷ []) v) }
{
    let half = 1 << (bits - 1);
    if last < half {
        Some(i64::from(last))
    } else if last < 128 && last >= 128 - half {
        Some(i64::from(last) - 128)
    } else {
        None
    }
}

/// The value of a byte that ends a signed number of which it has seven bits.
fn sign_extended(last: u8) -> i64
    requires { last < 128 }
    ensures { SpellsSigned 7 (last ∷ []) result }
{
    if last < 64 {
        i64::from(last)
    } else {
        i64::from(last) - 128
    }
}
