//! Loads and stores.
ghost use Rattle.std.specs.Prelude.{◌≡◌, ◌+◌, ◌*◌, ◌^◌, ◌<◌, ◌≤◌, length, Some, IfOk, IfErr};
ghost use Rattle.wasm_ops.specs.Integers as int;
ghost use Rattle.wasm_ops.specs.Table.{kind_of, width_of, IsAccessWidth};
ghost use Rattle.tree_machine.specs.MemoryAccess.{load};
ghost use Rattle.tree_machine.specs.Outcomes.{Gives, Fails};
ghost use Rattle.flat_machine.specs.Flat.{Flat, goes_on};
ghost use Rattle.flat_machine.specs.Shown.{stack_of};
ghost use Rattle.flat_machine.specs.Straight.{put_top};
ghost use Rattle.straight_code.specs.Going.{TakesAddress, TakesStored};
ghost use Rattle.straight_code.specs.Loads.{number_loaded};

use linear_memory::Memory;
use wasm_ops::{Kind, Trap};

/// The load with this code and offset. The height stays; where it traps, nothing is changed.
#[inline(always)]
pub fn load_top(
    code: u8,
    offset: u32,
    values: &mut [u64],
    sp: usize,
    memory: &Memory,
) -> Result<usize, Trap>
    requires load { kind_of code ≡ Kind.Load }
    requires takes { TakesAddress values.old sp }
    requires within { sp ≤ length values.old }
    ensures height { IfOk result (λ top. top ≡ sp) }
    ensures value { IfOk result (λ top.
        load code offset memory.now.bytes (stack_of values.old sp) ≡ Gives (stack_of values.new top)) }
    ensures trap { IfErr result (λ trap. load code offset memory.now.bytes (stack_of values.old sp) ≡ Fails trap) }
    ensures kept { IfErr result (λ _. values.new ≡ values.old) }
{
    let at = values[sp - 1] + u64::from(offset);
    match memory.load(at, access_width(code)) {
        Some(number) => {
            values[sp - 1] = extended(code, number);
            Ok(sp)
        }
        None => Err(Trap::Bounds),
    }
}

/// The store with this code and offset. Where it traps, nothing is changed.
#[inline(always)]
pub fn store_top(
    code: u8,
    offset: u32,
    values: &[u64],
    sp: usize,
    memory: &mut Memory,
) -> Result<usize, Trap>
    requires store { kind_of code ≡ Kind.Store }
    requires takes { TakesStored values.now sp }
    requires within { sp ≤ length values.now }
    ensures height { IfOk result (λ top. top + 2 ≡ sp) }
    ensures stored { IfOk result (λ top. (flat : Flat) →
        put_top code offset (Some memory.old) (stack_of values.now sp) flat
        ≡ Gives (record (goes_on (stack_of values.now top) flat) { memory = Some memory.new })) }
    ensures trap { IfErr result (λ trap. (flat : Flat) →
        put_top code offset (Some memory.old) (stack_of values.now sp) flat ≡ Fails trap) }
    ensures kept { IfErr result (λ _. memory.new ≡ memory.old) }
{
    let at = values[sp - 2] + u64::from(offset);
    if memory.store(at, access_width(code), values[sp - 1]) {
        Ok(sp - 2)
    } else {
        Err(Trap::Bounds)
    }
}

/// The bytes that a load or a store reaches.
#[inline(always)]
fn access_width(code: u8) -> u8
    requires { IsAccessWidth (width_of code) }
    ensures { result ≡ width_of code }
{
    match code {
        0x2C | 0x2D | 0x30 | 0x31 | 0x3A | 0x3C => 1,
        0x2E | 0x2F | 0x32 | 0x33 | 0x3B | 0x3D => 2,
        0x28 | 0x34 | 0x35 | 0x36 | 0x3E => 4,
        _ => 8,
    }
}

/// What a load makes of the number of its bytes: it is extended with the sign, or with zeros.
#[inline(always)]
fn extended(code: u8, number: u64) -> u64
    requires { number < 2 ^ (8 * width_of code) }
    ensures { result ≡ number_loaded code number }
{
    match code {
        0x2C => low_32(signed_8(number)),
        0x2E => low_32(signed_16(number)),
        0x30 => low_64(signed_8(number)),
        0x32 => low_64(signed_16(number)),
        0x34 => low_64(signed_32(number)),
        _ => number,
    }
}

/// The number of 32 bits that a signed one is.
#[inline(always)]
fn low_32(number: i64) -> u64
    ensures { result ≡ int.unsigned 32 number }
{
    number.cast_unsigned() & 0xffff_ffff
}

/// The number of 64 bits that a signed one is.
#[inline(always)]
fn low_64(number: i64) -> u64
    ensures { result ≡ int.unsigned 64 number }
{
    number.cast_unsigned()
}

/// The signed reading of a byte.
#[inline(always)]
fn signed_8(number: u64) -> i64
    requires { number < 2 ^ 8 }
    ensures { result ≡ int.signed 8 number }
{
    i64::from((number as u8).cast_signed())
}

/// The signed reading of two bytes.
#[inline(always)]
fn signed_16(number: u64) -> i64
    requires { number < 2 ^ 16 }
    ensures { result ≡ int.signed 16 number }
{
    i64::from((number as u16).cast_signed())
}

/// The signed reading of four bytes.
#[inline(always)]
fn signed_32(number: u64) -> i64
    requires { number < 2 ^ 32 }
    ensures { result ≡ int.signed 32 number }
{
    i64::from((number as u32).cast_signed())
}
