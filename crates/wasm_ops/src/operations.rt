//! The operations of the plain instructions, by their codes.

ghost use Rattle.std.specs.Prelude.{◌≡◌, ◌≤◌, IfOk, IfErr, None, Some, Ok, Err};
ghost use Rattle.wasm_ops.specs.Integers.{one_if};
ghost use Rattle.wasm_ops.specs.Table.{kind_of, first_of, second_of, result_of, FitsType};
ghost use Rattle.wasm_ops.specs.Operations.{unary_value, binary_value};

use crate::instruction::Kind;
use crate::instructions;
use crate::integer::Int;
use crate::trap::Trap;

/// The codes of a group, as a pattern.
macro_rules! codes {
    (() { $($code:literal $operation:ident $name:literal $kind:ident $first:tt $second:tt $result:tt $width:literal;)* }) => {
        $($code)|*
    };
}

/// The method of the instruction with this code, called on its operands: `$a` and, in parentheses, the others.
macro_rules! methods {
    (($code:ident $a:ident $others:tt) { $($n:literal $operation:ident $name:literal $kind:ident $first:tt $second:tt $result:tt $width:literal;)* }) => {
        match $code {
            $($n => $a.$operation $others,)*
            _ => unreachable!(),
        }
    };
}

// A group of codes is matched in a function of its own, so that each is proved apart.

#[inline(always)]
fn test32(code: u8, a: Int<32>) -> bool
    requires low { 0x45 ≤ code }
    requires high { code ≤ 0x45 }
    ensures { Some (one_if result) ≡ unary_value code a.value }
{
    instructions!(test32 methods code a ())
}

#[inline(always)]
fn test64(code: u8, a: Int<64>) -> bool
    requires low { 0x50 ≤ code }
    requires high { code ≤ 0x50 }
    ensures { Some (one_if result) ≡ unary_value code a.value }
{
    instructions!(test64 methods code a ())
}

#[inline(always)]
fn count32(code: u8, a: Int<32>) -> Int<32>
    requires low { 0x67 ≤ code }
    requires high { code ≤ 0x69 }
    ensures { Some result.value ≡ unary_value code a.value }
{
    instructions!(count32 methods code a ())
}

#[inline(always)]
fn count64(code: u8, a: Int<64>) -> Int<64>
    requires low { 0x79 ≤ code }
    requires high { code ≤ 0x7b }
    ensures { Some result.value ≡ unary_value code a.value }
{
    instructions!(count64 methods code a ())
}

#[inline(always)]
fn wrap(code: u8, a: Int<64>) -> Int<32>
    requires low { 0xa7 ≤ code }
    requires high { code ≤ 0xa7 }
    ensures { Some result.value ≡ unary_value code a.value }
{
    instructions!(wrap methods code a ())
}

#[inline(always)]
fn extend(code: u8, a: Int<32>) -> Int<64>
    requires low { 0xac ≤ code }
    requires high { code ≤ 0xad }
    ensures { Some result.value ≡ unary_value code a.value }
{
    instructions!(extend methods code a ())
}

/// What the plain instruction with this code makes of its one operand.
#[inline(always)]
pub fn unary(code: u8, a: u64) -> u64
    requires plain { kind_of code ≡ Kind.Plain }
    requires first { FitsType (first_of code) a }
    requires alone { second_of code ≡ None }
    ensures value { Some result ≡ unary_value code a }
    ensures range { FitsType (result_of code) result }
{
    match code {
        instructions!(test32 codes) => u64::from(test32(code, Int::new(a))),
        instructions!(test64 codes) => u64::from(test64(code, Int::new(a))),
        instructions!(count32 codes) => count32(code, Int::new(a)).value,
        instructions!(count64 codes) => count64(code, Int::new(a)).value,
        instructions!(wrap codes) => wrap(code, Int::new(a)).value,
        instructions!(extend codes) => extend(code, Int::new(a)).value,
        _ => unreachable!(),
    }
}

#[inline(always)]
fn compare32(code: u8, a: Int<32>, b: Int<32>) -> bool
    requires low { 0x46 ≤ code }
    requires high { code ≤ 0x4f }
    ensures { Some (Ok (one_if result)) ≡ binary_value code a.value b.value }
{
    instructions!(compare32 methods code a (b))
}

#[inline(always)]
fn compare64(code: u8, a: Int<64>, b: Int<64>) -> bool
    requires low { 0x51 ≤ code }
    requires high { code ≤ 0x5a }
    ensures { Some (Ok (one_if result)) ≡ binary_value code a.value b.value }
{
    instructions!(compare64 methods code a (b))
}

#[inline(always)]
fn arithmetic32(code: u8, a: Int<32>, b: Int<32>) -> Int<32>
    requires low { 0x6a ≤ code }
    requires high { code ≤ 0x6c }
    ensures { Some (Ok result.value) ≡ binary_value code a.value b.value }
{
    instructions!(arithmetic32 methods code a (b))
}

#[inline(always)]
fn divide32(code: u8, a: Int<32>, b: Int<32>) -> Result<Int<32>, Trap>
    requires low { 0x6d ≤ code }
    requires high { code ≤ 0x70 }
    ensures quotient { IfOk result (λ n. Some (Ok n.value) ≡ binary_value code a.value b.value) }
    ensures trap { IfErr result (λ t. Some (Err t) ≡ binary_value code a.value b.value) }
{
    instructions!(divide32 methods code a (b))
}

#[inline(always)]
fn bitwise32(code: u8, a: Int<32>, b: Int<32>) -> Int<32>
    requires low { 0x71 ≤ code }
    requires high { code ≤ 0x78 }
    ensures { Some (Ok result.value) ≡ binary_value code a.value b.value }
{
    instructions!(bitwise32 methods code a (b))
}

#[inline(always)]
fn arithmetic64(code: u8, a: Int<64>, b: Int<64>) -> Int<64>
    requires low { 0x7c ≤ code }
    requires high { code ≤ 0x7e }
    ensures { Some (Ok result.value) ≡ binary_value code a.value b.value }
{
    instructions!(arithmetic64 methods code a (b))
}

#[inline(always)]
fn divide64(code: u8, a: Int<64>, b: Int<64>) -> Result<Int<64>, Trap>
    requires low { 0x7f ≤ code }
    requires high { code ≤ 0x82 }
    ensures quotient { IfOk result (λ n. Some (Ok n.value) ≡ binary_value code a.value b.value) }
    ensures trap { IfErr result (λ t. Some (Err t) ≡ binary_value code a.value b.value) }
{
    instructions!(divide64 methods code a (b))
}

#[inline(always)]
fn bitwise64(code: u8, a: Int<64>, b: Int<64>) -> Int<64>
    requires low { 0x83 ≤ code }
    requires high { code ≤ 0x8a }
    ensures { Some (Ok result.value) ≡ binary_value code a.value b.value }
{
    instructions!(bitwise64 methods code a (b))
}

/// What the plain instruction with this code makes of its operands `a`, the deeper one, and `b`.
///
/// `DivideByZero` and `Overflow` come from the divisions alone, as `Int::div_s` and the others say.
#[inline(always)]
pub fn binary(code: u8, a: u64, b: u64) -> Result<u64, Trap>
    requires plain { kind_of code ≡ Kind.Plain }
    requires first { FitsType (first_of code) a }
    requires second { FitsType (second_of code) b }
    ensures value { Some result ≡ binary_value code a b }
    ensures range { IfOk result (FitsType (result_of code)) }
{
    match code {
        instructions!(compare32 codes) => Ok(u64::from(compare32(code, Int::new(a), Int::new(b)))),
        instructions!(compare64 codes) => Ok(u64::from(compare64(code, Int::new(a), Int::new(b)))),
        instructions!(arithmetic32 codes) => Ok(arithmetic32(code, Int::new(a), Int::new(b)).value),
        instructions!(arithmetic64 codes) => Ok(arithmetic64(code, Int::new(a), Int::new(b)).value),
        instructions!(bitwise32 codes) => Ok(bitwise32(code, Int::new(a), Int::new(b)).value),
        instructions!(bitwise64 codes) => Ok(bitwise64(code, Int::new(a), Int::new(b)).value),
        instructions!(divide32 codes) => Ok(divide32(code, Int::new(a), Int::new(b))?.value),
        instructions!(divide64 codes) => Ok(divide64(code, Int::new(a), Int::new(b))?.value),
        _ => unreachable!(),
    }
}

#[cfg(test)]
mod edges;
#[cfg(test)]
mod tests;
