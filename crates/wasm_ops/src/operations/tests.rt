//! Outside values: the worked examples, and every operation at the edges of its types.

ghost use Rattle.std.specs.Prelude.{IsTrue, Some};
ghost use Rattle.wasm_ops.specs.Table.{FitsType};

use super::edges::{BINARY32, BINARY64, CONVERSIONS, COUNTS32, COUNTS64, RESULTS32, RESULTS64};
use super::{binary, unary};
use crate::instruction::Kind;
use crate::num::Num;
use crate::table::{row, rows};
use crate::trap::Trap;

/// An operation, its operands, and the worked result or trap.
static EXAMPLES: [(u8, u64, u64, Result<u64, Trap>); 14] = [
    (0x74, 5, 32, Ok(5)),
    (0x86, 5, 33, Ok(42_949_672_960)),
    (0x6d, 1, 0, Err(Trap::DivideByZero)),
    (0x6e, 1, 0, Err(Trap::DivideByZero)),
    (0x6f, 1, 0, Err(Trap::DivideByZero)),
    (0x70, 1, 0, Err(Trap::DivideByZero)),
    (0x7f, 1, 0, Err(Trap::DivideByZero)),
    (0x80, 1, 0, Err(Trap::DivideByZero)),
    (0x81, 1, 0, Err(Trap::DivideByZero)),
    (0x82, 1, 0, Err(Trap::DivideByZero)),
    (0x6d, 0x80000000, 0xffffffff, Err(Trap::Overflow)),
    (0x6f, 0x80000000, 0xffffffff, Ok(0)),
    (
        0x7f,
        0x8000000000000000,
        0xffffffffffffffff,
        Err(Trap::Overflow),
    ),
    (0x81, 0x8000000000000000, 0xffffffffffffffff, Ok(0)),
];

/// The value fits the type.
fn fits(value: u64, num: Num) -> bool
    ensures { IsTrue result → FitsType (Some num) value }
{
    num == Num::I64 || value < 1 << 32
}

/// `binary`, where the code and the operands meet its condition.
fn try_binary(code: u8, a: u64, b: u64) -> Option<Result<u64, Trap>> {
    let row = row(code)?;
    let (first, second) = (row.first?, row.second?);
    if row.kind == Kind::Plain && fits(a, first) && fits(b, second) {
        Some(binary(code, a, b))
    } else {
        None
    }
}

/// `unary`, where the code and the operand meet its condition.
fn try_unary(code: u8, a: u64) -> Option<u64> {
    let row = row(code)?;
    let first = row.first?;
    if row.kind == Kind::Plain && row.second.is_none() && fits(a, first) {
        Some(unary(code, a))
    } else {
        None
    }
}

#[test]
fn computes_at_the_edges(rt: HostRuntime) {
    for (a, b, results) in RESULTS32 {
        for (code, want) in BINARY32.into_iter().zip(results) {
            assert_eq!(rt;
                try_binary(code, a, b),
                Some(Ok(want)),
                "{code:#x} of {a} and {b}"
            );
        }
    }
    for (a, b, results) in RESULTS64 {
        for (code, want) in BINARY64.into_iter().zip(results) {
            assert_eq!(rt;
                try_binary(code, a, b),
                Some(Ok(want)),
                "{code:#x} of {a} and {b}"
            );
        }
    }
}

#[test]
fn counts_and_converts(rt: HostRuntime) {
    for (a, results) in COUNTS32 {
        for (code, want) in [0x45, 0x67, 0x68, 0x69].into_iter().zip(results) {
            assert_eq!(rt; try_unary(code, a), Some(want), "{code:#x} of {a}");
        }
    }
    for (a, results) in COUNTS64 {
        for (code, want) in [0x50, 0x79, 0x7a, 0x7b].into_iter().zip(results) {
            assert_eq!(rt; try_unary(code, a), Some(want), "{code:#x} of {a}");
        }
    }
    for (code, a, want) in CONVERSIONS {
        assert_eq!(rt; try_unary(code, a), Some(want), "{code:#x} of {a}");
    }
}

#[test]
fn computes_the_worked_examples(rt: HostRuntime) {
    for (code, a, b, want) in EXAMPLES {
        assert_eq!(rt;
            try_binary(code, a, b),
            Some(want),
            "{code:#x} of {a} and {b}"
        );
    }
}

#[test]
fn lists_the_instructions(rt: HostRuntime) {
    assert_eq!(rt; rows().len(), 172);
    let names = [
        (0x00, "unreachable"),
        (0x28, "i32.load"),
        (0x6a, "i32.add"),
        (0xbf, "f64.reinterpret_i64"),
    ];
    for (code, name) in names {
        assert_eq!(rt; row(code).map(|row| row.name == name), Some(true), "{name}");
    }
    for code in [0x06, 0x0a, 0x12, 0x19, 0x1c, 0x1f, 0x25, 0x27, 0xc0, 0xff] {
        assert!(rt; row(code).is_none(), "{code:#x}");
    }
    assert_eq!(rt; Trap::TableBounds.word(), "table");
}
