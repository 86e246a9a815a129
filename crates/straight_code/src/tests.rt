use crate::{binary_top, load_top, push, select_top, set_local, store_top, unary_top};
use linear_memory::Memory;
use std::test::Fail;
use wasm_ops::Trap;

#[test]
fn computes_on_top(rt: HostRuntime) {
    let mut values = [7, 5, 3, 0];
    assert_eq!(rt; binary_top(0x6B, &mut values, 3), Ok(2));
    assert_eq!(rt; values[1], 2);
    unary_top(0x45, &mut values, 2);
    assert_eq!(rt; values[1], 0);
    assert_eq!(rt; push(&mut values, 2, 9), 3);
    assert_eq!(rt; values[2], 9);
    let mut zero = [6, 0];
    assert_eq!(rt; binary_top(0x6E, &mut zero, 2), Err(Trap::DivideByZero));
}

#[test]
fn selects_and_sets(rt: HostRuntime) {
    let mut values = [1, 2, 3, 0];
    assert_eq!(rt; select_top(&mut values, 4), 2);
    assert_eq!(rt; values[1], 3);
    assert_eq!(rt; set_local(&mut values, 2, 0, 0), 1);
    assert_eq!(rt; values[0], 3);
}

#[test]
fn loads_with_the_sign(rt: HostRuntime) -> Result<(), Fail> {
    let mut memory = Memory::new(rt.alloc(), 1, 1)?;
    let stored = [65_530, 0x8081_82F0];
    assert_eq!(rt; store_top(0x36, 2, &stored, 2, &mut memory), Ok(0));
    let mut byte = [65_530];
    assert_eq!(rt; load_top(0x2C, 2, &mut byte, 1, &memory), Ok(1));
    assert_eq!(rt; byte[0], 0xFFFF_FFF0);
    let mut short = [65_531];
    assert_eq!(rt; load_top(0x32, 1, &mut short, 1, &memory), Ok(1));
    assert_eq!(rt; short[0], 0xFFFF_FFFF_FFFF_82F0);
    let mut long = [65_532];
    assert_eq!(rt; load_top(0x34, 0, &mut long, 1, &memory), Ok(1));
    assert_eq!(rt; long[0], 0xFFFF_FFFF_8081_82F0);
    Ok(())
}
