use super::*;
use std::test::Fail;

#[test]
fn reads_unsigned_numbers(rt: HostRuntime) {
    let table: [(&[u8], Result<u32, LebFault>, usize); 9] = [
        (&[0x05], Ok(5), 1),
        (&[0x80, 0x00], Ok(0), 2),
        (&[0xE5, 0x8E, 0x26, 0xFF], Ok(624_485), 3),
        (&[0x87, 0x80, 0x80, 0x80, 0x00], Ok(7), 5),
        (&[0xFF, 0xFF, 0xFF, 0xFF, 0x0F], Ok(u32::MAX), 5),
        (&[0xFF, 0xFF, 0xFF, 0xFF, 0x10], Err(LebFault::TooLong), 0),
        (
            &[0x87, 0x80, 0x80, 0x80, 0x80, 0x00],
            Err(LebFault::TooLong),
            0,
        ),
        (&[0x87, 0x80, 0x80, 0x80], Err(LebFault::Short), 0),
        (&[], Err(LebFault::Short), 0),
    ];
    for (bytes, want, at) in table {
        let mut cursor = Cursor::new(bytes);
        assert_eq!(rt; cursor.u32(), want);
        assert_eq!(rt; cursor.at(), at);
    }
}

#[test]
fn reads_signed_numbers(rt: HostRuntime) {
    let table: [(&[u8], Result<i32, LebFault>); 7] = [
        (&[0x2A], Ok(42)),
        (&[0x7F], Ok(-1)),
        (&[0xC0, 0xBB, 0x78], Ok(-123_456)),
        (&[0x80, 0x80, 0x80, 0x80, 0x78], Ok(i32::MIN)),
        (&[0xFF, 0xFF, 0xFF, 0xFF, 0x07], Ok(i32::MAX)),
        (&[0x80, 0x80, 0x80, 0x80, 0x70], Err(LebFault::TooLong)),
        (&[0xFF, 0xFF, 0xFF, 0xFF], Err(LebFault::Short)),
    ];
    for (bytes, want) in table {
        assert_eq!(rt; Cursor::new(bytes).s32(), want);
    }
}

#[test]
fn reads_wide_signed_numbers(rt: HostRuntime) {
    let table: [(&[u8], Result<i64, LebFault>); 4] = [
        (&[0x80, 0x7F], Ok(-128)),
        (
            &[0x80, 0x80, 0x80, 0x80, 0x80, 0x80, 0x80, 0x80, 0x80, 0x7F],
            Ok(i64::MIN),
        ),
        (
            &[0xFF, 0xFF, 0xFF, 0xFF, 0xFF, 0xFF, 0xFF, 0xFF, 0xFF, 0x01],
            Err(LebFault::TooLong),
        ),
        (&[0x80], Err(LebFault::Short)),
    ];
    for (bytes, want) in table {
        assert_eq!(rt; Cursor::new(bytes).s64(), want);
    }
}

#[test]
fn passes_over_bytes(rt: HostRuntime) -> Result<(), Fail> {
    let bytes = [1, 2, 3, 4];
    let mut cursor = Cursor::new(&bytes);
    assert_eq!(rt; cursor.byte(), Ok(1));
    let taken = cursor.take(2)?;
    assert_eq!(rt; taken, [2, 3].as_slice());
    assert_eq!(rt; (cursor.at(), cursor.left()), (3, 1));
    assert_eq!(rt; cursor.again().byte(), Ok(4));
    assert_eq!(rt; cursor.take(2).is_err(), true);
    assert_eq!(rt; cursor.byte(), Ok(4));
    assert_eq!(rt; cursor.byte(), Err(Short));
    Ok(())
}
