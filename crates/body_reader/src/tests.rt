use super::*;
use leb_read::Cursor;
use std::test::Fail;
use wasm_form::{
    Bounds, Element, Export, ExportKind, FuncType, GlobalDef, Imm, Import, Imported, Instr,
    LocalRun, Match, Segment, ValType,
};

#[test]
fn reads_a_body_and_stops_behind_it(rt: HostRuntime) -> Result<(), Fail> {
    let bytes = [
        0x0C, 0x01, 0x02, 0x7E, 0x41, 0x01, 0x04, 0x40, 0x01, 0x05, 0x01, 0x0B, 0x0B, 0xFF,
    ];
    let mut cursor = Cursor::new(&bytes);
    let body = read_body(rt.alloc(), &mut cursor)?;
    assert_eq!(rt; cursor.at(), 13);
    let run = LocalRun {
        count: 2,
        ty: ValType::I64,
    };
    assert_eq!(rt; body.locals.as_slice(), [run].as_slice());
    assert_eq!(rt; body.expr.code.len(), 7);
    let place = Match {
        at: 1,
        other: Some(3),
        end: 5,
    };
    assert_eq!(rt; body.expr.matches.as_slice(), [place].as_slice());
    Ok(())
}

#[test]
fn pools_labels(rt: HostRuntime) -> Result<(), Fail> {
    let bytes = [0x09, 0x00, 0x41, 0x00, 0x0E, 0x02, 0x00, 0x00, 0x00, 0x0B];
    let body = read_body(rt.alloc(), &mut Cursor::new(&bytes))?;
    assert_eq!(rt; body.expr.labels.as_slice(), [0, 0].as_slice());
    let code = body.expr.code.as_slice();
    assert_eq!(rt; code.len(), 3);
    let table = Instr {
        code: 0x0E,
        imm: Imm::Table {
            first: 0,
            count: 2,
            last: 0,
        },
    };
    assert_eq!(rt; code[1], table);
    Ok(())
}

#[test]
fn refuses_what_is_no_body(rt: HostRuntime) {
    let table: [&[u8]; 11] = [
        &[],
        &[0x05, 0x00, 0x41, 0x2A, 0x1A],
        &[0x04, 0x00, 0x41, 0x2A, 0x1A],
        &[0x04, 0x00, 0x05, 0x0B, 0x0B],
        &[0x04, 0x00, 0x0B, 0x01, 0x0B],
        &[0x04, 0x00, 0x02, 0x40, 0x0B],
        &[0x03, 0x00, 0x06, 0x0B],
        &[0x06, 0xFF, 0xFF, 0xFF, 0xFF, 0x0F, 0x0B],
        &[0x09, 0x00, 0x0E, 0xFF, 0xFF, 0xFF, 0xFF, 0x0F, 0x00, 0x0B],
        &[
            0x0A, 0x02, 0xFF, 0xFF, 0xFF, 0xFF, 0x0F, 0x7F, 0x01, 0x7F, 0x0B,
        ],
        &[0x05, 0x00, 0x3F, 0x80, 0x00, 0x0B],
    ];
    for bytes in table {
        let mut cursor = Cursor::new(bytes);
        let refused = read_body(rt.alloc(), &mut cursor).err();
        assert_eq!(rt; refused, Some(ReadFault::Malformed));
        assert_eq!(rt; cursor.at(), 0);
    }
}

#[test]
fn reads_deep_bodies(rt: HostRuntime) -> Result<(), Fail> {
    let mut bytes = Vec::new(rt.alloc());
    bytes.extend_from_slice(&[0xB2, 0xEA, 0x01, 0x00])?;
    for _ in 0..10_000 {
        bytes.extend_from_slice(&[0x02, 0x40])?;
    }
    for _ in 0..10_001 {
        bytes.push(0x0B)?;
    }
    let body = read_body(rt.alloc(), &mut Cursor::new(bytes.as_slice()))?;
    assert_eq!(rt; body.expr.matches.len(), 10_000);
    Ok(())
}

#[test]
fn reads_types_imports_and_exports(rt: HostRuntime) -> Result<(), Fail> {
    let alloc = rt.alloc();
    let bytes = [0x01, 0x60, 0x02, 0x7F, 0x7E, 0x00];
    let types = read_vector::<FuncType>(alloc, &mut Cursor::new(&bytes))?;
    assert_eq!(rt; types.as_slice().first().ok_or("no type")?.params.len(), 2);
    let bytes = [
        0x01, 0x01, 0x61, 0x02, 0x62, 0x63, 0x01, 0x70, 0x01, 0x01, 0x82, 0x00,
    ];
    let imports = read_vector::<Import>(alloc, &mut Cursor::new(&bytes))?;
    let import = imports.as_slice().first().ok_or("no import")?;
    assert_eq!(rt; (import.module.as_str(), import.name.as_str()), ("a", "bc"));
    let bounds = Bounds {
        min: 1,
        max: Some(2),
    };
    assert_eq!(rt; import.what, Imported::Table(bounds));
    let bytes = [0x01, 0x01, 0x66, 0x03, 0x07];
    let exports = read_vector::<Export>(alloc, &mut Cursor::new(&bytes))?;
    let export = exports.as_slice().first().ok_or("no export")?;
    assert_eq!(rt; (export.kind, export.index), (ExportKind::Global, 7));
    Ok(())
}

#[test]
fn reads_globals_and_segments(rt: HostRuntime) -> Result<(), Fail> {
    let alloc = rt.alloc();
    let bytes = [0x01, 0x7E, 0x01, 0x42, 0x07, 0x0B];
    let globals = read_vector::<GlobalDef>(alloc, &mut Cursor::new(&bytes))?;
    let global = globals.as_slice().first().ok_or("no global")?;
    assert_eq!(rt; (global.ty.mutable, global.init.code.len()), (true, 2));
    let bytes = [0x01, 0x00, 0x41, 0x08, 0x0B, 0x02, 0x05, 0x06];
    let elements = read_vector::<Element>(alloc, &mut Cursor::new(&bytes))?;
    let element = elements.as_slice().first().ok_or("no element")?;
    assert_eq!(rt; element.functions.as_slice(), [5, 6].as_slice());
    let segments = read_vector::<Segment>(alloc, &mut Cursor::new(&bytes))?;
    let segment = segments.as_slice().first().ok_or("no segment")?;
    assert_eq!(rt; segment.bytes.as_slice(), [5, 6].as_slice());
    Ok(())
}

#[test]
fn refuses_what_is_no_import(rt: HostRuntime) {
    let table: [&[u8]; 4] = [
        &[0x01, 0x01, 0xFF, 0x00, 0x00, 0x05],
        &[0x01, 0x00, 0x00, 0x02, 0x80, 0x00, 0x01],
        &[0x01, 0x00, 0x00, 0x03, 0x7F, 0x02],
        &[0x01, 0x00, 0x00, 0x04, 0x05],
    ];
    for bytes in table {
        let refused = read_vector::<Import>(rt.alloc(), &mut Cursor::new(bytes)).err();
        assert_eq!(rt; refused, Some(ReadFault::Malformed));
    }
}
