use super::*;
use body_reader::ReadFault;
use std::alloc::Global;
use std::test::Fail;
use wasm_form::{ExportKind, Imm, Instr};

// One function, exported as `_start`: i32.const 42, drop.
const FIRST: [u8; 39] = [
    0x00, 0x61, 0x73, 0x6D, 0x01, 0x00, 0x00, 0x00, 0x01, 0x04, 0x01, 0x60, 0x00, 0x00, 0x03, 0x02,
    0x01, 0x00, 0x07, 0x0A, 0x01, 0x06, 0x5F, 0x73, 0x74, 0x61, 0x72, 0x74, 0x00, 0x00, 0x0A, 0x07,
    0x01, 0x05, 0x00, 0x41, 0x2A, 0x1A, 0x0B,
];

const FIRST_CODE: [Instr; 3] = [
    Instr {
        code: 0x41,
        imm: Imm::I32(42),
    },
    Instr {
        code: 0x1A,
        imm: Imm::None,
    },
    Instr {
        code: 0x0B,
        imm: Imm::None,
    },
];

/// What reading answers, for a table: how many bodies the module has, or the fault.
fn bodies_of(alloc: Global, bytes: &[u8]) -> Result<usize, ReadFault> {
    let module = read_module(alloc, bytes)?;
    Ok(module.bodies().len())
}

#[test]
fn reads_each_length_of_a_module(rt: HostRuntime) -> Result<(), Fail> {
    let module = read_module(rt.alloc(), &FIRST)?;
    assert_eq!(rt; module.functions(), [0u32].as_slice());
    assert_eq!(rt;
        (
            module.types().len(),
            module.exports().len(),
            module.bodies().len()
        ),
        (1, 1, 1)
    );
    let export = &module.exports()[0];
    assert_eq!(rt; export.name.as_str(), "_start");
    assert_eq!(rt; (export.kind, export.index), (ExportKind::Function, 0));
    assert_eq!(rt; module.start(), None);
    assert_eq!(rt;
        module.bodies()[0].expr.code.as_slice(),
        FIRST_CODE.as_slice()
    );
    for length in 0..39usize {
        let want = match length {
            8 | 14 => Ok(0),
            _ => Err(ReadFault::Malformed),
        };
        assert_eq!(rt;
            bodies_of(rt.alloc(), &FIRST[..length]),
            want,
            "{length} bytes"
        );
    }
    Ok(())
}

#[test]
fn reads_sections(rt: HostRuntime) -> Result<(), Fail> {
    let malformed = Err(ReadFault::Malformed);
    let table: [(&[u8], Result<usize, ReadFault>); 12] = [
        // A type section whose size has five bytes, and six.
        (&[0x01, 0x81, 0x80, 0x80, 0x80, 0x00, 0x00], Ok(0)),
        (&[0x01, 0x81, 0x80, 0x80, 0x80, 0x80, 0x00, 0x00], malformed),
        // A code section alone, and one of a function without a function section.
        (&[0x0A, 0x01, 0x00], Ok(0)),
        (&[0x0A, 0x04, 0x01, 0x02, 0x00, 0x0B], malformed),
        // Two code sections, and sections out of order.
        (&[0x0A, 0x01, 0x00, 0x0A, 0x01, 0x00], malformed),
        (&[0x03, 0x01, 0x00, 0x0A, 0x01, 0x00], Ok(0)),
        (&[0x0A, 0x01, 0x00, 0x03, 0x01, 0x00], malformed),
        // A custom section anywhere, with a name that is no UTF-8, and without a name.
        (
            &[0x00, 0x01, 0x00, 0x0A, 0x01, 0x00, 0x00, 0x02, 0x01, 0x61],
            Ok(0),
        ),
        (&[0x00, 0x02, 0x01, 0xFF], malformed),
        (&[0x00, 0x00], malformed),
        // A byte after the contents, and an id of no section.
        (&[0x0A, 0x02, 0x00, 0x00], malformed),
        (&[0x0C, 0x01, 0x00], malformed),
    ];
    for (sections, want) in table {
        let mut bytes = Vec::from_slice(rt.alloc(), &FIRST[..8])?;
        bytes.extend_from_slice(sections)?;
        assert_eq!(rt;
            bodies_of(rt.alloc(), bytes.as_slice()),
            want,
            "{sections:?}"
        );
    }
    Ok(())
}
