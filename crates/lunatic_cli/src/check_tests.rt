use crate::{Checked, Place, Verdict, check_call, lunatic};
use outside::{MemFiles, MemOutside, MemSink};
use std::alloc::{AllocError, Global};
use std::test::Fail;

/// A module with one function, which is exported as `_start`, before its code section.
const BEFORE_CODE: [u8; 30] = [
    0x00, 0x61, 0x73, 0x6D, 0x01, 0x00, 0x00, 0x00, 0x01, 0x04, 0x01, 0x60, 0x00, 0x00, 0x03, 0x02,
    0x01, 0x00, 0x07, 0x0A, 0x01, 0x06, 0x5F, 0x73, 0x74, 0x61, 0x72, 0x74, 0x00, 0x00,
];

/// The code section that drops a constant.
const DROPS: [u8; 9] = [0x0A, 0x07, 0x01, 0x05, 0x00, 0x41, 0x2A, 0x1A, 0x0B];

/// The code section with an instruction behind a branch: br 0, i32.add, drop.
const BRANCHES: [u8; 10] = [0x0A, 0x08, 0x01, 0x06, 0x00, 0x0C, 0x00, 0x6A, 0x1A, 0x0B];

/// The module that drops a constant, behind its header, with a second type, which has an f32 parameter.
const HAS_AN_F32_TYPE: [u8; 35] = [
    0x01, 0x08, 0x02, 0x60, 0x00, 0x00, 0x60, 0x01, 0x7D, 0x00, 0x03, 0x02, 0x01, 0x00, 0x07, 0x0A,
    0x01, 0x06, 0x5F, 0x73, 0x74, 0x61, 0x72, 0x74, 0x00, 0x00, 0x0A, 0x07, 0x01, 0x05, 0x00, 0x41,
    0x2A, 0x1A, 0x0B,
];

/// A module that exports one function by one name twice, after its first section.
const EXPORTS_TWICE: [u8; 21] = [
    0x03, 0x02, 0x01, 0x00, 0x07, 0x09, 0x02, 0x01, 0x61, 0x00, 0x00, 0x01, 0x61, 0x00, 0x00, 0x0A,
    0x04, 0x01, 0x02, 0x00, 0x0B,
];

/// A module that begins and goes on so.
fn module(alloc: Global, begin: &[u8], rest: &[u8]) -> Result<Vec<u8>, AllocError> {
    let mut bytes = begin.to_vec(alloc)?;
    bytes.extend_from_slice(rest)?;
    Ok(bytes)
}

/// The status and the verdict of a command on a file with these bytes, and whether this text was written and nothing
/// ran.
fn told(
    alloc: Global,
    command: &str,
    bytes: Vec<u8>,
    text: &[u8],
) -> Result<(u8, Option<Verdict>, bool), Fail> {
    let file = (String::from_str(alloc, "file")?, bytes);
    let mut files = MemFiles::new(vec![in alloc; file]?, Vec::new(alloc));
    let mut out = MemSink::new(alloc, 100, 7, Vec::new(alloc), Vec::new(alloc))?;
    let mut words = Vec::new(alloc);
    words.push(String::from_str(alloc, command)?)?;
    words.push(String::from_str(alloc, "file")?)?;
    let mut outsides = Vec::new(alloc);
    for _ in 0..16 {
        outsides.push(MemOutside::with_nothing(alloc))?;
    }
    if outsides.len() < 16 {
        return Err("sixteen outsides")?;
    }
    let finish = lunatic(alloc, words.as_slice(), &mut files, &mut out, &mut outsides);
    let is_blank = finish.journal.is_empty() && finish.journal.births().is_empty();
    Ok((
        finish.status,
        finish.verdict,
        out.written() == text && is_blank,
    ))
}

#[test]
fn fronts_of_a_module(rt: HostRuntime) -> Result<(), Fail> {
    let alloc = rt.alloc();
    for length in 0..40usize {
        let whole = module(alloc, BEFORE_CODE.as_slice(), DROPS.as_slice())?;
        if length > whole.len() {
            return Err("the module's length")?;
        }
        let front = whole.as_slice()[..length].to_vec(alloc)?;
        let (status, verdict, text) = match length {
            8 | 14 | 39 => (0, Verdict::Accepted, b"accepted\n".as_slice()),
            _ => (
                3,
                Verdict::Malformed,
                b"refused: module 0 malformed\n".as_slice(),
            ),
        };
        assert_eq!(rt;
            told(alloc, "check", front, text)?,
            (status, Some(verdict), true),
            "of {length}"
        );
    }
    Ok(())
}

#[test]
fn both_commands_refuse_alike(rt: HostRuntime) -> Result<(), Fail> {
    let alloc = rt.alloc();
    for (begin, rest, verdict, text) in [
        // An f32 local.
        (
            BEFORE_CODE.as_slice(),
            [
                0x0A, 0x09, 0x01, 0x07, 0x01, 0x01, 0x7D, 0x41, 0x2A, 0x1A, 0x0B,
            ]
            .as_slice(),
            Verdict::Outside(1),
            b"refused: module 0 outside rule 1\n".as_slice(),
        ),
        // An f32 parameter in a type that nothing has.
        (
            &BEFORE_CODE[..8],
            HAS_AN_F32_TYPE.as_slice(),
            Verdict::Outside(1),
            b"refused: module 0 outside rule 1\n".as_slice(),
        ),
        (
            &BEFORE_CODE[..14],
            EXPORTS_TWICE.as_slice(),
            Verdict::Invalid(Place::Rule(8)),
            b"refused: module 0 invalid rule 8\n".as_slice(),
        ),
        // i64.const 1, i32.eqz, drop.
        (
            BEFORE_CODE.as_slice(),
            [0x0A, 0x08, 0x01, 0x06, 0x00, 0x42, 0x01, 0x45, 0x1A, 0x0B].as_slice(),
            Verdict::Invalid(Place::Function(0)),
            b"refused: module 0 invalid function 0\n".as_slice(),
        ),
    ] {
        for command in ["check", "run"] {
            assert_eq!(rt;
                told(alloc, command, module(alloc, begin, rest)?, text)?,
                (3, Some(verdict), true),
                "{command}"
            );
        }
    }
    Ok(())
}

#[test]
fn a_check_starts_nothing(rt: HostRuntime) -> Result<(), Fail> {
    let alloc = rt.alloc();
    // The header, a module without an entry.
    let bytes = BEFORE_CODE[..8].to_vec(alloc)?;
    assert_eq!(rt;
        told(alloc, "check", bytes, b"accepted\n".as_slice())?,
        (0, Some(Verdict::Accepted), true)
    );
    // Code behind a branch, where the operands may have any types.
    let bytes = module(alloc, BEFORE_CODE.as_slice(), BRANCHES.as_slice())?;
    assert_eq!(rt;
        told(alloc, "check", bytes, b"accepted\n".as_slice())?,
        (0, Some(Verdict::Accepted), true)
    );
    let bytes = BEFORE_CODE[..8].to_vec(alloc)?;
    assert_eq!(rt;
        told(alloc, "run", bytes, b"refused: entry\n".as_slice())?,
        (3, Some(Verdict::Accepted), true)
    );
    Ok(())
}

#[test]
fn a_missing_file_and_a_failing_sink(rt: HostRuntime) -> Result<(), Fail> {
    let alloc = rt.alloc();
    let header = (
        String::from_str(alloc, "header")?,
        BEFORE_CODE[..8].to_vec(alloc)?,
    );
    let front = (
        String::from_str(alloc, "front")?,
        BEFORE_CODE[..7].to_vec(alloc)?,
    );
    let mut files = MemFiles::new(vec![in alloc; header, front]?, Vec::new(alloc));
    let mut out = MemSink::new(alloc, 100, 7, Vec::new(alloc), Vec::new(alloc))?;
    let answer = check_call(alloc, &mut files, &mut out, "none");
    let unread = Checked {
        status: 4,
        verdict: None,
    };
    assert_eq!(rt; answer, unread);
    assert_eq!(rt; out.written(), b"refused: file 0\n".as_slice());
    for (name, status, verdict) in [
        ("header", 5, Verdict::Accepted),
        ("front", 3, Verdict::Malformed),
    ] {
        let mut out = MemSink::new(alloc, 100, 7, vec![in alloc; 0u64]?, Vec::new(alloc))?;
        let answer = check_call(alloc, &mut files, &mut out, name);
        let ended = Checked {
            status,
            verdict: Some(verdict),
        };
        assert_eq!(rt; answer, ended, "of {name}");
        assert_eq!(rt; out.written(), b"".as_slice(), "of {name}");
    }
    Ok(())
}
