ghost use Rattle.std.specs.Prelude.{◌≤◌};

use crate::{Store, instantiate};
use host_port::{Bytes, Limits, Param, Params, Start, StartRefusal};
use memory_refusal::NoMemory;
use module_reader::read_module;
use module_validator::accept;
use std::alloc::{AllocError, Global};
use std::test::Fail;
use wasm_ops::Num;

/// The preamble; types: 0 takes and gives nothing, 1 takes an i32 and an i64; three functions, of the types 0, 1 and 0.
const FRONT: &[u8] = b"\0asm\x01\0\0\0\x01\x09\x02\x60\0\0\x60\x02\x7F\x7E\0\x03\x04\x03\0\x01\0";

/// A table of 5 elements.
const TABLE: &[u8] = b"\x04\x04\x01\x70\0\x05";

/// A memory of 1 to 3 pages, and one without a maximum.
const MEMORY: &[u8] = b"\x05\x04\x01\x01\x01\x03";

const UNBOUNDED: &[u8] = b"\x05\x03\x01\0\x01";

/// The globals -1 and, as an i64, -2.
const GLOBALS: &[u8] = b"\x06\x0B\x02\x7F\0\x41\x7F\x0B\x7E\x01\x42\x7E\x0B";

/// The function 1 is exported as `go`, and the function 0 as `on`.
const EXPORTS: &[u8] = b"\x07\x0B\x02\x02go\0\x01\x02on\0\0";

/// The start function is 2.
const BEGIN: &[u8] = b"\x08\x01\x02";

/// The elements 2, 0 and 1 from 1 on, and then 1 at 2.
const ELEMENTS: &[u8] = b"\x09\x0F\x02\0\x41\x01\x0B\x03\x02\0\x01\0\x41\x02\x0B\x01\x01";

/// Three bodies that do nothing.
const BODIES: &[u8] = b"\x0A\x0A\x03\x02\0\x0B\x02\0\x0B\x02\0\x0B";

/// The text `node` from 8 on, and then `XYZ` from 10 on.
const DATA: &[u8] = b"\x0B\x12\x02\0\x41\x08\x0B\x04node\0\x41\x0A\x0B\x03XYZ";

/// A byte at 65,536.
const BYTE_OUT: &[u8] = b"\x0B\x09\x01\0\x41\x80\x80\x04\x0B\x01a";

/// A module that imports `create_data`, exports it as `go`, its own function as `on` and its memory as `at`.
const IMPORTING: &[u8] = b"\0asm\x01\0\0\0\x01\x09\x02\x60\0\0\x60\x02\x7E\x7E\0\
\x02\x20\x01\x10lunatic::message\x0Bcreate_data\0\x01\x03\x02\x01\0\x05\x04\x01\x01\x01\x03\
\x07\x10\x03\x02go\0\0\x02on\0\x01\x02at\x02\0\x0A\x04\x01\x02\0\x0B";

/// The module with the front, these sections and the bodies, and these sections behind.
fn with_sections(alloc: Global, sections: &[&[u8]], behind: &[u8]) -> Result<Vec<u8>, AllocError> {
    let mut bytes = Vec::from_slice(alloc, FRONT)?;
    for section in sections {
        bytes.extend_from_slice(section)?;
    }
    bytes.extend_from_slice(BODIES)?;
    bytes.extend_from_slice(behind)?;
    Ok(bytes)
}

/// A start at this entry with these parameters, where the process may have so many pages.
fn start(alloc: Global, entry: &[u8], params: &[Param], pages: u32) -> Result<Start, NoMemory>
    requires { pages ≤ 1024 }
{
    Ok(Start {
        pid: 1,
        module: 0,
        entry: Bytes::from_vec(Vec::from_slice(alloc, entry)?),
        params: Params::from_vec(Vec::from_slice(alloc, params)?),
        limits: Limits::new(pages, 1000, 1000),
    })
}

/// What the module that these bytes spell makes of this start; None where it isn't accepted.
fn started(alloc: Global, bytes: &[u8], start: &Start) -> Option<Result<Store, StartRefusal>> {
    let valid = accept(alloc, read_module(alloc, bytes).ok()?).ok()?;
    Some(instantiate(alloc, &valid, start))
}

/// The instance at this entry with these parameters, with so many pages at most.
fn made(
    alloc: Global,
    bytes: &[u8],
    entry: &[u8],
    params: &[Param],
    pages: u32,
) -> Result<Store, Fail>
    requires { pages ≤ 1024 }
{
    let start = start(alloc, entry, params, pages)?;
    let answer = started(alloc, bytes, &start).ok_or("not accepted")?;
    Ok(answer.ok().ok_or("refused")?)
}

/// Why there is none.
fn refused(
    alloc: Global,
    bytes: &[u8],
    entry: &[u8],
    params: &[Param],
    pages: u32,
) -> Result<Option<StartRefusal>, Fail>
    requires { pages ≤ 1024 }
{
    let start = start(alloc, entry, params, pages)?;
    let answer = started(alloc, bytes, &start).ok_or("not accepted")?;
    Ok(answer.err())
}

/// The two parameters that `go` takes.
fn two_params() -> [Param; 2] {
    [Param::new(Num::I32, 7), Param::new(Num::I64, 1 << 40)]
}

/// How many pages the memory can have.
fn most_pages(store: Store) -> Option<u32> {
    let (_, _, memory, _) = store.into_parts();
    let mut memory = memory?;
    for _ in 0..1024 {
        if memory.grow(1).is_none() {
            break;
        }
    }
    Some(memory.pages())
}

#[test]
fn makes_globals_and_table(rt: HostRuntime) -> Result<(), Fail> {
    let alloc = rt.alloc();
    let bytes = with_sections(alloc, &[TABLE, GLOBALS, EXPORTS, ELEMENTS], b"")?;
    let store = made(alloc, bytes.as_slice(), b"on", &[], 64)?;
    let globals = store.globals() == [0xFFFF_FFFF, 0xFFFF_FFFF_FFFF_FFFE].as_slice();
    let table = store.table() == [None, Some(2), Some(1), Some(1), None].as_slice();
    assert_eq!(rt;
        (globals, table, store.memory().is_none()),
        (true, true, true)
    );
    Ok(())
}

#[test]
fn the_start_function_comes_before_the_entry(rt: HostRuntime) -> Result<(), Fail> {
    let alloc = rt.alloc();
    let bytes = with_sections(alloc, &[EXPORTS, BEGIN], b"")?;
    let store = made(alloc, bytes.as_slice(), b"go", &two_params(), 0)?;
    let in_order = match store.invocations() {
        [first, second] => {
            (first.function(), first.arguments().is_empty()) == (2, true)
                && second.function() == 1
                && second.arguments() == [7, 1 << 40].as_slice()
        }
        _ => false,
    };
    assert!(rt; in_order);
    Ok(())
}

// A later segment is written over an earlier one.
#[test]
fn data_is_written_in_order(rt: HostRuntime) -> Result<(), Fail> {
    let alloc = rt.alloc();
    let bytes = with_sections(alloc, &[MEMORY, EXPORTS], DATA)?;
    let store = made(alloc, bytes.as_slice(), b"on", &[], 64)?;
    let written = match store.memory() {
        Some(memory) => {
            memory.pages() == 1 && memory.slice(7, 7) == Some(b"\0noXYZ\0".as_slice())
        }
        None => false,
    };
    assert!(rt; written);
    Ok(())
}

// A memory grows to the lesser of its maximum and what the process may have.
#[test]
fn a_memory_grows_to_its_limit(rt: HostRuntime) -> Result<(), Fail> {
    let alloc = rt.alloc();
    for (memory, pages, most) in [(MEMORY, 2, 2), (MEMORY, 64, 3), (UNBOUNDED, 64, 64)] {
        let bytes = with_sections(alloc, &[memory, EXPORTS], b"")?;
        let store = made(alloc, bytes.as_slice(), b"on", &[], pages)?;
        assert_eq!(rt; most_pages(store), Some(most));
    }
    Ok(())
}

// A segment may end where its table or memory ends, and one without contents may begin there. An offset is read
// unsigned.
#[test]
fn a_segment_lies_inside(rt: HostRuntime) -> Result<(), Fail> {
    let alloc = rt.alloc();
    let out = Some(StartRefusal::SegmentOut);
    let cases: [(&str, &[u8], &[u8], Option<StartRefusal>); 7] = [
        ("two at 3", b"\x09\x08\x01\0\x41\x03\x0B\x02\0\0", b"", None),
        ("two at 4", b"\x09\x08\x01\0\x41\x04\x0B\x02\0\0", b"", out),
        ("none at 5", b"\x09\x06\x01\0\x41\x05\x0B\0", b"", None),
        ("one at -1", b"\x09\x07\x01\0\x41\x7F\x0B\x01\0", b"", out),
        (
            "no byte at the end",
            b"",
            b"\x0B\x08\x01\0\x41\x80\x80\x04\x0B\0",
            None,
        ),
        (
            "no byte past it",
            b"",
            b"\x0B\x08\x01\0\x41\x81\x80\x04\x0B\0",
            out,
        ),
        ("a byte at the end", b"", BYTE_OUT, out),
    ];
    for (what, elements, segments, want) in cases {
        let bytes = with_sections(alloc, &[TABLE, MEMORY, EXPORTS, elements], segments)?;
        assert_eq!(rt;
            refused(alloc, bytes.as_slice(), b"on", &[], 64)?,
            want,
            "{what}"
        );
    }
    Ok(())
}

// A module with a segment that is out, whose memory begins with a page: each refusal hides those after it.
#[test]
fn the_first_refusal_is_told(rt: HostRuntime) -> Result<(), Fail> {
    let alloc = rt.alloc();
    let bytes = with_sections(alloc, &[MEMORY, EXPORTS], BYTE_OUT)?;
    let two = two_params();
    let other = [Param::new(Num::I64, 7), Param::new(Num::I64, 1 << 40)];
    let one = [Param::new(Num::I32, 7)];
    let cases: [(&[u8], &[Param], u32, StartRefusal); 6] = [
        (b"gone", &[], 0, StartRefusal::NoExport),
        (b"go", &one, 0, StartRefusal::BadParams),
        (b"go", &other, 0, StartRefusal::BadParams),
        (b"on", &two, 0, StartRefusal::BadParams),
        (b"go", &two, 0, StartRefusal::PagesOver),
        (b"go", &two, 1, StartRefusal::SegmentOut),
    ];
    for (entry, params, pages, want) in cases {
        assert_eq!(rt;
            refused(alloc, bytes.as_slice(), entry, params, pages)?,
            Some(want)
        );
    }
    Ok(())
}

// An imported function under the name is no entry, and neither is a memory.
#[test]
fn an_entry_is_a_function_of_the_module(rt: HostRuntime) -> Result<(), Fail> {
    let alloc = rt.alloc();
    let params = [Param::new(Num::I64, 1), Param::new(Num::I64, 2)];
    let none = Some(StartRefusal::NoExport);
    assert_eq!(rt; refused(alloc, IMPORTING, b"go", &params, 64)?, none);
    assert_eq!(rt; refused(alloc, IMPORTING, b"at", &[], 64)?, none);
    let store = made(alloc, IMPORTING, b"on", &[], 64)?;
    let function = store.invocations().first().map(|it| it.function());
    assert_eq!(rt; function, Some(1));
    Ok(())
}
