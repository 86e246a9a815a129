ghost use Rattle.std.specs.Prelude.{◌≡◌, ◌&&◌, IfOk, MatchOption, true, false, slice_index, option_copied, []};
ghost use Rattle.host_port.specs.HostTable.{area_read};
ghost use Rattle.host_port.specs.Areas.{request_of, bytes_at, IsRead, reads_well, text_fits, word_fits};

use crate::{
    Ask, Bytes, Engine, Holds, HostRow, ReadArea, Reads, Request, WrittenText, WrittenWord,
    host_row,
};
use memory_refusal::NoMemory;
use std::alloc::Global;

/// The argument at this place; 0 where there is none.
pub(crate) fn argument(args: &[u64; 8], place: u8) -> u64
    ensures { result ≡ slice_index args.now place }
{
    match args.get(usize::from(place)) {
        Some(value) => *value,
        None => 0,
    }
}

/// The bytes of the area of this address and length; None exactly where it does not lie in the
/// memory.
fn read_at<E: Engine>(engine: &E, addr: u64, len: u64) -> Option<&[u8]>
    ensures { IsRead (E.memory engine.now) (record { addr = addr; len = len }) (option_copied result) }
{
    // No address and no length of 32 bits or more lies in a memory.
    let _pages = engine.pages();
    if addr > 0xffff_ffff || len > 0xffff_ffff {
        return None;
    }
    engine.read(addr as u32, len as u32)
}

/// The bytes of an area that is read; None exactly where it does not lie in the memory or is a
/// name of another length than names have.
fn read_area<'a, E: Engine>(engine: &'a E, args: &[u64; 8], form: ReadArea) -> Option<&'a [u8]>
    ensures { MatchOption result
        (reads_well (E.memory engine.now) args.now form ≡ false)
        (λ bytes. (reads_well (E.memory engine.now) args.now form ≡ true)
        × (bytes.now ≡ bytes_at (E.memory engine.now) (area_read args.now form))) }
{
    let addr = argument(args, form.addr);
    let length = argument(args, form.length);
    match form.holds {
        Holds::Plain => read_at(engine, addr, length),
        Holds::Tags => match length.checked_mul(8) {
            Some(len) => read_at(engine, addr, len),
            None => {
                // So many tags lie in no memory.
                let _pages = engine.pages();
                None
            }
        },
        Holds::Name => {
            if length < 1 || length > 255 {
                None
            } else {
                read_at(engine, addr, length)
            }
        }
    }
}

/// The area of the text that is written, if one is, lies in the memory.
fn text_fits<E: Engine>(engine: &E, args: &[u64; 8], form: Option<WrittenText>) -> bool
    ensures { result ≡ text_fits (E.memory engine.now) args.now form }
{
    match form {
        Some(form) => {
            read_at(
                engine,
                argument(args, form.addr),
                argument(args, form.length),
            )
            .is_some()
        }
        None => true,
    }
}

/// The area of the word that is written, if one is, lies in the memory.
fn word_fits<E: Engine>(engine: &E, args: &[u64; 8], form: Option<WrittenWord>) -> bool
    ensures { result ≡ word_fits (E.memory engine.now) args.now form }
{
    match form {
        Some(form) => read_at(
            engine,
            argument(args, form.addr),
            u64::from(form.width.bytes()),
        )
        .is_some(),
        None => true,
    }
}

/// The areas that a row writes, if it writes any, lie in the memory.
fn written_fits<E: Engine>(engine: &E, args: &[u64; 8], row: &HostRow) -> bool
    ensures { result ≡ (text_fits (E.memory engine.now) args.now row.now.text
        && word_fits (E.memory engine.now) args.now row.now.word) }
{
    text_fits(engine, args, row.text) && word_fits(engine, args, row.word)
}

/// The request of an ask whose areas fit, with these bytes.
fn fit(ask: Ask, first: Bytes, second: Bytes) -> Request
    ensures { result ≡ record { ask = ask; fits = true; first = first; second = second } }
{
    Request {
        ask,
        fits: true,
        first,
        second,
    }
}

/// The request of an ask whose areas do not fit; it has no bytes.
fn unfit(alloc: Global, ask: Ask) -> Request
    ensures { result ≡ record { ask = ask; fits = false; first = []; second = [] } }
{
    Request {
        ask,
        fits: false,
        first: Bytes::new(alloc),
        second: Bytes::new(alloc),
    }
}

/// A copy of these bytes.
fn copied(alloc: Global, bytes: &[u8]) -> Result<Bytes, NoMemory>
    ensures { IfOk result (λ copy. copy ≡ bytes.now) }
{
    Ok(Bytes::from_vec(bytes.to_vec(alloc)?))
}

/// The request of an ask: whether each area that it reads or writes lies in the memory, and the
/// bytes that it reads. The row of the call says which areas it has.
pub fn resolve<E: Engine>(alloc: Global, engine: &E, ask: Ask) -> Result<Request, NoMemory>
    ensures { IfOk result (λ request. request ≡ request_of (E.memory engine.now) ask) }
{
    let Some(row) = host_row(ask.call) else {
        return Ok(fit(ask, Bytes::new(alloc), Bytes::new(alloc)));
    };
    if !written_fits(engine, &ask.args, row) {
        return Ok(unfit(alloc, ask));
    }
    match row.reads {
        Reads::NoArea => Ok(fit(ask, Bytes::new(alloc), Bytes::new(alloc))),
        Reads::OneArea(form) => {
            let Some(bytes) = read_area(engine, &ask.args, form) else {
                return Ok(unfit(alloc, ask));
            };
            Ok(fit(ask, copied(alloc, bytes)?, Bytes::new(alloc)))
        }
        Reads::TwoAreas(first, second) => {
            let Some(bytes) = read_area(engine, &ask.args, first) else {
                return Ok(unfit(alloc, ask));
            };
            let Some(others) = read_area(engine, &ask.args, second) else {
                return Ok(unfit(alloc, ask));
            };
            Ok(fit(ask, copied(alloc, bytes)?, copied(alloc, others)?))
        }
    }
}
