ghost use Rattle.std.specs.Prelude.{◌≡◌, []};

use crate::{PushRefused, Scratch};
use memory_refusal::NoMemory;
use outside::MemStream;
use resource_table::{Owned, Shed};
use std::alloc::Global;
use std::test::Fail;

/// A stream at its end, without room.
fn stream(alloc: Global) -> Result<MemStream, NoMemory> {
    MemStream::new(alloc, Vec::new(alloc), Vec::new(alloc), 0)
}

/// The place of a stream that is pushed under the number 9.
fn pushed(scratch: &mut Scratch<MemStream>, stream: MemStream) -> Option<u64> {
    let back = match scratch.push_stream(Owned::of(9, stream)) {
        Ok(place) => return Some(place),
        Err(PushRefused::NoMessage(back)) => back,
        Err(PushRefused::PlacesFull(back)) => back,
        Err(PushRefused::NoMemory(back)) => back,
    };
    let _stream = back.into_stream();
    None
}

/// A read gives these bytes.
fn reads(scratch: &mut Scratch<MemStream>, len: u32, want: &[u8]) -> bool {
    match scratch.read(len) {
        Some(bytes) => bytes == want,
        None => false,
    }
}

/// Lets go of the streams of a shed, and tells how many there were.
fn count_out(mut shed: Shed<MemStream>) -> u32 {
    let mut count: u32 = 0;
    while let Some(handle) = shed.pop() {
        count = count.saturating_add(1);
        let _stream = handle.into_stream();
    }
    shed.destroy_empty();
    count
}

/// A scratch area with a blank message of this tag.
fn with_tag(alloc: Global, tag: u64) -> Result<Scratch<MemStream>, NoMemory> {
    let mut shed = Shed::new(alloc)?;
    let mut scratch = Scratch::new(alloc);
    scratch.create(tag, &mut shed);
    count_out(shed);
    Ok(scratch)
}

/// Lets go of a scratch area, and tells how many streams its message had.
fn let_all_go(mut scratch: Scratch<MemStream>, mut shed: Shed<MemStream>) -> u32
    requires { shed ≡ [] }
{
    let _size = scratch.size();
    scratch.drain(&mut shed);
    scratch.destroy_empty();
    count_out(shed)
}

#[test]
fn a_message_is_written_read_and_dropped(rt: HostRuntime) -> Result<(), Fail> {
    let alloc = rt.alloc();
    let stream = stream(alloc)?;
    let shed = Shed::new(alloc)?;
    let mut scratch = match with_tag(alloc, 7) {
        Ok(scratch) => scratch,
        Err(refused) => {
            shed.destroy_empty();
            return Err(refused.into());
        }
    };
    assert_eq!(rt; scratch.tag(), Some(7));
    assert_eq!(rt; scratch.write(b"abc"), Ok(3));
    assert_eq!(rt; scratch.size(), Some(3));
    assert!(rt; reads(&mut scratch, 2, b"ab"));
    assert_eq!(rt; scratch.seek(4), Some(false));
    assert!(rt; reads(&mut scratch, 2, b"c"));
    assert_eq!(rt; pushed(&mut scratch, stream), Some(0));
    assert_eq!(rt; scratch.at(0), Some(9));
    assert_eq!(rt; scratch.at(1), None);
    assert_eq!(rt; let_all_go(scratch, shed), 1);
    Ok(())
}
