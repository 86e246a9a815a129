use crate::{Owned, Resources, Shed};
use memory_refusal::NoMemory;
use outside::{IoStep, MemStream, Piece};
use std::alloc::Global;
use std::test::Fail;

/// A stream of one byte, with room for two.
fn stream(alloc: Global) -> Result<MemStream, NoMemory> {
    let bytes = Piece::Bytes(vec![in alloc; b'a']?);
    MemStream::new(alloc, vec![in alloc; bytes]?, Vec::new(alloc), 2)
}

/// The streams of a shed that is emptied.
fn count_out(mut shed: Shed<MemStream>) -> u32 {
    let mut count: u32 = 0;
    while let Some(handle) = shed.pop() {
        count = count.saturating_add(1);
        let _stream = handle.into_stream();
    }
    shed.destroy_empty();
    count
}

#[test]
fn a_stream_goes_through_a_table_and_a_shed(rt: HostRuntime) -> Result<(), Fail> {
    let alloc = rt.alloc();
    let stream = stream(alloc)?;
    let shed = Shed::new(alloc)?;
    let mut table = match Resources::new(alloc) {
        Ok(table) => table,
        Err(refused) => {
            shed.destroy_empty();
            return Err(refused.into());
        }
    };
    let mut shed = shed;
    match table.put(Owned::of(9, stream)) {
        Ok(()) => {}
        Err(back) => {
            let _stream = back.into_stream();
        }
    }
    assert!(rt; table.has(9));
    assert!(rt; !table.has(8));
    let mut buffer = [0u8; 2];
    assert_eq!(rt; table.read_step(9, &mut buffer), Some(IoStep::Done(1)));
    assert_eq!(rt; table.write_step(9, b"ab"), Some(IoStep::Done(2)));
    assert_eq!(rt; table.write_step(8, b"ab"), None);
    assert_eq!(rt; table.count(), 1);
    table.drain(&mut shed);
    table.destroy_empty();
    assert_eq!(rt; count_out(shed), 1);
    Ok(())
}
