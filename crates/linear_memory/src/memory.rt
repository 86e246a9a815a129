ghost use Rattle.std.specs.Prelude.{◌≡◌, ◌↔◌, ◌+◌, ◌*◌, ◌^◌, ◌<◌, ◌≤◌, ◌++◌, length, replicate, slice_range, IsTrue, IsSome, IfSome, IfNone, IfOk};
ghost use Rattle.std.specs.Bool.{OnTrue, OnFalse};
ghost use Rattle.wasm_ops.specs.Table.{IsAccessWidth};
ghost use Rattle.linear_memory.specs.Bytes.{little_endian, low_bytes, written, mark_of};
ghost use Rattle.linear_memory.specs.Contents.{page_size, HasPages};

use crate::access::{read, write};
use memory_refusal::NoMemory;
use std::alloc::Global;
use std::marker::Model;

/// The bytes of a page (Core 1.0, 4.2.8).
const PAGE: usize = 65_536;

/// A linear memory: bytes that grow by pages of 65,536.
#[derive(Debug, Drop)]
pub struct Memory {
    bytes: Vec<u8>,
    most: u32,
}

impl Model for Memory {
    ghost use Rattle.std.specs.Prelude.{◌≡◌, ◌*◌, ◌%◌, ◌≤◌, length, vec_capacity};
    ghost use Rattle.linear_memory.specs.Contents.{Contents, IsMemory};

    ghost Value = { Contents };

    ghost view = { λ m. record { bytes = m.bytes.items; most = m.most } };

    ghost invariant = { λ m. IsMemory (length m.bytes.items) m.most (vec_capacity m.bytes) };
}

impl Memory {
    /// A memory of `min` pages of zeros that may grow to `most` pages, at most 1,024. All `most` pages are reserved: no
    /// other call takes memory.
    pub fn new(alloc: Global, min: u32, most: u32) -> Result<Memory, NoMemory>
        requires within { min ≤ most }
        requires limit { most ≤ 1024 }
        ensures { IfOk result (λ m. m ≡ record { bytes = replicate (min * page_size) 0; most = most }) }
    {
        let mut bytes = Vec::with_capacity(alloc, most as usize * PAGE)?;
        bytes.resize(min as usize * PAGE, 0)?;
        Ok(Memory { bytes, most })
    }

    /// The size in pages.
    pub fn pages(&self) -> u32
        ensures { HasPages self.now result }
    {
        (self.bytes.len() / PAGE) as u32
    }

    /// `width` bytes from `at` on lie in the memory.
    #[inline(always)]
    fn is_inside(&self, at: u64, width: u8) -> bool
        ensures { IsTrue result ↔ (at + width ≤ length self.now.bytes) }
    {
        match at.checked_add(u64::from(width)) {
            Some(end) => end <= self.bytes.len() as u64,
            None => false,
        }
    }

    /// The little-endian number of `width` bytes at the address `at`; `None` exactly where they pass the end.
    #[inline(always)]
    pub fn load(&self, at: u64, width: u8) -> Option<u64>
        requires { IsAccessWidth width }
        ensures inside { IsSome result ↔ (at + width ≤ length self.now.bytes) }
        ensures value { IfSome result (λ n. n ≡ little_endian (slice_range self.now.bytes at (at + width))) }
        ensures range { IfSome result (λ n. n < 2 ^ (8 * width)) }
    {
        if !self.is_inside(at, width) {
            return None;
        }
        Some(read(&self.bytes, at as usize, width))
    }

    /// Writes the lowest `width` bytes of `value` at the address `at`, the lowest first; `false`, and nothing is written,
    /// exactly where they pass the end.
    #[inline(always)]
    pub fn store(&mut self, at: u64, width: u8, value: u64) -> bool
        requires { IsAccessWidth width }
        ensures inside { IsTrue result ↔ (at + width ≤ length self.old.bytes) }
        ensures stored { OnTrue result (self.new ≡ record self.old { bytes = written self.old.bytes at (low_bytes width value) }) }
        ensures refused { OnFalse result (self.new ≡ self.old) }
    {
        if !self.is_inside(at, width) {
            return false;
        }
        write(&mut self.bytes, at as usize, width, value);
        true
    }

    /// Adds `by` pages of zeros and gives the old size in pages; `None`, and nothing changes, exactly where the new size
    /// passes `most`.
    pub fn grow(&mut self, by: u32) -> Option<u32>
        ensures room { IsSome result ↔ (length self.old.bytes + by * page_size ≤ self.old.most * page_size) }
        ensures size { IfSome result (HasPages self.old) }
        ensures grown { IfSome result (λ _. self.new ≡ record self.old { bytes = self.old.bytes ++ replicate (by * page_size) 0 }) }
        ensures refused { IfNone result (self.new ≡ self.old) }
    {
        let pages = self.pages();
        if by > self.most - pages {
            return None;
        }
        let size = (pages + by) as usize * PAGE;
        match self.bytes.resize(size, 0) {
            Ok(()) => Some(pages),
            Err(_) => unreachable!(),
        }
    }

    /// Writes `bytes` over the memory from the address `at` on, where they must fit.
    pub fn fill_from(&mut self, at: u32, bytes: &[u8])
        requires { at + length bytes.now ≤ length self.old.bytes }
        ensures { self.new ≡ record self.old { bytes = written self.old.bytes at bytes.now } }
    {
        let start = at as usize;
        self.bytes[start..start + bytes.len()].copy_from_slice(bytes);
    }

    /// The `len` bytes from the address `at` on; `None` exactly where they pass the end.
    pub fn slice(&self, at: u32, len: u32) -> Option<&[u8]>
        ensures inside { IsSome result ↔ (at + len ≤ length self.now.bytes) }
        ensures bytes { IfSome result (λ part. part.now ≡ slice_range self.now.bytes at (at + len)) }
    {
        let start = at as usize;
        self.bytes.get(start..start + len as usize)
    }

    /// The memory's mark: the sum of each byte times one more than its address, modulo 2 to the power 64.
    pub fn mark(&self) -> u64
        ensures { result ≡ mark_of self.now.bytes }
    {
        let mut mark = 0u64;
        for (place, byte) in self.bytes.iter().enumerate() {
            mark = mark.wrapping_add((place as u64 + 1) * u64::from(*byte));
        }
        mark
    }
}

#[cfg(test)]
mod tests {
    use super::*;
    use std::test::Fail;

    #[test]
    fn grows_up_to_its_limit(rt: HostRuntime) -> Result<(), Fail> {
        let mut memory = Memory::new(rt.alloc(), 1, 64)?;
        for (by, want) in [(63, Some(1)), (1, None), (0, Some(64)), (u32::MAX, None)] {
            assert_eq!(rt; memory.grow(by), want, "by {by}");
        }
        assert_eq!(rt; memory.pages(), 64);
        Ok(())
    }

    #[test]
    fn marks_bytes_by_their_places(rt: HostRuntime) -> Result<(), Fail> {
        for (at, byte, want) in [(0, 0, 0), (0, 1, 1), (65_535, 255, 16_711_680)] {
            let mut memory = Memory::new(rt.alloc(), 1, 1)?;
            memory.store(at, 1, byte);
            assert_eq!(rt; memory.mark(), want, "byte {at} is {byte}");
        }
        Ok(())
    }

    #[test]
    fn loads_what_was_stored(rt: HostRuntime) -> Result<(), Fail> {
        let mut memory = Memory::new(rt.alloc(), 1, 2)?;
        memory.fill_from(8, b"node");
        assert_eq!(rt;
            memory.slice(8, 4).map(|part| part == b"node".as_slice()),
            Some(true)
        );
        assert!(rt; memory.store(65_528, 8, 0x8877_6655_4433_2211));
        let loads = [
            (65_528, 8, Some(0x8877_6655_4433_2211)),
            (65_532, 4, Some(0x8877_6655)),
            (65_531, 2, Some(0x5544)),
            (65_535, 1, Some(0x88)),
            (65_533, 4, None),
            (65_536, 1, None),
            (u64::MAX, 8, None),
        ];
        for (at, width, want) in loads {
            let found = match width {
                1 => memory.load(at, 1),
                2 => memory.load(at, 2),
                4 => memory.load(at, 4),
                _ => memory.load(at, 8),
            };
            assert_eq!(rt; found, want, "{width} bytes at {at}");
        }
        assert!(rt; !memory.store(65_535, 2, 0));
        assert!(rt; memory.store(8, 2, 0xabcd_6f4e));
        assert_eq!(rt;
            memory.slice(8, 4).map(|part| part == b"Node".as_slice()),
            Some(true)
        );
        assert!(rt; memory.slice(65_535, 2).is_none());
        Ok(())
    }
}
