//! Little-endian numbers in a slice of bytes.

ghost use Rattle.std.specs.Prelude.{◌≡◌, ◌+◌, ◌*◌, ◌^◌, ◌<◌, ◌≤◌, length, slice_range};
ghost use Rattle.wasm_ops.specs.Table.{IsAccessWidth};
ghost use Rattle.linear_memory.specs.Bytes.{little_endian, low_bytes, written};

/// The number of `width` bytes at `at`.
#[inline(always)]
pub(crate) fn read(bytes: &[u8], at: usize, width: u8) -> u64
    requires width { IsAccessWidth width }
    requires inside { at + width ≤ length bytes.now }
    ensures value { result ≡ little_endian (slice_range bytes.now at (at + width)) }
    ensures range { result < 2 ^ (8 * width) }
{
    match width {
        1 => u64::from(bytes[at]),
        2 => u64::from(u16::from_le_bytes([bytes[at], bytes[at + 1]])),
        4 => u64::from(u32::from_le_bytes([
            bytes[at],
            bytes[at + 1],
            bytes[at + 2],
            bytes[at + 3],
        ])),
        _ => u64::from_le_bytes([
            bytes[at],
            bytes[at + 1],
            bytes[at + 2],
            bytes[at + 3],
            bytes[at + 4],
            bytes[at + 5],
            bytes[at + 6],
            bytes[at + 7],
        ]),
    }
}

/// Writes the lowest `width` bytes of `value` at `at`: byte after byte, of which the compiler makes one store.
#[inline(always)]
pub(crate) fn write(bytes: &mut [u8], at: usize, width: u8, value: u64)
    requires width { IsAccessWidth width }
    requires inside { at + width ≤ length bytes.old }
    ensures { bytes.new ≡ written bytes.old at (low_bytes width value) }
{
    match width {
        1 => write1(bytes, at, (value & 0xff) as u8),
        2 => write2(bytes, at, (value & 0xffff) as u16),
        4 => write4(bytes, at, (value & 0xffff_ffff) as u32),
        _ => write8(bytes, at, value),
    }
}

#[inline(always)]
#[tactic(auto, using(crate::proofs::Writes::one_byte))]
fn write1(bytes: &mut [u8], at: usize, value: u8)
    requires { at + 1 ≤ length bytes.old }
    ensures { bytes.new ≡ written bytes.old at (low_bytes 1 value) }
{
    bytes[at] = value;
}

#[inline(always)]
#[tactic(auto, using(crate::proofs::Writes::two_bytes))]
fn write2(bytes: &mut [u8], at: usize, value: u16)
    requires { at + 2 ≤ length bytes.old }
    ensures { bytes.new ≡ written bytes.old at (low_bytes 2 value) }
{
    let [a, b] = value.to_le_bytes();
    bytes[at] = a;
    bytes[at + 1] = b;
}

#[inline(always)]
#[tactic(auto, using(crate::proofs::Writes::four_bytes))]
fn write4(bytes: &mut [u8], at: usize, value: u32)
    requires { at + 4 ≤ length bytes.old }
    ensures { bytes.new ≡ written bytes.old at (low_bytes 4 value) }
{
    let [a, b, c, d] = value.to_le_bytes();
    bytes[at] = a;
    bytes[at + 1] = b;
    bytes[at + 2] = c;
    bytes[at + 3] = d;
}

#[inline(always)]
#[tactic(auto, using(crate::proofs::Writes::eight_bytes))]
fn write8(bytes: &mut [u8], at: usize, value: u64)
    requires { at + 8 ≤ length bytes.old }
    ensures { bytes.new ≡ written bytes.old at (low_bytes 8 value) }
{
    let [a, b, c, d, e, f, g, h] = value.to_le_bytes();
    bytes[at] = a;
    bytes[at + 1] = b;
    bytes[at + 2] = c;
    bytes[at + 3] = d;
    bytes[at + 4] = e;
    bytes[at + 5] = f;
    bytes[at + 6] = g;
    bytes[at + 7] = h;
}
