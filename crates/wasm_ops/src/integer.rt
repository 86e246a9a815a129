//! Integers of 32 and 64 bits (Core 1.0, 4.3.2).

ghost use Rattle.std.specs.Prelude.{◌≡◌, ◌%◌, ◌^◌, ◌<◌};
ghost use Rattle.wasm_ops.specs.Integers as int;
ghost use Rattle.wasm_ops.specs.Integers.{IsIntWidth};

/// A number from 0 up to 2 to the power W, where W is 32 or 64: the value of an i32 or an i64.
#[derive(Clone, Copy, Debug)]
pub struct Int<const W: u32> {
    pub value: u64,
    ghost in_range: { value < 2 ^ W },
}

impl<const W: u32> Int<W> {
    /// The integer with this value.
    #[inline(always)]
    pub fn new(value: u64) -> Self
        requires { value < 2 ^ W }
        ensures { result.value ≡ value }
    {
        Int { value }
    }

    /// The integer of the low W bits.
    #[inline(always)]
    pub(crate) fn low_bits(value: u64) -> Self
        requires width { IsIntWidth W }
        ensures { result.value ≡ value % 2 ^ W }
    {
        if W == 32 {
            Int {
                value: value & 0xffff_ffff,
            }
        } else {
            Int { value }
        }
    }

    /// The signed reading.
    #[inline(always)]
    pub(crate) fn signed(self) -> i64
        requires width { IsIntWidth W }
        ensures { result ≡ int.signed W self.entry.value }
    {
        if W == 32 {
            i64::from((self.value as u32).cast_signed())
        } else {
            self.value.cast_signed()
        }
    }

    /// The integer that has this signed reading, as far as its W bits go.
    #[inline(always)]
    pub(crate) fn of_signed(value: i64) -> Self
        requires width { IsIntWidth W }
        ensures { result.value ≡ int.unsigned W value }
    {
        Self::low_bits(value.cast_unsigned())
    }

    /// The places that a shift or a rotation by `other` moves: `other` modulo W.
    #[inline(always)]
    pub(crate) fn places(other: Self) -> u32
        requires width { IsIntWidth W }
        ensures { result ≡ other.entry.value % W }
    {
        (other.value % u64::from(W)) as u32
    }
}

impl Int<64> {
    /// `i32.wrap_i64`: the low 32 bits.
    #[inline(always)]
    pub fn wrap(self) -> Int<32>
        ensures { result.value ≡ int.wrap self.value }
    {
        Int {
            value: self.value & 0xffff_ffff,
        }
    }
}

impl Int<32> {
    /// `i64.extend_i32_s`: the number with the same signed reading.
    #[inline(always)]
    pub fn extend_s(self) -> Int<64>
        ensures { result.value ≡ int.extend_s self.value }
    {
        Int::of_signed(self.signed())
    }

    /// `i64.extend_i32_u`: the same number.
    #[inline(always)]
    pub fn extend_u(self) -> Int<64>
        ensures { result.value ≡ self.value }
    {
        Int { value: self.value }
    }
}
