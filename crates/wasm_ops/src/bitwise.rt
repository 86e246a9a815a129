//! Counts of bits, operations bit by bit, shifts and rotations.

ghost use Rattle.std.specs.Prelude.{◌≡◌};
ghost use Rattle.wasm_ops.specs.Integers as int;
ghost use Rattle.wasm_ops.specs.Integers.{IsIntWidth};

use crate::integer::Int;

impl<const W: u32> Int<W> {
    /// `clz`: how many bits are 0 from the top down; W of 0.
    #[inline(always)]
    #[tactic(auto, using(crate::proofs::Bits::clz_is))]
    pub fn clz(self) -> Self
        requires width { IsIntWidth W }
        ensures { result.value ≡ int.clz W self.entry.value }
    {
        if W == 32 {
            Int {
                value: u64::from((self.value as u32).leading_zeros()),
            }
        } else {
            Int {
                value: u64::from(self.value.leading_zeros()),
            }
        }
    }

    /// `ctz`: how many bits are 0 from the lowest up; W of 0.
    #[inline(always)]
    #[tactic(auto, using(crate::proofs::Bits::ctz_is))]
    pub fn ctz(self) -> Self
        requires width { IsIntWidth W }
        ensures { result.value ≡ int.ctz W self.entry.value }
    {
        if W == 32 {
            Int {
                value: u64::from((self.value as u32).trailing_zeros()),
            }
        } else {
            Int {
                value: u64::from(self.value.trailing_zeros()),
            }
        }
    }

    /// `popcnt`: how many bits are 1.
    #[inline(always)]
    #[tactic(auto, using(crate::proofs::Bits::popcnt_is))]
    pub fn popcnt(self) -> Self
        requires width { IsIntWidth W }
        ensures { result.value ≡ int.popcnt W self.entry.value }
    {
        Int {
            value: u64::from(self.value.count_ones()),
        }
    }

    /// `and`, bit by bit.
    #[inline(always)]
    #[tactic(auto, using(crate::proofs::Bits::and_is))]
    pub fn and(self, other: Self) -> Self
        requires width { IsIntWidth W }
        ensures { result.value ≡ int.and W self.entry.value other.entry.value }
    {
        Int {
            value: self.value & other.value,
        }
    }

    /// `or`, bit by bit.
    #[inline(always)]
    #[tactic(auto, using(crate::proofs::Bits::or_is))]
    pub fn or(self, other: Self) -> Self
        requires width { IsIntWidth W }
        ensures { result.value ≡ int.or W self.entry.value other.entry.value }
    {
        Int {
            value: self.value | other.value,
        }
    }

    /// `xor`, bit by bit.
    #[inline(always)]
    #[tactic(auto, using(crate::proofs::Bits::xor_is))]
    pub fn xor(self, other: Self) -> Self
        requires width { IsIntWidth W }
        ensures { result.value ≡ int.xor W self.entry.value other.entry.value }
    {
        Int {
            value: self.value ^ other.value,
        }
    }

    /// `shl`: moved up by `other` modulo W places.
    #[inline(always)]
    pub fn shl(self, other: Self) -> Self
        requires width { IsIntWidth W }
        ensures { result.value ≡ int.shl W self.entry.value other.entry.value }
    {
        Self::low_bits(self.value << Self::places(other))
    }

    /// `shr_s`: moved down by `other` modulo W places, the sign copied.
    #[inline(always)]
    pub fn shr_s(self, other: Self) -> Self
        requires width { IsIntWidth W }
        ensures { result.value ≡ int.shr_s W self.entry.value other.entry.value }
    {
        Self::of_signed(self.signed() >> Self::places(other))
    }

    /// `shr_u`: moved down by `other` modulo W places.
    #[inline(always)]
    pub fn shr_u(self, other: Self) -> Self
        requires width { IsIntWidth W }
        ensures { result.value ≡ int.shr_u W self.entry.value other.entry.value }
    {
        Int {
            value: self.value >> Self::places(other),
        }
    }

    /// `rotl`: moved up by `other` modulo W places, and what leaves at the top comes in at the bottom.
    #[inline(always)]
    #[tactic(auto, using(crate::proofs::Bits::rotl_is))]
    pub fn rotl(self, other: Self) -> Self
        requires width { IsIntWidth W }
        ensures { result.value ≡ int.rotl W self.entry.value other.entry.value }
    {
        if W == 32 {
            Int {
                value: u64::from((self.value as u32).rotate_left(Self::places(other))),
            }
        } else {
            Int {
                value: self.value.rotate_left(Self::places(other)),
            }
        }
    }

    /// `rotr`: moved down by `other` modulo W places, and what leaves at the bottom comes in at the top.
    #[inline(always)]
    #[tactic(auto, using(crate::proofs::Bits::rotr_is))]
    pub fn rotr(self, other: Self) -> Self
        requires width { IsIntWidth W }
        ensures { result.value ≡ int.rotr W self.entry.value other.entry.value }
    {
        if W == 32 {
            Int {
                value: u64::from((self.value as u32).rotate_right(Self::places(other))),
            }
        } else {
            Int {
                value: self.value.rotate_right(Self::places(other)),
            }
        }
    }
}
