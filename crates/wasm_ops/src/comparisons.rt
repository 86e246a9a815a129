//! The test for zero and the comparisons.

ghost use Rattle.std.specs.Prelude.{◌≡◌};
ghost use Rattle.wasm_ops.specs.Integers as int;
ghost use Rattle.wasm_ops.specs.Integers.{IsIntWidth};

use crate::integer::Int;

impl<const W: u32> Int<W> {
    /// `eqz`: the number is 0.
    #[inline(always)]
    pub fn eqz(self) -> bool
        ensures { result ≡ int.eqz self.entry.value }
    {
        self.value == 0
    }

    /// `eq`: the two are equal.
    #[inline(always)]
    pub fn eq(self, other: Self) -> bool
        ensures { result ≡ int.eq self.entry.value other.entry.value }
    {
        self.value == other.value
    }

    /// `ne`: the two differ.
    #[inline(always)]
    pub fn ne(self, other: Self) -> bool
        ensures { result ≡ int.ne self.entry.value other.entry.value }
    {
        self.value != other.value
    }

    /// `lt_s`: `self` is below `other`, both read as signed.
    #[inline(always)]
    pub fn lt_s(self, other: Self) -> bool
        requires width { IsIntWidth W }
        ensures { result ≡ int.lt_s W self.entry.value other.entry.value }
    {
        self.signed() < other.signed()
    }

    /// `lt_u`: `self` is below `other`.
    #[inline(always)]
    pub fn lt_u(self, other: Self) -> bool
        ensures { result ≡ int.lt_u self.entry.value other.entry.value }
    {
        self.value < other.value
    }

    /// `gt_s`: `self` is above `other`, both read as signed.
    #[inline(always)]
    pub fn gt_s(self, other: Self) -> bool
        requires width { IsIntWidth W }
        ensures { result ≡ int.gt_s W self.entry.value other.entry.value }
    {
        self.signed() > other.signed()
    }

    /// `gt_u`: `self` is above `other`.
    #[inline(always)]
    pub fn gt_u(self, other: Self) -> bool
        ensures { result ≡ int.gt_u self.entry.value other.entry.value }
    {
        self.value > other.value
    }

    /// `le_s`: `self` is not above `other`, both read as signed.
    #[inline(always)]
    pub fn le_s(self, other: Self) -> bool
        requires width { IsIntWidth W }
        ensures { result ≡ int.le_s W self.entry.value other.entry.value }
    {
        self.signed() <= other.signed()
    }

    /// `le_u`: `self` is not above `other`.
    #[inline(always)]
    pub fn le_u(self, other: Self) -> bool
        ensures { result ≡ int.le_u self.entry.value other.entry.value }
    {
        self.value <= other.value
    }

    /// `ge_s`: `self` is not below `other`, both read as signed.
    #[inline(always)]
    pub fn ge_s(self, other: Self) -> bool
        requires width { IsIntWidth W }
        ensures { result ≡ int.ge_s W self.entry.value other.entry.value }
    {
        self.signed() >= other.signed()
    }

    /// `ge_u`: `self` is not below `other`.
    #[inline(always)]
    pub fn ge_u(self, other: Self) -> bool
        ensures { result ≡ int.ge_u self.entry.value other.entry.value }
    {
        self.value >= other.value
    }
}
