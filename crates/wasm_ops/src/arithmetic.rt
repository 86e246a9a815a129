//! Sums, products, quotients and remainders.

ghost use Rattle.std.specs.Prelude.{◌≡◌, ◌-◌, ◌^◌, ◌==◌, ◌&&◌, IfOk, IfErr};
ghost use Rattle.wasm_ops.specs.Integers as int;
ghost use Rattle.wasm_ops.specs.Integers.{IsIntWidth};

use crate::integer::Int;
use crate::trap::Trap;

impl<const W: u32> Int<W> {
    /// `add`: the sum, modulo 2 to the power W.
    #[inline(always)]
    pub fn add(self, other: Self) -> Self
        requires width { IsIntWidth W }
        ensures { result.value ≡ int.add W self.entry.value other.entry.value }
    {
        Self::low_bits(self.value.wrapping_add(other.value))
    }

    /// `sub`: the difference, modulo 2 to the power W.
    #[inline(always)]
    pub fn sub(self, other: Self) -> Self
        requires width { IsIntWidth W }
        ensures { result.value ≡ int.sub W self.entry.value other.entry.value }
    {
        Self::low_bits(self.value.wrapping_sub(other.value))
    }

    /// `mul`: the product, modulo 2 to the power W.
    #[inline(always)]
    pub fn mul(self, other: Self) -> Self
        requires width { IsIntWidth W }
        ensures { result.value ≡ int.mul W self.entry.value other.entry.value }
    {
        Self::low_bits(self.value.wrapping_mul(other.value))
    }

    /// The signed quotient by `divisor` does not fit: `self` is the least number, and `divisor` is -1.
    #[inline(always)]
    fn overflows(self, divisor: Self) -> bool
        requires width { IsIntWidth W }
        ensures { result ≡ (self.entry.value == 2 ^ (W - 1) && divisor.entry.value == 2 ^ W - 1) }
    {
        self.value == 1 << (W - 1) && divisor.value == u64::MAX >> (64 - W)
    }

    /// `div_s`: the signed quotient, rounded toward zero. `DivideByZero` where `other` is 0, `Overflow` where the least
    /// number is divided by -1.
    #[inline(always)]
    pub fn div_s(self, other: Self) -> Result<Self, Trap>
        requires width { IsIntWidth W }
        ensures quotient { IfOk result (λ n. int.div_s W self.entry.value other.entry.value ≡ Ok n.value) }
        ensures trap { IfErr result (λ t. int.div_s W self.entry.value other.entry.value ≡ Err t) }
    {
        if other.value == 0 {
            return Err(Trap::DivideByZero);
        }
        if self.overflows(other) {
            return Err(Trap::Overflow);
        }
        Ok(Self::of_signed(self.signed() / other.signed()))
    }

    /// `div_u`: the quotient, rounded down. `DivideByZero` where `other` is 0.
    #[inline(always)]
    pub fn div_u(self, other: Self) -> Result<Self, Trap>
        ensures quotient { IfOk result (λ n. int.div_u self.entry.value other.entry.value ≡ Ok n.value) }
        ensures trap { IfErr result (λ t. int.div_u self.entry.value other.entry.value ≡ Err t) }
    {
        if other.value == 0 {
            return Err(Trap::DivideByZero);
        }
        Ok(Int {
            value: self.value / other.value,
        })
    }

    /// `rem_s`: the remainder of the signed division, with the sign of `self`. `DivideByZero` where `other` is 0.
    #[inline(always)]
    pub fn rem_s(self, other: Self) -> Result<Self, Trap>
        requires width { IsIntWidth W }
        ensures remainder { IfOk result (λ n. int.rem_s W self.entry.value other.entry.value ≡ Ok n.value) }
        ensures trap { IfErr result (λ t. int.rem_s W self.entry.value other.entry.value ≡ Err t) }
    {
        if other.value == 0 {
            return Err(Trap::DivideByZero);
        }
        let divisor = other.signed();
        if divisor == -1 {
            return Ok(Int { value: 0 });
        }
        Ok(Self::of_signed(self.signed() % divisor))
    }

    /// `rem_u`: the remainder. `DivideByZero` where `other` is 0.
    #[inline(always)]
    pub fn rem_u(self, other: Self) -> Result<Self, Trap>
        ensures remainder { IfOk result (λ n. int.rem_u self.entry.value other.entry.value ≡ Ok n.value) }
        ensures trap { IfErr result (λ t. int.rem_u self.entry.value other.entry.value ≡ Err t) }
    {
        if other.value == 0 {
            return Err(Trap::DivideByZero);
        }
        Ok(Int {
            value: self.value % other.value,
        })
    }
}
