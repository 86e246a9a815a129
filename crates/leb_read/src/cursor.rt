ghost use Rattle.std.specs.Prelude.{◌≡◌, ◌<◌, ◌↔◌, [], ◌∷◌, length, IfOk, OnErr, IsErr};
ghost use Rattle.leb_read.specs.Numbers.{SpellsUnsigned, SpellsSigned};
ghost use Rattle.leb_read.specs.Numbers.{MayEndU32, MayEndS32, MayEndS64};
ghost use Rattle.leb_read.specs.Place.{Passes};
ghost use Rattle.leb_read.specs.Reading.{AnswersNumber};

use crate::{LebFault, Short, number};
use std::marker::Model;

/// A place in bytes, from which they are read.
#[derive(Debug, Drop)]
pub struct Cursor<'a> {
    at: usize,
    left: &'a [u8],
}

impl<'a> Model for Cursor<'a> {
    ghost use Rattle.std.specs.Prelude.{◌+◌, ◌<◌, ◌^◌, length};
    ghost use Rattle.leb_read.specs.Place.{Place};

    ghost Value = { Place };

    ghost view = { λ c. record { at = c.at; left = c.left.now } };

    ghost invariant = { λ c. c.at + length c.left.now < 2 ^ 64 };
}

impl<'a> Cursor<'a> {
    /// A cursor at the first of these bytes.
    pub fn new(bytes: &'a [u8]) -> Cursor<'a>
        ensures start { result.at ≡ 0 }
        ensures bytes { result.left ≡ bytes.now }
    {
        Cursor { at: 0, left: bytes }
    }

    /// Another cursor at the same place.
    pub fn again(&self) -> Cursor<'a>
        ensures { result ≡ self.now }
    {
        Cursor {
            at: self.at,
            left: self.left,
        }
    }

    /// How many bytes lie before the cursor.
    pub fn at(&self) -> usize
        ensures { result ≡ self.now.at }
    {
        self.at
    }

    /// How many bytes are left.
    pub fn left(&self) -> usize
        ensures { result ≡ length self.now.left }
    {
        self.left.len()
    }

    /// The byte at the cursor, which is passed over. `Short` where none is left.
    pub fn byte(&mut self) -> Result<u8, Short>
        ensures ok { IfOk result (λ byte. Passes self.old self.new (byte ∷ [])) }
        ensures short { IsErr result ↔ (self.old.left ≡ []) }
        ensures err { OnErr result (self.new ≡ self.old) }
    {
        let (byte, rest) = self.left.split_first().ok_or(Short)?;
        self.at += 1;
        self.left = rest;
        Ok(*byte)
    }

    /// The next `n` bytes, which are passed over. `Short` where fewer are left.
    pub fn take(&mut self, n: usize) -> Result<&'a [u8], Short>
        ensures ok { IfOk result (λ bytes. (length bytes.now ≡ n) × Passes self.old self.new bytes.now) }
        ensures short { IsErr result ↔ (length self.old.left < n) }
        ensures err { OnErr result (self.new ≡ self.old) }
    {
        if self.left.len() < n {
            return Err(Short);
        }
        let (bytes, rest) = self.left.split_at(n);
        self.at += n;
        self.left = rest;
        Ok(bytes)
    }

    /// The unsigned number of 32 bits at the cursor, which is passed over (Core 1.0, 5.2.2).
    /// `Short` where the input ends inside it, `TooLong` where its fifth byte may not end it.
    pub fn u32(&mut self) -> Result<u32, LebFault>
        ensures { AnswersNumber (SpellsUnsigned 32) 5 MayEndU32 self.old self.new result }
    {
        let (value, rest) = number::unsigned(4, 4, self.left)?;
        self.at += self.left.len() - rest.len();
        self.left = rest;
        Ok(value as u32)
    }

    /// The signed number of 32 bits at the cursor, which is passed over (Core 1.0, 5.2.2).
    /// `Short` where the input ends inside it, `TooLong` where its fifth byte may not end it.
    pub fn s32(&mut self) -> Result<i32, LebFault>
        ensures { AnswersNumber (SpellsSigned 32) 5 MayEndS32 self.old self.new result }
    {
        let (value, rest) = number::signed(4, 4, self.left)?;
        self.at += self.left.len() - rest.len();
        self.left = rest;
        Ok(value as i32)
    }

    /// The signed number of 64 bits at the cursor, which is passed over (Core 1.0, 5.2.2).
    /// `Short` where the input ends inside it, `TooLong` where its tenth byte may not end it.
    pub fn s64(&mut self) -> Result<i64, LebFault>
        ensures { AnswersNumber (SpellsSigned 64) 10 MayEndS64 self.old self.new result }
    {
        let (value, rest) = number::signed(9, 1, self.left)?;
        self.at += self.left.len() - rest.len();
        self.left = rest;
        Ok(value)
    }
}
