ghost use Rattle.std.specs.Prelude.{◌≡◌, reverse, ◌↔◌, ◌∷◌, [], ◌++◌, List, true, false, Ok, None, OnOk, OnErr, IfSome, ⊤};
ghost use Rattle.body_validator.specs.Covering.{known, Covers, IsImage, IsStuck, Takes, TakesAny, TakesAll, Gives, GivesAll, below_top, IsTop};
ghost use Rattle.wasm_form.specs.Typing.{arrow, Applies};
ghost use Rattle.wasm_form.specs.declared.value_type.ValType.{ValType};

use memory_refusal::NoMemory;
use std::alloc::Global;
use std::marker::Model;
use wasm_form::ValType;

/// What is known of the operands at a place of a body: of each its type, or nothing, where code
/// before it does not go on to there.
#[derive(Debug, Drop)]
pub struct OperandTypes {
    /// The top last.
    places: Vec<Option<ValType>>,
    /// Any operands may lie below the places.
    any: bool,
}

impl Model for OperandTypes {
    ghost use Rattle.std.specs.Prelude.{reverse};
    ghost use Rattle.body_validator.specs.Covering.{Known, known};

    ghost Value = { Known };

    ghost view = { λ s. known (reverse s.places.items) s.any };
}

impl OperandTypes {
    /// No operands.
    pub fn new(alloc: Global) -> OperandTypes
        ensures { result ≡ known [] false }
    {
        OperandTypes {
            places: Vec::new(alloc),
            any: false,
        }
    }

    /// Puts an operand of this type on top. For want of memory all stays as it was.
    pub fn push(&mut self, given: ValType) -> Result<(), NoMemory>
        ensures ok { OnOk result (IsImage (Gives given) self.old self.new) }
        ensures err { OnErr result (self.new ≡ self.old) }
    {
        self.push_place(Some(given))
    }

    /// Takes an operand of this type from the top; false where none can be there. The topmost
    /// place is gone then, too.
    pub fn pop_expect(&mut self, taken: ValType) -> bool
        ensures yes { result ≡ true → IsImage (Takes taken) self.old self.new }
        ensures no { result ≡ false → IsStuck (Takes taken) self.old }
        ensures rest { self.new ≡ below_top self.old }
    {
        match self.places.pop() {
            None => self.any,
            Some(None) => true,
            Some(Some(found)) => found == taken,
        }
    }

    /// Takes an operand of any type from the top; false where none can be there, and all stays as
    /// it was then.
    pub fn pop(&mut self) -> bool
        ensures yes { result ≡ true → IsImage TakesAny self.old self.new }
        ensures no { result ≡ false → IsStuck TakesAny self.old }
        ensures rest { self.new ≡ below_top self.old }
    {
        match self.places.pop() {
            None => self.any,
            Some(_) => true,
        }
    }

    /// Takes operands of these types, the last of them from the top; false where they can't be
    /// there. Some of the places above the one that can't be are gone then, too.
    pub fn pops(&mut self, taken: &[ValType]) -> bool
        ensures yes { result ≡ true → IsImage (TakesAll taken.now) self.old self.new }
        ensures no { result ≡ false → IsStuck (TakesAll taken.now) self.old }
    {
        let mut left = taken;
        while let Some((top, rest)) = left.split_last() {
            if !self.pop_expect(*top) {
                return false;
            }
            left = rest;
        }
        true
    }

    /// Puts operands of these types on top, the last of them topmost. For want of memory only some
    /// of them may be there, the first ones.
    pub fn pushes(&mut self, given: &[ValType]) -> Result<(), NoMemory>
        ensures ok { OnOk result (IsImage (GivesAll given.now) self.old self.new) }
        ensures err { OnErr result ((some : List ValType) × (others : List ValType)
            × (given.now ≡ some ++ others) × IsImage (GivesAll some) self.old self.new) }
    {
        let mut left = given;
        while let Some((first, rest)) = left.split_first() {
            self.push(*first)?;
            left = rest;
        }
        Ok(())
    }

    /// What an instruction that takes and gives these makes of the operands; false where those
    /// that it takes can't be there. After false, and for want of memory, what is known is of no
    /// further use.
    #[tactic(auto, using(crate::proofs::Covering::applied, crate::proofs::Covering::not_applied))]
    pub fn apply(&mut self, taken: &[ValType], given: &[ValType]) -> Result<bool, NoMemory>
        ensures yes { result ≡ Ok true → IsImage (Applies (arrow taken.now given.now)) self.old self.new }
        ensures no { result ≡ Ok false → IsStuck (Applies (arrow taken.now given.now)) self.old }
    {
        if !self.pops(taken) {
            return Ok(false);
        }
        self.pushes(given)?;
        Ok(true)
    }

    /// Code that is not gone on to comes next: it may find any operands.
    pub fn leave(&mut self)
        ensures { IsImage (λ before after. ⊤) self.old self.new }
    {
        self.places.clear();
        self.any = true;
    }

    /// Whether these may be all the operands. What is known is of no further use then.
    pub fn may_be(&mut self, operands: &[ValType]) -> bool
        ensures { result ≡ true ↔ Covers self.old (reverse operands.now) }
    {
        if !self.pops(operands) {
            return false;
        }
        self.may_be_empty()
    }

    /// Whether no operand may be left.
    #[tactic(auto, using(crate::proofs::Covering::empty_covered))]
    pub fn may_be_empty(&self) -> bool
        ensures { result ≡ true ↔ Covers self.now [] }
    {
        self.places.is_empty()
    }

    /// What an instruction that takes the first operands, and the second ones above them, and gives
    /// these makes of the operands; false where those that it takes can't be there.
    pub fn apply_two(
        &mut self,
        first: &[ValType],
        second: &[ValType],
        given: &[ValType],
    ) -> Result<bool, NoMemory>
        ensures yes { result ≡ Ok true
            → IsImage (Applies (arrow (first.now ++ second.now) given.now)) self.old self.new }
        ensures no { result ≡ Ok false → IsStuck (Applies (arrow (first.now ++ second.now) given.now)) self.old }
    {
        let above = self.pops(second);
        if !above {
            return Ok(false);
        }
        let below = self.pops(first);
        if !below {
            return Ok(false);
        }
        self.pushes(given)?;
        Ok(true)
    }

    /// Takes the topmost operand, and tells what is known of it; none where none can be there.
    pub(crate) fn pop_place(&mut self) -> Option<Option<ValType>>
        ensures some { IfSome result (λ place. IsTop place self.old self.new) }
        ensures none { result ≡ None → IsStuck TakesAny self.old }
    {
        match self.places.pop() {
            Some(place) => Some(place),
            None if self.any => Some(None),
            None => None,
        }
    }

    /// Puts an operand on top of which this is known.
    pub(crate) fn push_place(&mut self, place: Option<ValType>) -> Result<(), NoMemory>
        ensures ok { OnOk result (self.new ≡ known (place ∷ self.old.places) self.old.any) }
        ensures err { OnErr result (self.new ≡ self.old) }
    {
        self.places.push(place)?;
        Ok(())
    }
}
