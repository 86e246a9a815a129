ghost use Rattle.std.specs.Prelude.{◌≡◌, ◌↔◌, ◌∷◌, [], ◌<◌, ◌+◌, List, ℕ, length, take, drop};
ghost use Rattle.std.specs.Prelude.{true, false, Ok, Some, None, IfOk, OnOk, IsTrue, MatchOption};
ghost use Rattle.wasm_form.specs.Matching.{sort_of};
ghost use Rattle.wasm_form.specs.declared.instr.Instr.{Instr};
ghost use Rattle.body_validator.specs.declared.function.Function.{Function};
ghost use Rattle.body_validator.specs.Covering.{known};
ghost use Rattle.body_validator.specs.Levels.{Advances, Refuses, frame_of};

use crate::branches::listed;
use crate::{Closing, Frame, Frames, Function, OperandTypes};
use memory_refusal::NoMemory;
use std::alloc::Global;
use std::mem::replace;
use wasm_form::{Imm, Instr, Sort, ValType};

/// A checker at a place of a body.
#[derive(Debug, Drop)]
pub struct Checker {
    pub alloc: Global,
    /// What is known of the operands of the innermost list.
    pub operands: OperandTypes,
    /// The lists that have begun.
    pub frames: Frames,
}

impl Checker {
    /// Before the first instruction of a body that gives this.
    pub fn new(alloc: Global, gives: Option<ValType>) -> Result<Checker, NoMemory>
        ensures frames { IfOk result (λ checker. checker.frames
            ≡ frame_of Closing.End gives gives (known [] false) ∷ []) }
        ensures operands { IfOk result (λ checker. checker.operands ≡ known [] false) }
    {
        let mut checker = Checker {
            alloc,
            operands: OperandTypes::new(alloc),
            frames: Frames::new(alloc),
        };
        checker.enter(Closing::End, gives, gives)?;
        Ok(checker)
    }

    /// Goes on to the next instruction of a body; false where it isn't typed. After false, and for
    /// want of memory, the checker is of no further use.
    pub fn step(
        &mut self,
        function: &Function<'_>,
        pool: &[u32],
        instr: Instr,
    ) -> Result<bool, NoMemory>
        ensures yes { result ≡ Ok true → Advances function.now pool.now instr self.old self.new }
        ensures no { result ≡ Ok false → Refuses function.now pool.now instr self.old }
    {
        match Sort::of(instr) {
            Some(Sort::Plain) => self.operands.plain(function, &self.frames, instr),
            Some(Sort::Table { first, count }) => self.table(pool, first, count, instr),
            Some(Sort::Block) => self.block(instr),
            Some(Sort::If) => self.condition(instr),
            Some(Sort::Else) => self.otherwise(),
            Some(Sort::End) => self.end(),
            None => Ok(false),
        }
    }

    /// br_table with so many labels of the pool, from the place `first` on.
    fn table(
        &mut self,
        pool: &[u32],
        first: u32,
        count: u32,
        instr: Instr,
    ) -> Result<bool, NoMemory>
        requires { sort_of instr ≡ Some (Sort.Table first count) }
        ensures yes { result ≡ Ok true → (function : Function) → Advances function pool.now instr self.old self.new }
        ensures no { result ≡ Ok false → (function : Function) → Refuses function pool.now instr self.old }
    {
        let Imm::Table { last, .. } = instr.imm else {
            return Ok(false);
        };
        let Some(labels) = part_of(pool, first, count) else {
            return Ok(false);
        };
        Ok(self.operands.table(&self.frames, labels, last))
    }

    /// block, loop.
    fn block(&mut self, instr: Instr) -> Result<bool, NoMemory>
        requires { sort_of instr ≡ Some Sort.Block }
        ensures yes { result ≡ Ok true → (function : Function) (pool : List ℕ)
            → Advances function pool instr self.old self.new }
        ensures no { result ≡ Ok false → (function : Function) (pool : List ℕ)
            → Refuses function pool instr self.old }
    {
        let Imm::Block(gives) = instr.imm else {
            return Ok(false);
        };
        let carries = if instr.code == 0x03 { None } else { gives };
        self.enter(Closing::End, carries, gives)?;
        Ok(true)
    }

    /// if.
    fn condition(&mut self, instr: Instr) -> Result<bool, NoMemory>
        requires { sort_of instr ≡ Some Sort.If }
        ensures yes { result ≡ Ok true → (function : Function) (pool : List ℕ)
            → Advances function pool instr self.old self.new }
        ensures no { result ≡ Ok false → (function : Function) (pool : List ℕ)
            → Refuses function pool instr self.old }
    {
        let Imm::Block(gives) = instr.imm else {
            return Ok(false);
        };
        if !self.operands.pop_expect(ValType::I32) {
            return Ok(false);
        }
        self.enter(Closing::ElseOrEnd, gives, gives)?;
        Ok(true)
    }

    /// else.
    fn otherwise(&mut self) -> Result<bool, NoMemory>
        ensures yes { result ≡ Ok true → (function : Function) (pool : List ℕ) (i : Instr)
            → sort_of i ≡ Some Sort.Else → Advances function pool i self.old self.new }
        ensures no { result ≡ Ok false → (function : Function) (pool : List ℕ) (i : Instr)
            → sort_of i ≡ Some Sort.Else → Refuses function pool i self.old }
    {
        let Some(first) = self.frames.pop() else {
            return Ok(false);
        };
        if !self.operands.may_be(listed(first.gives)) {
            return Ok(false);
        }
        self.operands = OperandTypes::new(self.alloc);
        self.frames.push(Frame {
            closing: Closing::End,
            ..first
        })?;
        Ok(true)
    }

    /// end.
    fn end(&mut self) -> Result<bool, NoMemory>
        ensures yes { result ≡ Ok true → (function : Function) (pool : List ℕ) (i : Instr)
            → sort_of i ≡ Some Sort.End → Advances function pool i self.old self.new }
        ensures no { result ≡ Ok false → (function : Function) (pool : List ℕ) (i : Instr)
            → sort_of i ≡ Some Sort.End → Refuses function pool i self.old }
    {
        let Some(inside) = self.frames.pop() else {
            return Ok(false);
        };
        if !self.operands.may_be(listed(inside.gives)) {
            return Ok(false);
        }
        if !may_end(inside.closing, inside.gives) {
            return Ok(false);
        }
        let gives = inside.gives;
        self.operands = inside.below;
        self.operands.pushes(listed(gives))?;
        Ok(true)
    }

    /// A list begins, without operands; those at hand lie below it.
    fn enter(
        &mut self,
        closing: Closing,
        carries: Option<ValType>,
        gives: Option<ValType>,
    ) -> Result<(), NoMemory>
        ensures frames { OnOk result (self.new.frames
            ≡ frame_of closing carries gives self.old.operands ∷ self.old.frames) }
        ensures operands { OnOk result (self.new.operands ≡ known [] false) }
    {
        let below = replace(&mut self.operands, OperandTypes::new(self.alloc));
        self.frames.push(Frame {
            closing,
            carries,
            gives,
            below,
        })?;
        Ok(())
    }
}

/// Whether a list may be closed by its end: a first list of an if only where it gives nothing.
fn may_end(closing: Closing, gives: Option<ValType>) -> bool
    ensures { IsTrue result ↔ (closing ≡ Closing.ElseOrEnd → gives ≡ None) }
{
    match (closing, gives) {
        (Closing::ElseOrEnd, Some(_)) => false,
        _ => true,
    }
}

/// So many labels, from this place on; none where there are not so many.
fn part_of(pool: &[u32], first: u32, count: u32) -> Option<&[u32]>
    ensures { MatchOption result (length pool.now < first + count)
        (λ labels. labels.now ≡ take count (drop first pool.now)) }
{
    let first = first as usize;
    let end = first + count as usize;
    if end > pool.len() {
        return None;
    }
    Some(&pool[first..end])
}
