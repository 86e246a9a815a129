ghost use Rattle.std.specs.Prelude.{◌≡◌, ◌∷◌, [], length, map, slice_get, Option, Some, None, OnOk, OnErr, MatchOption};
ghost use Rattle.body_validator.specs.Frames.{carried_by};

use crate::OperandTypes;
use memory_refusal::NoMemory;
use std::alloc::Global;
use std::marker::Model;
use wasm_form::ValType;

/// How a list of instructions is closed.
#[derive(Clone, Copy, Debug, PartialEq, Eq)]
pub enum Closing {
    /// By its end.
    End,
    /// By an else or an end: it is the first list of an if.
    ElseOrEnd,
}

/// A list of instructions that has begun: that of a block, a loop, an if, an else or the body.
#[derive(Debug, Drop)]
pub struct Frame {
    pub closing: Closing,
    /// What a branch to its label carries.
    pub carries: Option<ValType>,
    /// What it leaves at its end.
    pub gives: Option<ValType>,
    /// The operands below the block that it stands in.
    pub below: OperandTypes,
}

/// The lists that have begun, seen with the innermost first.
#[derive(Debug, Drop)]
pub struct Frames {
    /// The innermost last.
    frames: Vec<Frame>,
}

impl Model for Frames {
    ghost use Rattle.std.specs.Prelude.{List, reverse};
    ghost use Rattle.body_validator.specs.declared.frame.Frame.{Frame};

    ghost Value = { List Frame };

    ghost view = { λ f. reverse f.frames.items };
}

impl Frames {
    pub fn new(alloc: Global) -> Frames
        ensures { result ≡ [] }
    {
        Frames {
            frames: Vec::new(alloc),
        }
    }

    /// One more list begins. For want of memory it is dropped, and the others stay.
    pub fn push(&mut self, frame: Frame) -> Result<(), NoMemory>
        ensures ok { OnOk result (self.new ≡ frame ∷ self.old) }
        ensures err { OnErr result (self.new ≡ self.old) }
    {
        self.frames.push(frame)?;
        Ok(())
    }

    /// The innermost list is closed.
    pub fn pop(&mut self) -> Option<Frame>
        ensures { MatchOption result ((self.old ≡ []) × (self.new ≡ [])) (λ frame. self.old ≡ frame ∷ self.new) }
    {
        self.frames.pop()
    }

    /// What a branch to this label carries, the innermost being 0; none where there is no such
    /// label.
    pub fn carried(&self, label: u32) -> Option<Option<ValType>>
        ensures { result ≡ slice_get (map carried_by self.now) label }
    {
        let label = label as usize;
        if label >= self.frames.len() {
            return None;
        }
        Some(self.frames[self.frames.len() - 1 - label].carries)
    }
}
