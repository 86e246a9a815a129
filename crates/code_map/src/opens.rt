ghost use Rattle.std.specs.Prelude.{◌≡◌, ℕ, ◌∷◌, [], ◌+◌, ◌<◌, ◌^◌, length, slice_get, OnOk, OnErr, MatchOption, Some};
ghost use Rattle.code_map.specs.Left.{labels_in, after_end};
ghost use Rattle.code_map.specs.Marks.{target_at};
ghost use Rattle.code_map.specs.Flows.{MayBranch};
ghost use Rattle.code_map.specs.declared.target.Target.{Target};

use crate::Target;
use memory_refusal::NoMemory;
use std::alloc::Global;
use std::marker::Model;
use wasm_form::{Imm, Instr};

/// A list of instructions that has begun: that of a block, a loop, an if, an else or the body.
#[derive(Clone, Copy, Debug, PartialEq, Eq)]
pub struct Open {
    /// Where a branch to its label leads; its height is that of the values below the list.
    pub label: Target,
    /// Whether it leaves a value at its end.
    pub gives: bool,
}

impl Open {
    /// How many values stand after its end.
    pub fn height_after(self) -> usize
        requires { self.label.height + 1 < 2 ^ 64 }
        ensures { result ≡ after_end self }
    {
        if self.gives {
            self.label.height + 1
        } else {
            self.label.height
        }
    }
}

/// The lists that have begun, seen with the innermost first.
#[derive(Debug, Drop)]
pub struct Opens {
    /// The innermost last.
    opens: Vec<Open>,
}

impl Model for Opens {
    ghost use Rattle.std.specs.Prelude.{List, reverse};
    ghost use Rattle.code_map.specs.declared.opens.Open.{Open};

    ghost Value = { List Open };

    ghost view = { λ o. reverse o.opens.items };
}

impl Opens {
    pub fn new(alloc: Global) -> Opens
        ensures { result ≡ [] }
    {
        Opens {
            opens: Vec::new(alloc),
        }
    }

    /// How many lists have begun.
    pub fn len(&self) -> usize
        ensures { result ≡ length self.now }
    {
        self.opens.len()
    }

    /// One more list begins. For want of memory the others stay.
    pub fn push(&mut self, begun: Open) -> Result<(), NoMemory>
        ensures ok { OnOk result (self.new ≡ begun ∷ self.old) }
        ensures err { OnErr result (self.new ≡ self.old) }
    {
        self.opens.push(begun)?;
        Ok(())
    }

    /// The innermost list is closed.
    pub fn pop(&mut self) -> Option<Open>
        ensures { MatchOption result ((self.old ≡ []) × (self.new ≡ [])) (λ inside. self.old ≡ inside ∷ self.new) }
    {
        self.opens.pop()
    }

    /// Where a branch to this label leads, the innermost being 0; none where there is no such label.
    pub fn label(&self, label: usize) -> Option<Target>
        ensures { result ≡ slice_get (labels_in self.now) label }
    {
        if label >= self.opens.len() {
            return None;
        }
        Some(self.opens[self.opens.len() - 1 - label].label)
    }

    /// Where a branch to the outermost label leads; none where no list has begun.
    pub fn outermost(&self) -> Option<Target>
        ensures { (label : ℕ) (t : Target) → length (labels_in self.now) ≡ label + 1
            → slice_get (labels_in self.now) label ≡ Some t → result ≡ Some t }
    {
        self.label(self.len().saturating_sub(1))
    }

    /// Where a branch to this label leads; nowhere where there is no such label.
    pub fn target(&self, label: u32) -> Target
        ensures { result ≡ target_at (labels_in self.now) label }
    {
        match self.label(label as usize) {
            Some(target) => target,
            None => Target {
                to: 0,
                height: 0,
                opens: 0,
                carries: false,
            },
        }
    }

    /// Where an instruction that opens and closes no block and is no br_table may branch to; none
    /// where it branches nowhere.
    pub fn branch(&self, instr: Instr) -> Option<Target>
        ensures { (label : ℕ) (t : Target) → MayBranch (length (labels_in self.now)) instr label
            → slice_get (labels_in self.now) label ≡ Some t → result ≡ Some t }
    {
        match (instr.code, instr.imm) {
            (0x0C, Imm::Index(label)) => self.label(label as usize),
            (0x0D, Imm::Index(label)) => self.label(label as usize),
            (0x0F, _) => self.outermost(),
            _ => None,
        }
    }
}
