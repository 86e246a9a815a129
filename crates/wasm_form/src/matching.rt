ghost use Rattle.std.specs.Prelude.{◌≡◌, ◌<◌, ◌^◌, ◌++◌, ◌∷◌, [], length, reverse};
ghost use Rattle.std.specs.Prelude.{Option, Some, None, IfOk};
ghost use Rattle.wasm_form.specs.Trees.{Code, IsFlat, flat, labels_of, end_instr};
ghost use Rattle.wasm_form.specs.Matching.{HasPlain, Goes, walked_of, sort_of, is_whole};
ghost use Rattle.wasm_form.specs.Matching.{put, put_sort, put_plain, put_table, put_block};
ghost use Rattle.wasm_form.specs.Matching.{put_if, put_open, put_else};

use crate::{Instr, Match, Matches, PartsFault, Sort};
use std::alloc::Global;

/// Where a list of instructions ends that has begun earlier; for the first part of an if with an
/// else, the place of the else, and where the second part ends.
#[derive(Clone, Copy, Debug, PartialEq, Eq)]
pub struct Open {
    pub end: u32,
    pub other: Option<u32>,
}

/// A walk over a flat list from its last instruction to its first: how many labels stand before
/// those of the instructions seen, the lists that have begun earlier, the innermost last, and the
/// matching places, the first last.
#[derive(Debug, Drop)]
pub struct Walk {
    pub before: usize,
    pub opens: Vec<Open>,
    pub found: Vec<Match>,
}

impl Walk {
    /// Goes on to the instruction at the place `at`. `Unmatched` where it is none, or where no
    /// list has it there.
    fn step(&mut self, at: u32, instr: Instr) -> Result<(), PartsFault>
        ensures { Goes (put_sort at (sort_of instr) (walked_of self.old))
            (walked_of self.new) result }
    {
        match Sort::of(instr) {
            Some(Sort::Plain) => self.plain(),
            Some(Sort::Table { first, count }) => self.table(first, count),
            Some(Sort::Block) => self.block(at),
            Some(Sort::If) => self.condition(at),
            Some(Sort::Else) => self.otherwise(at),
            Some(Sort::End) => self.end(at),
            None => Err(PartsFault::Unmatched),
        }
    }

    fn plain(&self) -> Result<(), PartsFault>
        ensures { Goes (put_plain self.now.before
            (reverse self.now.opens.items) (reverse self.now.found.items)) (walked_of self.now) result }
    {
        if self.opens.is_empty() {
            return Err(PartsFault::Unmatched);
        }
        Ok(())
    }

    fn table(&mut self, first: u32, count: u32) -> Result<(), PartsFault>
        ensures { Goes (put_table first count self.old.before
            (reverse self.old.opens.items) (reverse self.old.found.items)) (walked_of self.new) result }
    {
        if self.opens.is_empty() || first as usize + count as usize != self.before {
            return Err(PartsFault::Unmatched);
        }
        self.before = first as usize;
        Ok(())
    }

    fn block(&mut self, at: u32) -> Result<(), PartsFault>
        ensures { Goes (put_block at self.old.before
            (reverse self.old.opens.items) (reverse self.old.found.items)) (walked_of self.new) result }
    {
        let Some(inside) = self.opens.pop() else {
            return Err(PartsFault::Unmatched);
        };
        if inside.other.is_some() {
            return Err(PartsFault::Unmatched);
        }
        self.open(at, inside)
    }

    fn condition(&mut self, at: u32) -> Result<(), PartsFault>
        ensures { Goes (put_if at self.old.before
            (reverse self.old.opens.items) (reverse self.old.found.items)) (walked_of self.new) result }
    {
        let Some(inside) = self.opens.pop() else {
            return Err(PartsFault::Unmatched);
        };
        self.open(at, inside)
    }

    /// The block, loop or if at the place `at`, around a list that was open and is no longer.
    fn open(&mut self, at: u32, inside: Open) -> Result<(), PartsFault>
        ensures { Goes (put_open at self.old.before inside
            (reverse self.old.opens.items) (reverse self.old.found.items)) (walked_of self.new) result }
    {
        if self.opens.is_empty() {
            return Err(PartsFault::Unmatched);
        }
        self.found.push(Match {
            at,
            other: inside.other,
            end: inside.end,
        })?;
        Ok(())
    }

    fn otherwise(&mut self, at: u32) -> Result<(), PartsFault>
        ensures { Goes (put_else at self.old.before
            (reverse self.old.opens.items) (reverse self.old.found.items)) (walked_of self.new) result }
    {
        let Some(second) = self.opens.pop() else {
            return Err(PartsFault::Unmatched);
        };
        if second.other.is_some() {
            return Err(PartsFault::Unmatched);
        }
        self.opens.push(Open {
            end: second.end,
            other: Some(at),
        })?;
        Ok(())
    }

    fn end(&mut self, at: u32) -> Result<(), PartsFault>
        ensures { Goes (put at Sort.End (walked_of self.old)) (walked_of self.new) result }
    {
        self.opens.push(Open {
            end: at,
            other: None,
        })?;
        Ok(())
    }

    /// Whether the instructions seen are one list and its end, and have all the labels.
    fn is_whole(&self) -> bool
        ensures { result ≡ is_whole (walked_of self.now) }
    {
        match self.opens.as_slice() {
            [body] => self.before == 0 && body.other.is_none(),
            _ => false,
        }
    }
}

/// The matching places of the blocks, loops and ifs in a flat list of instructions with its end.
/// `Unmatched` where the instructions and the labels are no tree's, `NoMemory` where the machine
/// has no memory.
pub fn match_blocks(alloc: Global, code: &[Instr], labels: &[u32]) -> Result<Matches, PartsFault>
    requires { length code.now < 2 ^ 32 }
    ensures ok { IfOk result (λ matches. (tree : Code) × HasPlain tree
        × IsFlat (record { code = code.now; labels = labels.now; matches = matches }) tree) }
    ensures unmatched { result ≡ Err PartsFault.Unmatched → (tree : Code) → HasPlain tree
        → code.now ≡ flat 0 tree ++ end_instr ∷ [] → labels.now ≡ labels_of tree → ⊥ }
{
    let mut walk = Walk {
        before: labels.len(),
        opens: Vec::new(alloc),
        found: Vec::new(alloc),
    };
    let mut left = code;
    while let Some((instr, rest)) = left.split_last() {
        walk.step(rest.len() as u32, *instr)?;
        left = rest;
    }
    if !walk.is_whole() {
        return Err(PartsFault::Unmatched);
    }
    let mut found = walk.found;
    found.reverse();
    Ok(Matches::from_vec(found))
}
