ghost use Rattle.std.specs.Prelude.{◌≡◌, ◌<◌, ◌≤◌, ◌^◌, ◌+◌, ℕ, List, All, length, Option, Some, OnOk};
ghost use Rattle.std.specs.Prelude.{MatchOption, slice_get, take, drop};
ghost use Rattle.wasm_form.specs.declared.value_type.ValType.{ValType};
ghost use Rattle.wasm_form.specs.declared.instr.Instr.{Instr};
ghost use Rattle.wasm_form.specs.declared.expr.Match.{Match};
ghost use Rattle.wasm_form.specs.Matching.{sort_of};
ghost use Rattle.code_map.specs.declared.signatures.Signatures.{Signatures};
ghost use Rattle.code_map.specs.Targets.{gives_value, opens_of};
ghost use Rattle.code_map.specs.Mapped.{block_label, loop_label, skipped};
ghost use Rattle.code_map.specs.Counts.{IsNarrow};
ghost use Rattle.code_map.specs.Left.{labels_in};
ghost use Rattle.code_map.specs.Steps.{Steps, HasRoom, Begins, opening, skips_to};

use crate::{BodyMap, Open, Opens, Signatures, Target};
use memory_refusal::NoMemory;
use wasm_form::{Imm, Instr, Match, Sort};

/// A pass over a body at a place of its flat list, which is that of the next slot.
#[derive(Debug, Drop)]
pub struct Pass {
    /// The map so far.
    pub map: BodyMap,
    /// The lists that have begun.
    pub opens: Opens,
    /// How many values of the function stand, where the place is gone on to.
    pub height: usize,
    /// How many blocks, loops and ifs have begun.
    pub matched: usize,
}

impl Pass {
    /// Goes on to the next instruction of a body. For want of memory the pass is of no further use.
    pub fn step(
        &mut self,
        signatures: &Signatures<'_>,
        pool: &[u32],
        matches: &[Match],
        instr: Instr,
    ) -> Result<(), NoMemory>
        requires narrow { All IsNarrow signatures.now.types.now }
        requires room { HasRoom self.old }
        ensures { OnOk result (Steps signatures.now pool.now matches.now instr self.old self.new) }
    {
        match Sort::of(instr) {
            Some(Sort::Plain) => self.plain(signatures, instr),
            Some(Sort::Table { first, count }) => self.table(pool, first, count, instr),
            Some(Sort::Block) => self.block(matches, instr),
            Some(Sort::If) => self.condition(matches, instr),
            Some(Sort::Else) => self.otherwise(),
            Some(Sort::End) => self.end(),
            None => self.map.mark(None),
        }
    }

    fn plain(&mut self, signatures: &Signatures<'_>, instr: Instr) -> Result<(), NoMemory>
        requires narrow { All IsNarrow signatures.now.types.now }
        requires room { HasRoom self.old }
        requires sort { sort_of instr ≡ Some Sort.Plain }
        ensures { OnOk result ((pool : List ℕ) (matches : List Match)
            → Steps signatures.now pool matches instr self.old self.new) }
    {
        let target = self.opens.branch(instr);
        self.map.mark(target)?;
        self.height = signatures.height_after(instr, self.height);
        Ok(())
    }

    /// br_table with so many labels of the pool, from the place `first` on.
    fn table(&mut self, pool: &[u32], first: u32, count: u32, instr: Instr) -> Result<(), NoMemory>
        requires room { HasRoom self.old }
        requires sort { sort_of instr ≡ Some (Sort.Table first count) }
        ensures { OnOk result ((s : Signatures) (matches : List Match)
            → Steps s pool.now matches instr self.old self.new) }
    {
        let Imm::Table { last, .. } = instr.imm else {
            return self.map.mark(None);
        };
        let Some(labels) = part_of(pool, first, count) else {
            return self.map.mark(None);
        };
        self.map.mark_table(&self.opens, labels, last)
    }

    /// block, loop.
    fn block(&mut self, matches: &[Match], instr: Instr) -> Result<(), NoMemory>
        requires room { HasRoom self.old }
        requires sort { sort_of instr ≡ Some Sort.Block }
        ensures { OnOk result ((s : Signatures) (pool : List ℕ) → Steps s pool matches.now instr self.old self.new) }
    {
        let Some(found) = found_at(matches, self.matched) else {
            return self.map.mark(None);
        };
        let Imm::Block(gives) = instr.imm else {
            return self.map.mark(None);
        };
        let label = if instr.code == 0x03 {
            self.repeated()
        } else {
            self.left(found.end, self.height, gives.is_some())
        };
        self.begin(label, gives.is_some(), None)
    }

    /// if.
    fn condition(&mut self, matches: &[Match], instr: Instr) -> Result<(), NoMemory>
        requires room { HasRoom self.old }
        requires sort { sort_of instr ≡ Some Sort.If }
        ensures { OnOk result ((s : Signatures) (pool : List ℕ) → Steps s pool matches.now instr self.old self.new) }
    {
        let Some(found) = found_at(matches, self.matched) else {
            return self.map.mark(None);
        };
        let Imm::Block(gives) = instr.imm else {
            return self.map.mark(None);
        };
        let below = self.height.saturating_sub(1);
        let label = self.left(found.end, below, gives.is_some());
        let skipped = self.skipped(found, below);
        self.begin(label, gives.is_some(), Some(skipped))
    }

    /// else.
    fn otherwise(&mut self) -> Result<(), NoMemory>
        requires room { HasRoom self.old }
        ensures { OnOk result ((s : Signatures) (pool : List ℕ) (matches : List Match) (i : Instr)
            → sort_of i ≡ Some Sort.Else → Steps s pool matches i self.old self.new) }
    {
        let Some(label) = self.opens.label(0) else {
            return self.map.mark(None);
        };
        self.map.mark(Some(label))?;
        self.height = label.height;
        Ok(())
    }

    /// end.
    fn end(&mut self) -> Result<(), NoMemory>
        requires room { HasRoom self.old }
        ensures { OnOk result ((s : Signatures) (pool : List ℕ) (matches : List Match) (i : Instr)
            → sort_of i ≡ Some Sort.End → Steps s pool matches i self.old self.new) }
    {
        self.map.mark(None)?;
        let Some(inside) = self.opens.pop() else {
            return Ok(());
        };
        self.height = inside.height_after();
        Ok(())
    }

    /// A list begins, under this label; its instruction has this target or none.
    fn begin(&mut self, label: Target, gives: bool, skipped: Option<Target>) -> Result<(), NoMemory>
        requires { HasRoom self.old }
        ensures { OnOk result (Begins (opening label gives) skipped self.old self.new) }
    {
        self.map.mark(skipped)?;
        self.matched += 1;
        self.height = label.height;
        self.opens.push(Open { label, gives })
    }

    /// The label of a loop at this place.
    fn repeated(&self) -> Target
        requires { HasRoom self.now }
        ensures { result ≡ loop_label (labels_in self.now.opens) (length self.now.map.slots) self.now.height }
    {
        Target {
            to: self.map.slots.len() as u32,
            height: self.height,
            opens: self.around(),
            carries: false,
        }
    }

    /// The label of a block or an if that ends there, over so many values.
    fn left(&self, end: u32, height: usize, gives: bool) -> Target
        requires { HasRoom self.now }
        ensures label { end + 1 < 2 ^ 32 → (given : Option ValType) → gives ≡ gives_value given
            → result ≡ block_label (labels_in self.now.opens) end height given }
        ensures height { result.height ≡ height }
    {
        Target {
            to: end.saturating_add(1),
            height,
            opens: self.around(),
            carries: gives,
        }
    }

    /// Where the if with these places goes whose number is 0.
    fn skipped(&self, found: Match, height: usize) -> Target
        requires { HasRoom self.now }
        ensures { skips_to found < 2 ^ 32
            → result ≡ skipped (labels_in self.now.opens) (skips_to found) height }
    {
        Target {
            to: skips_to(found),
            height,
            opens: self.opens.len() as u32,
            carries: false,
        }
    }

    /// How many blocks, loops and ifs are open.
    fn around(&self) -> u32
        requires { HasRoom self.now }
        ensures { result ≡ opens_of (labels_in self.now.opens) }
    {
        self.opens.len().saturating_sub(1) as u32
    }
}

/// Where an if goes whose number is 0: to the start of its else part, or to its end.
fn skips_to(found: Match) -> u32
    ensures { skips_to found < 2 ^ 32 → result ≡ skips_to found }
{
    match found.other {
        Some(other) => other.saturating_add(1),
        None => found.end,
    }
}

/// The matching places with this number; none past the last.
fn found_at(matches: &[Match], number: usize) -> Option<Match>
    ensures { result ≡ slice_get matches.now number }
{
    matches.get(number).copied()
}

/// So many labels, from this place on; none where there are not so many.
fn part_of(pool: &[u32], first: u32, count: u32) -> Option<&[u32]>
    ensures { MatchOption result (length pool.now < first + count)
        (λ labels. labels.now ≡ take count (drop first pool.now)) }
{
    let first = first as usize;
    let end = first + count as usize;
    if end > pool.len() {
        return None;
    }
    Some(&pool[first..end])
}
