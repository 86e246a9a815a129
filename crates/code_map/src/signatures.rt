ghost use Rattle.std.specs.Prelude.{◌≡◌, ◌+◌, ◌<◌, ◌≤◌, ◌^◌, ℕ, All, length, slice_get, option_copied, Some};
ghost use Rattle.wasm_ops.specs.Table.{kind_of, IsRowOf};
ghost use Rattle.wasm_form.specs.declared.types.FuncType.{FuncType};
ghost use Rattle.wasm_form.specs.declared.parts.Parts.{Parts};
ghost use Rattle.code_map.specs.Counts.{IsNarrow, counts, control_counts, listed_counts, one_if, CountsOf, AreSignatures};
ghost use Rattle.code_map.specs.Flows.{GoesOn};

use crate::Counts;
use wasm_form::{FuncType, Imm, Instr};
use wasm_ops::table::row;
use wasm_ops::{Kind, Num, Row};

/// The types of a module, and its functions by the indexes of their types, the imported ones first.
#[derive(Debug, Drop)]
pub struct Signatures<'m> {
    pub types: &'m [FuncType],
    pub functions: &'m [u32],
}

impl<'m> Signatures<'m> {
    /// How many values stand after an instruction that opens and closes no block and is no br_table,
    /// where so many stood before it and it goes on.
    pub fn height_after(&self, instr: Instr, height: usize) -> usize
        requires narrow { All IsNarrow self.now.types.now }
        requires fits { height + 1 < 2 ^ 64 }
        ensures after { (m : Parts) (after : ℕ) → AreSignatures m self.now → GoesOn m instr height after
            → result ≡ after }
        ensures bound { result ≤ height + 1 }
    {
        let counts = self.counts(instr);
        height.saturating_sub(counts.takes) + counts.gives
    }

    /// How many operands it takes and gives.
    fn counts(&self, instr: Instr) -> Counts
        requires { All IsNarrow self.now.types.now }
        ensures counted { CountsOf self.now instr result }
        ensures few { result.gives ≤ 1 }
    {
        match row(instr.code) {
            Some(row) => match row.kind {
                Kind::Control => self.control(instr),
                _ => listed(row),
            },
            None => self.control(instr),
        }
    }

    /// One that is no integer operation, no load or store and no float instruction.
    fn control(&self, instr: Instr) -> Counts
        requires narrow { All IsNarrow self.now.types.now }
        requires kind { kind_of instr.code ≡ Kind.Control }
        ensures counted { CountsOf self.now instr result }
        ensures few { result.gives ≤ 1 }
    {
        if instr.code == 0x10 {
            return self.call(instr.imm);
        }
        if instr.code == 0x11 {
            return self.call_indirect(instr.imm);
        }
        by_code(instr.code)
    }

    /// A call of the function with this index.
    fn call(&self, imm: Imm) -> Counts
        ensures counted { (function index : ℕ) (ty : FuncType) → imm ≡ Imm.Index function
            → slice_get self.now.functions.now function ≡ Some index → slice_get self.now.types.now index ≡ Some ty
            → length ty.results ≤ 1 → result ≡ counts (length ty.params) (length ty.results) }
        ensures few { result.gives ≤ 1 }
    {
        let Imm::Index(function) = imm else {
            return Counts { takes: 0, gives: 0 };
        };
        let Some(index) = index_at(self.functions, function) else {
            return Counts { takes: 0, gives: 0 };
        };
        let Some(ty) = type_at(self.types, index) else {
            return Counts { takes: 0, gives: 0 };
        };
        Counts {
            takes: ty.params.len(),
            gives: if ty.results.is_empty() { 0 } else { 1 },
        }
    }

    /// A call through the table of a function whose type has this index.
    fn call_indirect(&self, imm: Imm) -> Counts
        requires { All IsNarrow self.now.types.now }
        ensures counted { (index : ℕ) (ty : FuncType) → imm ≡ Imm.Index index
            → slice_get self.now.types.now index ≡ Some ty → length ty.results ≤ 1
            → result ≡ counts (length ty.params + 1) (length ty.results) }
        ensures few { result.gives ≤ 1 }
    {
        let Imm::Index(index) = imm else {
            return Counts { takes: 0, gives: 0 };
        };
        let Some(ty) = type_at(self.types, index) else {
            return Counts { takes: 0, gives: 0 };
        };
        Counts {
            takes: ty.params.len() + 1,
            gives: if ty.results.is_empty() { 0 } else { 1 },
        }
    }
}

/// The counts of a control instruction, but for calls.
#[tactic(auto, unfolding(crate::specs::Counts::control_counts))]
fn by_code(code: u8) -> Counts
    ensures is { result ≡ control_counts code }
    ensures few { result.gives ≤ 1 }
{
    if code == 0x0D || code == 0x1A || code == 0x21 || code == 0x24 {
        Counts { takes: 1, gives: 0 }
    } else if code == 0x1B {
        Counts { takes: 2, gives: 0 }
    } else if code == 0x20 || code == 0x23 || code == 0x3F || code == 0x41 || code == 0x42 {
        Counts { takes: 0, gives: 1 }
    } else {
        Counts { takes: 0, gives: 0 }
    }
}

/// The counts of an integer operation, a load or a store, by its row of the table.
fn listed(row: &Row) -> Counts
    ensures is { result ≡ listed_counts row.now }
    ensures few { result.gives ≤ 1 }
{
    Counts {
        takes: one_if(row.first) + one_if(row.second),
        gives: one_if(row.result),
    }
}

/// One, if there is one.
fn one_if(num: Option<Num>) -> usize
    ensures is { result ≡ one_if num }
    ensures few { result ≤ 1 }
{
    match num {
        None => 0,
        Some(_) => 1,
    }
}

/// The index of the type of the function with this index; none past the last.
pub fn index_at(functions: &[u32], function: u32) -> Option<u32>
    ensures { result ≡ slice_get functions.now function }
{
    functions.get(function as usize).copied()
}

/// The type with this index; none past the last.
pub fn type_at(types: &[FuncType], index: u32) -> Option<&FuncType>
    ensures { option_copied result ≡ slice_get types.now index }
{
    types.get(index as usize)
}
