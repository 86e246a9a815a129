ghost use Rattle.std.specs.Prelude.{◌≡◌, ◌≤◌, ◌<◌, ◌-◌, ◌^◌, ◌++◌, length, slice_get, slice_index, IfOk};
ghost use Rattle.body_validator.specs.Locals.{spread, count_of};

use memory_refusal::NoMemory;
use std::alloc::Global;
use std::marker::Model;
use wasm_form::{LocalRun, ValType};

/// The types of a function's parameters and locals, by place. It takes as much memory as there are
/// runs.
#[derive(Debug, Drop)]
pub struct Locals<'a> {
    params: &'a [ValType],
    runs: &'a [LocalRun],
    /// How many locals the runs up to each have.
    ends: Vec<u64>,
}

impl<'a> Model for Locals<'a> {
    ghost use Rattle.std.specs.Prelude.{◌++◌, List};
    ghost use Rattle.wasm_form.specs.declared.value_type.ValType.{ValType};
    ghost use Rattle.body_validator.specs.Locals.{spread, IsEnds};

    ghost Value = { List ValType };

    ghost view = { λ l. l.params.now ++ spread l.runs.now };

    ghost invariant = { λ l. IsEnds l.runs.now l.ends.items };
}

impl<'a> Locals<'a> {
    /// These parameters, and then these runs of locals.
    pub fn new(
        alloc: Global,
        params: &'a [ValType],
        runs: &'a [LocalRun],
    ) -> Result<Locals<'a>, NoMemory>
        requires { count_of runs.now < 2 ^ 32 }
        ensures { IfOk result (λ locals. locals ≡ params.now ++ spread runs.now) }
    {
        let mut ends = Vec::new(alloc);
        let mut end = 0;
        for run in runs {
            end += run.count as u64;
            ends.push(end)?;
        }
        Ok(Locals { params, runs, ends })
    }

    /// The type of the parameter or local at this place; none past the last.
    pub fn get(&self, place: u32) -> Option<ValType>
        ensures { result ≡ slice_get self.now place }
    {
        let place = place as usize;
        if place < self.params.len() {
            return Some(self.params[place]);
        }
        let local = (place - self.params.len()) as u64;
        let run = run_of(self.ends.as_slice(), local);
        if run >= self.runs.len() {
            return None;
        }
        Some(self.runs[run].ty)
    }
}

/// The place of the first of these numbers that is above this one; their length where none is.
/// They rise.
fn run_of(ends: &[u64], local: u64) -> usize
    ensures bound { result ≤ length ends.now }
    ensures below { 0 < result → slice_index ends.now (result - 1) ≤ local }
    ensures above { result < length ends.now → local < slice_index ends.now result }
{
    let mut low = 0;
    let mut high = ends.len();
    while low < high {
        let middle = low + (high - low) / 2;
        if ends[middle] <= local {
            low = middle + 1;
        } else {
            high = middle;
        }
    }
    low
}
