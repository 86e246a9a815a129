ghost use Rattle.std.specs.Prelude.{◌≡◌, ◌<◌, ◌^◌, ◌+◌, ℕ, length, slice_get, sum_by, Some, IfOk};
ghost use Rattle.wasm_form.specs.declared.body.LocalRun.{LocalRun};
ghost use Rattle.code_map.specs.Callees.{IsCalleeOf, AreCallees};
ghost use Rattle.code_map.specs.Ready.{IsCalling};

use crate::Callee;
use crate::callee::Callees;
use memory_refusal::NoMemory;
use std::alloc::Global;
use wasm_form::{LocalRun, Parts};

/// What the callees of a module are made of.
#[derive(Debug, Drop)]
pub struct Calling<'m> {
    pub parts: &'m Parts,
    /// The host calls that the imported functions are, in order.
    pub calls: &'m [u8],
    /// How many functions are imported.
    pub imported: usize,
    /// All functions by the indexes of their types, the imported ones first.
    pub functions: &'m [u32],
    /// The class of each type.
    pub classes: &'m [u32],
}

impl<'m> Calling<'m> {
    /// The callee of each function.
    ///
    /// `NoMemory` comes for want of memory alone.
    pub fn callees(&self, alloc: Global) -> Result<Callees, NoMemory>
        requires { IsCalling self.now }
        ensures { IfOk result (λ callees. AreCallees self.now.parts.now self.now.calls.now callees) }
    {
        let mut callees = Callees::new(alloc);
        for function in 0..self.functions.len() {
            callees.push(self.callee(function))?;
        }
        Ok(callees)
    }

    /// The callee of the function with this index.
    fn callee(&self, function: usize) -> Callee
        requires made { IsCalling self.now }
        requires there { function < length self.now.functions.now }
        ensures { (index : ℕ) → slice_get self.now.functions.now function ≡ Some index
            → IsCalleeOf self.now.parts.now self.now.calls.now function index result }
    {
        let index = self.functions[function];
        let ty = &self.parts.types.as_slice()[index as usize];
        let params = ty.params.len() as u32;
        let gives = !ty.results.is_empty();
        let class = self.classes[index as usize];
        if function < self.imported {
            return Callee::Host {
                call: self.calls[function],
                params,
                gives,
                class,
            };
        }
        let body = function - self.imported;
        Callee::Own {
            body: body as u32,
            params,
            locals: local_count(self.parts.bodies.as_slice()[body].locals.as_slice()),
            gives,
            class,
        }
    }
}

/// How many locals these runs are.
pub fn local_count(runs: &[LocalRun]) -> u32
    requires { sum_by (λ (run : LocalRun). run.count) runs.now < 2 ^ 32 }
    ensures { result ≡ sum_by (λ (run : LocalRun). run.count) runs.now }
{
    let mut count = 0;
    for run in runs {
        count += run.count;
    }
    count
}
