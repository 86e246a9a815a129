//! The functions that are entered without a call.
ghost use Rattle.std.specs.Prelude.{◌≡◌, List, [], ◌∷◌, IfOk};
ghost use Rattle.wasm_form.specs.Profile.{ImportsFunctions};
ghost use Rattle.tree_machine.specs.Begin.{invocations_of};

use crate::entry::entry;
use crate::params::values;
use host_port::Start;
use memory_refusal::NoMemory;
use std::alloc::Global;
use std::marker::Model;
use wasm_form::Module;

/// A function that is to be entered, and its arguments (Core 1.0, 4.5.5).
#[derive(Debug, Drop)]
pub struct Invocation {
    function: u32,
    arguments: Vec<u64>,
}

impl Model for Invocation {
    ghost use Rattle.tree_machine.specs.Config as config;

    ghost Value = { config.Invocation };

    ghost view = { λ i. record { function = i.function; arguments = i.arguments.items } };
}

impl Invocation {
    /// The index of the function.
    pub fn function(&self) -> u32
        ensures { result ≡ self.now.function }
    {
        self.function
    }

    /// The numbers that the arguments' bits spell, in order.
    pub fn arguments(&self) -> &[u64]
        ensures { result.now ≡ self.now.arguments }
    {
        self.arguments.as_slice()
    }

    /// The arguments, taken out.
    pub fn into_arguments(self) -> Vec<u64>
        ensures { result.items ≡ self.arguments }
    {
        self.arguments
    }
}

/// The start function, where there is one, and then the entry function with the parameters.
pub(crate) fn invocations(
    alloc: Global,
    module: &Module,
    start: &Start,
) -> Result<Vec<Invocation>, NoMemory>
    requires { ImportsFunctions «module».now }
    ensures { IfOk result (λ all. all.items ≡ invocations_of «module».now start.now) }
{
    let mut all = Vec::new(alloc);
    if let Some(function) = module.start() {
        let arguments = Vec::new(alloc);
        all.push(Invocation {
            function,
            arguments,
        })?;
    }
    if let Some(function) = entry(module, start.entry.as_slice()) {
        let arguments = values(alloc, start.params.as_slice())?;
        all.push(Invocation {
            function,
            arguments,
        })?;
    }
    Ok(all)
}
