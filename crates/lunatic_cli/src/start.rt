ghost use Rattle.std.specs.Prelude.{◌≡◌, ◌≢◌, [], ◌∷◌, map, Some, IfOk, IfErr};
ghost use Rattle.std.specs.Arc.{arc_value};
ghost use Rattle.tree_machine.specs.Begin.{begin};
ghost use Rattle.lunatic_cli.specs.Options.{first_start as start_by};
ghost use Rattle.lunatic_cli.specs.Runs.{IsFirstNode};

use crate::Options;
use fuel_stepper::Instance;
use host_port::{Params, Start, StartRefusal};
use memory_refusal::NoMemory;
use module_validator::Valid;
use outside::Outside;
use process_table::Node;
use std::alloc::Global;
use std::sync::Arc;

/// The start of process 1.
fn first_start(alloc: Global, options: &Options) -> Result<Start, NoMemory>
    ensures { IfOk result (λ start. start ≡ start_by options.now) }
{
    Ok(Start {
        pid: 1,
        module: 0,
        entry: options.entry.try_clone()?,
        params: Params::new(alloc),
        limits: options.limits,
    })
}

/// The one program of a run.
fn one_program(alloc: Global, valid: Valid) -> Result<Vec<Arc<Valid>>, NoMemory>
    ensures { IfOk result (λ programs. map arc_value programs.items ≡ valid ∷ []) }
{
    let mut programs = Vec::new(alloc);
    programs.push(Arc::new(alloc, valid)?)?;
    Ok(programs)
}

/// A node in which process 1 is born on this module, and nothing has happened. It is refused with what the module's
/// begin says, or for want of memory.
pub fn first_node<O: Outside>(
    alloc: Global,
    valid: Valid,
    options: &Options,
) -> Result<Node<Instance, O>, StartRefusal>
    ensures made { IfOk result (λ node. IsFirstNode options.now valid node) }
    ensures refused { IfErr result (λ why. why ≢ StartRefusal.NoMemory
        → begin valid.parts (start_by options.now) ≡ Some why) }
{
    let Ok(start) = first_start(alloc, options) else {
        return Err(StartRefusal::NoMemory);
    };
    let Ok(programs) = one_program(alloc, valid) else {
        return Err(StartRefusal::NoMemory);
    };
    Node::new(alloc, programs, start, options.live, options.idle)
}
