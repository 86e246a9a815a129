use crate::Stage;
use flat_stepper::Machine;
use module_validator::Valid;
use std::marker::Model;
use std::sync::Arc;

/// A module that is being executed.
///
/// Contracts see the module, its machine, the fuel that is left and the stage of its life. There is always a run in
/// which it stands so.
#[derive(Drop)]
pub struct Instance {
    pub(crate) program: Arc<Valid>,
    pub(crate) machine: Machine,
    pub(crate) fuel_left: u64,
    pub(crate) stage: Stage,
}

impl Model for Instance {
    ghost use Rattle.std.specs.Arc.{arc_value};
    ghost use Rattle.fuel_stepper.specs.Life.{Life, HasRun};

    ghost Value = { Life };

    ghost view = { λ s. record {
      program = arc_value s.program;
      machine = s.machine;
      fuel_left = s.fuel_left;
      stage = s.stage;
    } };

    ghost invariant = { λ s. HasRun (record {
      program = arc_value s.program;
      machine = s.machine;
      fuel_left = s.fuel_left;
      stage = s.stage;
    }) };
}
