use crate::first::{first_results, first_size, is_typed};
use crate::telling::told;
use crate::{Instance, Stage, contents};
use flat_stepper::{Machine, Place};
use host_port::{Engine, Reply, Start, StartRefusal, Stop};
use instance_store::instantiate;
use module_validator::Valid;
use std::alloc::Global;
use std::sync::Arc;

impl Engine for Instance {
    type Program = Valid;

    ghost use Rattle.std.specs.Prelude.{ℕ, List};
    ghost use Rattle.tree_machine.specs.Config.{bytes_of};
    ghost use Rattle.tree_machine.specs.Begin as begins;
    ghost use Rattle.tree_machine.specs.Run as runs;
    ghost use Rattle.tree_machine.specs.RunLaws as run_laws;
    ghost use Rattle.tree_machine.specs.AskLaws as ask_laws;
    ghost use Rattle.fuel_stepper.specs.Stages.{phase_of};
    ghost use Rattle.fuel_stepper.specs.Life.{StandsIn};
    ghost use Rattle.fuel_stepper.specs.laws.StandingLaws as standing_laws;

    ghost begin = { λ valid start. begins.begin valid.parts start };

    ghost at = { λ valid start calls fuel. runs.at valid.parts start calls fuel };

    ghost may_ask = { λ valid call. runs.may_ask valid.parts call };

    ghost stands = { λ engine valid start calls fuel. StandsIn valid start calls fuel engine };

    ghost phase = { λ engine. phase_of engine.stage };

    ghost memory = { λ engine. bytes_of engine.machine.memory };

    fn start(alloc: Global, program: &Arc<Valid>, start: &Start) -> Result<Self, StartRefusal> {
        let store = instantiate(alloc, program, start)?;
        let Ok(program) = Arc::try_clone(program) else {
            return Err(StartRefusal::NoMemory);
        };
        is_typed(start);
        let valid: &Valid = &program;
        let parts = valid.parts();
        let map = valid.map();
        let first = Place {
            pc: first_size(parts),
            body: 0,
            base: 0,
            opens: 0,
        };
        let results = first_results(parts, map);
        let Ok(mut machine) = Machine::new(alloc, first, results, store) else {
            return Err(StartRefusal::NoMemory);
        };
        let (halt, _) = machine.run(parts, map, 0);
        Ok(Instance {
            program,
            machine,
            fuel_left: start.limits.fuel(),
            stage: Stage::behind(halt),
        })
    }

    fn step(&mut self, budget: u64) -> (Stop, u64) {
        if let Stage::Ended(end) = self.stage {
            let stop = end.stop();
            self.stage = Stage::Over(stop);
            return (stop, 0);
        }
        let valid: &Valid = &self.program;
        let most = budget.min(self.fuel_left);
        let parts = valid.parts();
        let map = valid.map();
        let (halt, executed) = self.machine.run(parts, map, most);
        self.fuel_left -= executed;
        let stop = told(halt, executed < budget);
        self.stage = Stage::after(stop);
        (stop, executed)
    }

    fn answer(&mut self, reply: &Reply) {
        let valid: &Valid = &self.program;
        let parts = valid.parts();
        let map = valid.map();
        self.machine.resume(reply);
        let (halt, _) = self.machine.run(parts, map, 0);
        self.stage = Stage::behind(halt);
    }

    fn read(&self, addr: u32, len: u32) -> Option<&[u8]> {
        contents::read(&self.machine, addr, len)
    }

    fn pages(&self) -> u32 {
        contents::pages(&self.machine)
    }

    fn mark(&self) -> u64 {
        contents::mark(&self.machine)
    }

    fn done(&self) -> bool {
        self.stage.is_at_end()
    }

    ghost begin_wants_no_memory = { λ valid start. run_laws.begin_wants_no_memory valid.parts start };

    ghost begun_has_a_run = { λ valid start begun. run_laws.begun_has_a_run valid.parts start begun };

    ghost refused_has_no_run = { λ valid start why calls fuel refused.
        run_laws.refused_has_no_run valid.parts start why calls fuel refused };

    ghost keeps_to_fuel = { λ valid start calls fuel. run_laws.keeps_to_fuel valid.parts start calls fuel };

    ghost asks_what_it_may = { λ valid start calls fuel ask.
        ask_laws.asks_what_it_may valid.parts start calls fuel ask };

    ghost shows_memory = { λ engine valid start calls fuel stands.
        standing_laws.shows_memory valid start calls fuel engine stands };

    ghost owes_its_ask = { λ engine valid start calls fuel ask stands phase.
        standing_laws.owes_its_ask valid start calls fuel engine stands ask phase };

    ghost running_may_step = { λ engine valid start calls fuel stands phase.
        standing_laws.may_step valid start calls fuel engine stands phase };
}
