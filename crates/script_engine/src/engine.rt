use crate::Script;
use host_port::{Engine, Reply, Spent, Start, StartRefusal, Stop};
use std::alloc::Global;
use std::sync::Arc;

/// An engine that follows a script. It has no memory.
#[derive(Drop)]
pub struct ScriptEngine {
    program: Arc<Script>,
    /// How many asks were answered.
    answered: usize,
    /// The instruction after the last answered ask was executed.
    executed: bool,
    /// A step has answered the end of the life.
    over: bool,
    /// How much fuel is left.
    fuel_left: u64,
}

impl Engine for ScriptEngine {
    type Program = Script;

    ghost use Rattle.std.specs.Prelude.{◌≡◌, ℕ, None, Option, List, [], Any, slice_get};
    ghost use Rattle.std.specs.Arc.{arc_value};
    ghost use Rattle.std.proofs.Common.{subst};
    ghost use Rattle.host_port.specs.Standing.{Running, Owing};
    ghost use Rattle.script_engine.specs.Runs.{script_at, Follows, phase_at};
    ghost use Rattle.script_engine.specs.RunLaws as run_laws;
    ghost use Rattle.script_engine.specs.declared.script.Script.{Script};

    ghost begin = { λ _ _. None };

    ghost at = { λ script start calls fuel.
        script_at script.asks.items script.end start.limits.fuel calls fuel };

    ghost may_ask = { λ script call. Any (λ ask. ask.call ≡ call) script.asks.items };

    ghost stands = { λ engine script start calls fuel.
        (arc_value engine.program ≡ script)
        × Follows script.asks.items script.end start.limits.fuel calls fuel
        engine.answered engine.executed engine.fuel_left };

    ghost phase = { λ engine. phase_at engine.executed engine.over
        (slice_get (arc_value engine.program).asks.items engine.answered) };

    ghost memory = { λ _. [] };

    fn start(_alloc: Global, program: &Arc<Script>, start: &Start) -> Result<Self, StartRefusal> {
        match Arc::try_clone(program) {
            Ok(program) => Ok(ScriptEngine {
                program,
                answered: 0,
                executed: false,
                over: false,
                fuel_left: start.limits.fuel(),
            }),
            Err(_) => Err(StartRefusal::NoMemory),
        }
    }

    fn step(&mut self, _budget: u64) -> (Stop, u64) {
        let script: &Script = &self.program;
        let next = match (script.asks.get(self.answered), script.end) {
            (Some(ask), _) => Stop::Asks(*ask),
            (None, Some(trap)) => Stop::Trap(trap),
            (None, None) => {
                self.over = true;
                return (Stop::Done, 0);
            }
        };
        if self.fuel_left == 0 {
            self.over = true;
            return (Stop::Spent(Spent::Fuel), 0);
        }
        self.fuel_left -= 1;
        self.executed = true;
        self.over = matches!(next, Stop::Trap(_));
        (next, 1)
    }

    fn answer(&mut self, _reply: &Reply) {
        self.executed = false;
        self.answered += 1;
    }

    fn read(&self, addr: u32, len: u32) -> Option<&[u8]> {
        if addr == 0 && len == 0 {
            Some(&[])
        } else {
            None
        }
    }

    fn pages(&self) -> u32 {
        0
    }

    fn mark(&self) -> u64 {
        0
    }

    fn done(&self) -> bool {
        let script: &Script = &self.program;
        if self.executed || script.end.is_some() {
            return false;
        }
        self.answered >= script.asks.as_slice().len()
    }

    ghost begin_wants_no_memory = { λ _ _ refused. absurd (Prim.cc) };

    ghost begun_has_a_run = { λ script start begun.
        run_laws.begun_has_a_run script.asks.items script.end start.limits.fuel };

    ghost refused_has_no_run = { λ _ _ _ _ _ refused. absurd (Prim.cc) };

    ghost keeps_to_fuel = { λ script start calls fuel.
        run_laws.keeps_to_fuel script.asks.items script.end start.limits.fuel calls fuel };

    ghost asks_what_it_may = { λ script start calls fuel ask.
        run_laws.asks_what_it_may script.asks.items script.end start.limits.fuel calls fuel ask };

    ghost shows_memory = { λ engine script start calls fuel stands.
        run_laws.shows_memory script.asks.items script.end start.limits.fuel calls fuel
        engine.answered engine.executed engine.fuel_left stands.1 };

    ghost owes_its_ask = { λ engine script start calls fuel ask stands phase.
        run_laws.owes_its_ask script.asks.items script.end start.limits.fuel calls fuel
        engine.answered engine.executed engine.fuel_left stands.1 engine.over ask
        (subst (λ (s : Script).
        phase_at engine.executed engine.over (slice_get s.asks.items engine.answered) ≡ Owing ask)
        stands.0 phase) };

    ghost running_may_step = { λ engine script start calls fuel stands phase.
        run_laws.running_may_step script.asks.items script.end start.limits.fuel calls fuel
        engine.answered engine.executed engine.fuel_left stands.1 engine.over
        (subst (λ (s : Script).
        phase_at engine.executed engine.over (slice_get s.asks.items engine.answered) ≡ Running)
        stands.0 phase) };
}
