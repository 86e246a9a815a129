ghost use Rattle.std.specs.Prelude.{◌*◌, ◌≡◌, ◌≢◌, ◌↔◌, ℕ, ◌+◌, ◌<◌, ◌≤◌, List, length, [], ◌∷◌, ◌++◌, Option, Some, None, IfOk, IfErr, IsSome, IsTrue, option_copied};
ghost use Rattle.host_port.specs.Allowance.{Allowance};
ghost use Rattle.host_port.specs.Areas.{request_of, IsRead};
ghost use Rattle.host_port.specs.Memory.{pages_of, mark_of};
ghost use Rattle.host_port.specs.Standing.{State, Standing, Asking, Phase, Running, Owing, phase_after, state_of, IsAtEnd, MayStep};
ghost use Rattle.host_port.specs.Steps.{IsStep, IsAnswerable};
ghost use Rattle.host_port.specs.declared.ask.Ask.{Ask};
ghost use Rattle.host_port.specs.declared.call.Call.{Call};
ghost use Rattle.host_port.specs.declared.start.Start.{Start};
ghost use Rattle.host_port.specs.declared.start.StartRefusal.{StartRefusal};
ghost use Rattle.host_port.specs.declared.start.StartRefusal.TheVariants.{NoMemory};

use crate::{Reply, Start, StartRefusal, Stop};
use std::alloc::Global;
use std::sync::Arc;

/// What executes one process.
///
/// An engine has one program and one start, which no call changes. What it does is said by where
/// its run stands: `at` of the program, the start, the calls that were answered and the fuel that
/// was burnt. `stands` ties the engine to such a run. The clauses hold for each run that the engine
/// stands for, and its user keeps one in mind.
pub trait Engine: Sized + Send + Drop {
    /// What is executed; one program serves many engines.
    type Program: Send + Sync + Drop;

    /// Why the program does not start so, or nothing.
    ghost begin: { Self.Program → Start → Option StartRefusal };

    /// Where the run stands, started so, after these calls and with this much fuel burnt, or nothing
    /// where there is no such run, as within the cost of an instruction. Each engine says of its
    /// own run that all the calls are used: the asks of the run so far are theirs, in this order and
    /// with the bytes that the memory had then, but for one ask at the end that is still to be
    /// answered.
    ghost at: { Self.Program → Start → List Call → ℕ → Option Standing };

    /// The program may ask the call of this number.
    ghost may_ask: { Self.Program → ℕ → Type 0 };

    /// The engine stands where the program does, started so, after these calls and with this much
    /// fuel burnt.
    ghost stands: { Self → Self.Program → Start → List Call → ℕ → Type 0 };

    /// What the engine may be told next.
    ghost phase: { Self → Phase };

    /// The bytes of its memory; none where it has no memory.
    ghost memory: { Self → List ℕ };

    /// An engine at the begin of the run. It is refused with what `begin` says, and for want of
    /// memory only where `begin` refuses nothing.
    fn start(
        alloc: Global,
        program: &Arc<Self::Program>,
        start: &Start,
    ) -> Result<Self, StartRefusal>
        ensures begins { IfOk result (λ engine. begin program.now.value start.now ≡ None) }
        ensures stands { IfOk result (λ engine. stands engine program.now.value start.now [] 0) }
        ensures running { IfOk result (λ engine. phase engine ≡ Running) }
        ensures refused { IfErr result (λ why.
            why ≢ NoMemory → begin program.now.value start.now ≡ Some why) }
        ensures wants { IfErr result (λ why.
            why ≡ NoMemory → begin program.now.value start.now ≡ None) };

    /// Burns at most `budget` of fuel, an instruction at a time, and tells why it stopped and how
    /// much was burnt. It may be called as long as it has answered no Done, Trap or Spent and no ask
    /// is owed, also where `done` is true: then it answers that end, with 0.
    fn step(&mut self, budget: u64) -> (Stop, u64)
        requires some { 1 ≤ budget }
        requires running { phase self.old ≡ Running }
        ensures within { result.1 ≤ budget }
        ensures phase { phase self.new ≡ phase_after result.0 }
        ensures stands { (program : Self.Program) (start : Start) (calls : List Call) (fuel : ℕ) →
            stands self.old program start calls fuel →
            stands self.new program start calls (fuel + result.1) }
        ensures stops { (program : Self.Program) (start : Start) (calls : List Call) (fuel : ℕ) →
            stands self.old program start calls fuel →
            IsStep (at program start calls) start.limits.fuel fuel budget result.0 result.1 };

    /// Gives the reply to the ask that is owed: its text and then its word are written, and the
    /// run goes on with its result.
    fn answer(&mut self, reply: &Reply)
        requires { IsAnswerable (phase self.old) (memory self.old) reply.now }
        ensures phase { phase self.new ≡ Running }
        ensures stands { (program : Self.Program) (start : Start) (calls : List Call) (fuel : ℕ) (ask : Ask) →
            phase self.old ≡ Owing ask →
            stands self.old program start calls fuel →
            let answered : Call = record { request = request_of (memory self.old) ask; reply = reply.now } in
            stands self.new program start (calls ++ answered ∷ []) fuel };

    /// The `len` bytes of the memory from `addr` on; nothing exactly where they pass its end.
    fn read(&self, addr: u32, len: u32) -> Option<&[u8]>
        ensures { IsRead (memory self.now) (record { addr = addr; len = len }) (option_copied result) };

    /// The number of pages of the memory, which has whole pages of 65,536 bytes, at most 1,024.
    fn pages(&self) -> u32
        ensures pages { result ≡ pages_of (memory self.now) }
        ensures whole { length (memory self.now) ≡ 65536 * result }
        ensures few { result ≤ 1024 };

    /// The mark of the memory: the sum of each byte times its place counted from 1, modulo 2^64.
    fn mark(&self) -> u64
        ensures { result ≡ mark_of (memory self.now) };

    /// The run is at its end with no ask owed and no trap: the entry function has returned, or
    /// more values would stand than may.
    fn done(&self) -> bool
        ensures { (program : Self.Program) (start : Start) (calls : List Call) (fuel : ℕ) →
            stands self.now program start calls fuel →
            IsTrue result ↔ IsAtEnd (state_of (at program start calls fuel)) };

    /// Want of memory is no refusal of the begin.
    ghost begin_wants_no_memory: { (program : Self.Program) (start : Start) →
        begin program start ≢ Some NoMemory };

    /// What is not refused has a run.
    ghost begun_has_a_run: { (program : Self.Program) (start : Start) →
        begin program start ≡ None → IsSome (at program start [] 0) };

    /// What is refused has no run.
    ghost refused_has_no_run: { (program : Self.Program) (start : Start) (why : StartRefusal) (calls : List Call) (fuel : ℕ) →
        begin program start ≡ Some why → at program start calls fuel ≡ None };

    /// A run has burnt no more fuel than it may.
    ghost keeps_to_fuel: { (program : Self.Program) (start : Start) (calls : List Call) (fuel : ℕ) →
        IsSome (at program start calls fuel) → fuel ≤ start.limits.fuel };

    /// A run asks only what the program may ask.
    ghost asks_what_it_may: { (program : Self.Program) (start : Start) (calls : List Call) (fuel : ℕ) (ask : Ask) →
        state_of (at program start calls fuel) ≡ Some (Asking ask) → may_ask program ask.call };

    /// Where an engine stands there is a run, and its memory is the engine's.
    ghost shows_memory: { (engine : Self) (program : Self.Program) (start : Start) (calls : List Call) (fuel : ℕ) →
        stands engine program start calls fuel →
        (state : State) × (at program start calls fuel ≡ Some (record {
          state = state;
          memory = memory engine;
        })) };

    /// An engine owes the reply to the ask at which its run stands.
    ghost owes_its_ask: { (engine : Self) (program : Self.Program) (start : Start) (calls : List Call) (fuel : ℕ)
        (ask : Ask) →
        stands engine program start calls fuel → phase engine ≡ Owing ask →
        state_of (at program start calls fuel) ≡ Some (Asking ask) };

    /// An engine that may be told to step stands where the run may be stepped.
    ghost running_may_step: { (engine : Self) (program : Self.Program) (start : Start) (calls : List Call) (fuel : ℕ) →
        stands engine program start calls fuel → phase engine ≡ Running →
        MayStep (state_of (at program start calls fuel)) };
}
