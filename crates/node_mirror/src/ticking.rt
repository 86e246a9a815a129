ghost use Rattle.std.specs.Prelude.{◌≡◌, ◌++◌, ◌∷◌, ◌<◌, ℕ, List, [], Some, None, length};
ghost use Rattle.world_rules.specs.declared.life.Ended.{Ended as EndMemory};
ghost use Rattle.world_rules.specs.Lives.{Setting};
ghost use Rattle.world_rules.specs.Time.{at_time, timed_out, all_timed_out, due_processes, ticked, timed_processes};
ghost use Rattle.world_rules.specs.World.{World};
ghost use Rattle.node_state.specs.Posts.{time_at};
ghost use Rattle.node_state.specs.Seats.{meaning};
ghost use Rattle.node_mirror.specs.Held.{Held, Mirrors};

use host_port::Engine;

/// The time is set to the clock's, where that is later.
pub fn a_time_mirrors<E: Engine>()
    ensures { (setting : Setting E.Program) (w : World) (held : Held E) (ends : List EndMemory) (now : ℕ) →
        Mirrors (meaning E.stands E.phase E.memory) setting w held ends →
        Mirrors (meaning E.stands E.phase E.memory) setting (at_time now w)
        (record held { time = time_at held.time now }) ends }
{}

/// A Tick sets the time; then the waits whose deadline has come are over one after another, by rising number: who is
/// due is read in the world before the first of them. It computes nothing.
pub fn latenesses_follow()
    ensures next { (w : World) (pids : List ℕ) (pid : ℕ) →
        all_timed_out w (pids ++ pid ∷ [])
        ≡ timed_out ((all_timed_out w pids).process pid).stage (all_timed_out w pids) pid }
    ensures all { (w : World) (now : ℕ) →
        ticked w now ≡ all_timed_out (at_time now w) (due_processes (at_time now w)) }
{}

/// Where no number has a deadline, nobody waits with one; where some number has one, somebody does.
pub fn deadlines_tell<E: Engine>()
    ensures none { (setting : Setting E.Program) (w : World) (held : Held E) (ends : List EndMemory) →
        Mirrors (meaning E.stands E.phase E.memory) setting w held ends →
        ((pid : ℕ) → held.deadlines pid ≡ None) → timed_processes w ≡ [] }
    ensures some { (setting : Setting E.Program) (w : World) (held : Held E) (ends : List EndMemory) (pid d : ℕ) →
        Mirrors (meaning E.stands E.phase E.memory) setting w held ends →
        held.deadlines pid ≡ Some d → 0 < length (timed_processes w) }
{}
