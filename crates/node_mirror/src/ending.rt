ghost use Rattle.std.specs.Prelude.{◌≡◌, ◌≢◌, ◌+◌, ◌∷◌, ◌++◌, ℕ, List, [], Option, None, true, false};
ghost use Rattle.world_rules.specs.declared.halt.End.{End};
ghost use Rattle.world_rules.specs.declared.entry.Side.TheVariants.{Nothing};
ghost use Rattle.world_rules.specs.declared.life.Ended.{Ended as EndMemory};
ghost use Rattle.world_rules.specs.Book.{Book};
ghost use Rattle.world_rules.specs.Ends.{struck, all_struck, ended, ended_from_outside, all_end};
ghost use Rattle.world_rules.specs.Lives.{Setting};
ghost use Rattle.world_rules.specs.Rules.{recorded, home, opening_shut};
ghost use Rattle.world_rules.specs.Told.{told};
ghost use Rattle.world_rules.specs.Views.{Ends, want_of};
ghost use Rattle.world_rules.specs.World.{World, up_to};
ghost use Rattle.node_state.specs.Seats.{meaning, part_handles};
ghost use Rattle.node_state.specs.Fits.{Brought, ShowMemory, IsLastOf, give_of};
ghost use Rattle.node_state.specs.Posts.{time_beside, drawn_beside, opened_number};
ghost use Rattle.node_mirror.specs.Slots.{Away, Fated, Gone, IsLastAt, is_live_slot};
ghost use Rattle.node_mirror.specs.Held.{Held, Mirrors, StandsFor};
ghost use Rattle.node_mirror.specs.Fits.{TurnFits};
ghost use Rattle.node_mirror.specs.Steps.{back, gone, struck as struck_held, over};

use host_port::Engine;

/// An end comes to a process from outside its turn: at home it ends, with the memory of its end; where a worker has it,
/// it is doomed; else nothing happens.
pub fn a_strike_mirrors<E: Engine>()
    ensures { (setting : Setting E.Program) (w : World) (held : Held E) (ends more : List EndMemory) (pid : ℕ)
        (end : End) → ShowMemory (meaning E.stands E.phase E.memory) setting →
        Mirrors (meaning E.stands E.phase E.memory) setting w held ends →
        IsLastAt (meaning E.stands E.phase E.memory) pid (held.slots pid) more →
        Mirrors (meaning E.stands E.phase E.memory) setting (struck (w.process pid).stage w pid end)
        (struck_held held pid end) (ends ++ more) }
{}

/// An end that comes to all comes to the processes one after another, by rising number; to those that aren't live
/// nothing happens. It computes nothing.
pub fn strikes_follow()
    ensures next { (w : World) (pids : List ℕ) (pid : ℕ) (end : End) →
        all_struck w (pids ++ pid ∷ []) end
        ≡ struck ((all_struck w pids end).process pid).stage (all_struck w pids end) pid end }
    ensures all { (w : World) (end : End) →
        all_end w end ≡ record (all_struck w (up_to w.numbers_drawn) end) { over = true } }
{}

/// The run is over where nobody is live.
pub fn an_over_mirrors<E: Engine>()
    ensures { (setting : Setting E.Program) (w : World) (held : Held E) (ends : List EndMemory) →
        Mirrors (meaning E.stands E.phase E.memory) setting w held ends →
        ((pid : ℕ) → is_live_slot (held.slots pid) ≡ false) →
        Mirrors (meaning E.stands E.phase E.memory) setting (record w { over = true }) (over held) ends }
{}

/// A process that comes back and ends by its own halt has ended, with the memory of its end. What its calls closed is
/// closed first, then its streams in hand, then those of its mailbox.
pub fn an_end_mirrors<E: Engine>()
    ensures { (setting : Setting E.Program) (old : Book) (was : Held E) (pid worker : ℕ) (brought : Brought E)
        (end : End) (memory : EndMemory) →
        ShowMemory (meaning E.stands E.phase E.memory) setting →
        StandsFor (meaning E.stands E.phase E.memory) setting old (told old) was →
        was.slots pid ≡ Away worker → want_of brought.halt ≡ Ends end → brought.side ≡ Nothing →
        TurnFits (meaning E.stands E.phase E.memory) setting old.births (told old) worker pid brought →
        IsLastOf (meaning E.stands E.phase E.memory) pid brought.seat.engine memory →
        Mirrors (meaning E.stands E.phase E.memory) setting
        (ended (home (recorded (told old) (give_of worker pid brought)) pid) pid end)
        (gone (back was pid Gone was.time brought.shed) pid (part_handles brought.seat.part))
        (old.ends ++ memory ∷ []) }
{}

/// A process that was doomed while it was out, and comes back, has ended, with the memory of its end; its halt isn't
/// performed. A stream that was opened for it is closed behind those that its calls closed, and before those in hand.
pub fn a_doomed_give_mirrors<E: Engine>()
    ensures { (setting : Setting E.Program) (old : Book) (was : Held E) (pid worker : ℕ) (brought : Brought E)
        (end : End) (memory : EndMemory) →
        ShowMemory (meaning E.stands E.phase E.memory) setting →
        StandsFor (meaning E.stands E.phase E.memory) setting old (told old) was →
        was.slots pid ≡ Fated worker end →
        TurnFits (meaning E.stands E.phase E.memory) setting old.births (told old) worker pid brought →
        IsLastOf (meaning E.stands E.phase E.memory) pid brought.seat.engine memory →
        Mirrors (meaning E.stands E.phase E.memory) setting
        (ended_from_outside (opening_shut (recorded (told old) (give_of worker pid brought))
        (give_of worker pid brought)) pid end)
        (record (gone (back was pid Gone (time_beside brought.side was.time)
        (brought.shed ++ opened_number brought.side was.streams)) pid (part_handles brought.seat.part)) {
          streams = drawn_beside brought.side was.streams;
        }) (old.ends ++ memory ∷ []) }
{}
