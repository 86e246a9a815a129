ghost use Rattle.std.specs.Prelude.{◌≡◌, ℕ, ◌+◌, ◌<◌, ◌≤◌, List, [], ◌∷◌, Some, None, false, nat_le, slice_get, if◌then◌else◌};
ghost use Rattle.host_port.specs.declared.ask.Ask.{Ask};
ghost use Rattle.host_port.specs.declared.start.Start.{Start};
ghost use Rattle.host_port.specs.Standing.{Running};
ghost use Rattle.host_port.specs.Areas.{request_of};
ghost use Rattle.world_rules.specs.declared.entry.Entry.TheVariants as EntryIs;
ghost use Rattle.world_rules.specs.declared.halt.End.TheVariants as EndIs;
ghost use Rattle.world_rules.specs.declared.life.Birth.TheVariants.{Born};
ghost use Rattle.world_rules.specs.declared.life.Ended.{Ended as EndMemory};
ghost use Rattle.world_rules.specs.Book.{Book};
ghost use Rattle.world_rules.specs.Calls.{call_of};
ghost use Rattle.world_rules.specs.Lives.{Setting, Begins};
ghost use Rattle.world_rules.specs.Time.{late_reply, timed_processes, due_processes, at_time};
ghost use Rattle.world_rules.specs.Told.{told};
ghost use Rattle.node_state.specs.Seats.{Seat, meaning};
ghost use Rattle.node_state.specs.Slots.{Home, Asleep};
ghost use Rattle.node_state.specs.Held.{Held, StandsFor};
ghost use Rattle.node_state.specs.Fits.{ShowMemory, IsLastAt, IsAnswered};
ghost use Rattle.node_state.specs.Posts.{time_at};
ghost use Rattle.node_state.specs.Changes.{Records, Counts, TakesFront, WakesOne, WakesNone, EndsAll, HoldsFirst};

use host_port::Engine;
use world_rules::{sound, touches};

/// A Take of the front of the ready list keeps a node standing for its journal.
pub fn a_take_keeps<E: Engine>()
    ensures { (setting : Setting E.Program) (old new : Book) (was is : Held E) (pid worker : ℕ) →
        StandsFor (meaning E.stands E.phase E.memory) setting old (told old) was → was.over ≡ false →
        TakesFront was is pid worker → Records old new (EntryIs.Take worker pid) [] → was.out + 3 ≤ old.entry_room →
        StandsFor (meaning E.stands E.phase E.memory) setting new (told new) is }
{}

/// A Tick does that ends the wait of process 1, whose engine is told the late reply: 9027 in a receive, nothing in a
/// sleep.
pub fn a_wake_keeps<E: Engine>()
    ensures { (setting : Setting E.Program) (old new : Book) (was is : Held E) (worker now deadline : ℕ) (seat : Seat E)
        (ask : Ask) (engine : E) →
        StandsFor (meaning E.stands E.phase E.memory) setting old (told old) was → was.over ≡ false →
        was.slots 1 ≡ Asleep seat ask → was.deadlines 1 ≡ Some deadline → deadline ≤ time_at was.time now →
        IsAnswered (meaning E.stands E.phase E.memory) seat.engine
        (late_reply (call_of (request_of (E.memory seat.engine) ask))) engine →
        WakesOne was is 1
        (Home (record seat { engine = engine })) →
        Counts was is was.sends (time_at was.time now) 0 →
        Records old new (EntryIs.Tick worker now) [] → was.out + 2 ≤ old.entry_room →
        StandsFor (meaning E.stands E.phase E.memory) setting new (told new) is }
{
    sound();
}

/// A Tick does that comes before the deadline of process 1: nobody is woken, and the row is one longer.
pub fn an_early_tick_keeps<E: Engine>()
    ensures { (setting : Setting E.Program) (old new : Book) (was is : Held E) (worker now deadline : ℕ) →
        StandsFor (meaning E.stands E.phase E.memory) setting old (told old) was → was.over ≡ false →
        was.deadlines 1 ≡ Some deadline → time_at was.time now < deadline → WakesNone was is →
        Counts was is was.sends (time_at was.time now) (was.row + 1) →
        Records old new (EntryIs.Tick worker now) [] → was.out + 2 ≤ old.entry_room →
        StandsFor (meaning E.stands E.phase E.memory) setting new (told new) is }
{
    sound();
}

/// A Stall does, where nothing is ready, no worker has a process and nobody waits with a deadline.
pub fn a_stall_keeps<E: Engine>()
    ensures { (setting : Setting E.Program) (old new : Book) (was is : Held E) (worker : ℕ) (more : List EndMemory) →
        ShowMemory (meaning E.stands E.phase E.memory) setting →
        StandsFor (meaning E.stands E.phase E.memory) setting old (told old) was → was.over ≡ false →
        was.ready ≡ [] → was.out ≡ 0 → was.deadlines 1 ≡ None → EndsAll was is EndIs.Stalled →
        IsLastAt (meaning E.stands E.phase E.memory) 1 (was.slots 1) more →
        Records old new (EntryIs.Stall worker) more →
        StandsFor (meaning E.stands E.phase E.memory) setting new (told new) is }
{
    sound();
    touches();
}

/// An Idle does, where the row of Pending gives and early Ticks is at least as long as the idle limit.
pub fn an_idle_keeps<E: Engine>()
    ensures { (setting : Setting E.Program) (old new : Book) (was is : Held E) (worker : ℕ) (more : List EndMemory) →
        ShowMemory (meaning E.stands E.phase E.memory) setting →
        StandsFor (meaning E.stands E.phase E.memory) setting old (told old) was → was.over ≡ false →
        setting.idle ≤ was.row → EndsAll was is EndIs.Idle →
        IsLastAt (meaning E.stands E.phase E.memory) 1 (was.slots 1) more →
        Records old new (EntryIs.Idle worker) more →
        StandsFor (meaning E.stands E.phase E.memory) setting new (told new) is }
{
    sound();
    touches();
}

/// A Starve does, while the run goes on.
pub fn a_starve_keeps<E: Engine>()
    ensures { (setting : Setting E.Program) (old new : Book) (was is : Held E) (worker : ℕ) (more : List EndMemory) →
        ShowMemory (meaning E.stands E.phase E.memory) setting →
        StandsFor (meaning E.stands E.phase E.memory) setting old (told old) was → was.over ≡ false →
        EndsAll was is EndIs.NoMemory → IsLastAt (meaning E.stands E.phase E.memory) 1 (was.slots 1) more →
        Records old new (EntryIs.Starve worker) more →
        StandsFor (meaning E.stands E.phase E.memory) setting new (told new) is }
{
    sound();
    touches();
}

/// What the deadline of process 1 tells of the world, where no other process is born: whether it waits with one, which
/// time ends its wait, and that it is then asleep.
pub fn deadlines_tell<E: Engine>()
    ensures none { (setting : Setting E.Program) (book : Book) (held : Held E) →
        StandsFor (meaning E.stands E.phase E.memory) setting book (told book) held → held.deadlines 1 ≡ None →
        timed_processes (told book) ≡ [] }
    ensures timed { (setting : Setting E.Program) (book : Book) (held : Held E) (deadline : ℕ) →
        StandsFor (meaning E.stands E.phase E.memory) setting book (told book) held →
        held.deadlines 1 ≡ Some deadline → timed_processes (told book) ≡ 1 ∷ [] }
    ensures due { (setting : Setting E.Program) (book : Book) (held : Held E) (deadline now : ℕ) →
        StandsFor (meaning E.stands E.phase E.memory) setting book (told book) held →
        held.deadlines 1 ≡ Some deadline →
        due_processes (at_time now (told book))
        ≡ (if nat_le deadline (time_at held.time now) then 1 ∷ [] else []) }
    ensures alone { (setting : Setting E.Program) (book : Book) (held : Held E) (pid deadline : ℕ) →
        StandsFor (meaning E.stands E.phase E.memory) setting book (told book) held →
        held.deadlines pid ≡ Some deadline → pid ≡ 1 }
    ensures asleep { (setting : Setting E.Program) (book : Book) (held : Held E) (deadline : ℕ) →
        StandsFor (meaning E.stands E.phase E.memory) setting book (told book) held →
        held.deadlines 1 ≡ Some deadline →
        (seat : Seat E) × (ask : Ask) × (held.slots 1 ≡ Asleep seat ask) }
{
    sound();
}

/// A node that holds process 1 at its begin, and nothing else, stands for the journal of its birth.
pub fn first_node_stands<E: Engine>()
    ensures { (setting : Setting E.Program) (book : Book) (held : Held E) (start : Start) (engine : E) →
        Begins setting → setting.first ≡ start → book.births ≡ Born start ∷ [] → book.entries ≡ [] →
        book.ends ≡ [] → 0 < book.entry_room →
        ((program : E.Program) → slice_get setting.programs start.«module» ≡ Some program →
        E.stands engine program start [] 0) →
        E.phase engine ≡ Running → HoldsFirst held engine start →
        StandsFor (meaning E.stands E.phase E.memory) setting book (told book) held }
{}
