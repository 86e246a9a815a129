ghost use Rattle.std.specs.Prelude.{◌≡◌, ◌++◌, ℕ, List, Some, true};
ghost use Rattle.host_port.specs.declared.request.Request.{Request};
ghost use Rattle.world_rules.specs.declared.entry.Side.TheVariants as SideIs;
ghost use Rattle.world_rules.specs.declared.halt.Halt.TheVariants as HaltIs;
ghost use Rattle.world_rules.specs.declared.life.Birth.{Birth};
ghost use Rattle.world_rules.specs.Allowed.{Allowed, SpawnFits, plain_answer};
ghost use Rattle.world_rules.specs.Book.{Book};
ghost use Rattle.world_rules.specs.Calls.{call_of};
ghost use Rattle.world_rules.specs.Kinds.{is_refusable};
ghost use Rattle.world_rules.specs.Lives.{Setting, TurnIsRun, terms_of};
ghost use Rattle.world_rules.specs.Rules.{turned};
ghost use Rattle.world_rules.specs.Told.{told};
ghost use Rattle.world_rules.specs.Views.{deed_of};
ghost use Rattle.world_rules.specs.World.{Out};
ghost use Rattle.node_state.specs.Seats.{meaning};
ghost use Rattle.node_state.specs.Fits.{Brought, give_of, entry_of};
ghost use Rattle.node_mirror.specs.Slots.{Away};
ghost use Rattle.node_mirror.specs.Held.{Held, StandsFor};
ghost use Rattle.node_mirror.specs.Fits.{TurnFits, HasBirth};

use host_port::Engine;

/// What a worker brings back is an entry that is allowed, with the birth that comes where it performs a spawn, and its turn
/// is a run. So it is beside the refusal of memory, where the call may be refused and would be answered 0.
pub fn a_give_is_allowed<E: Engine>()
    ensures brought { (setting : Setting E.Program) (old : Book) (more : List Birth) (pid worker : ℕ)
        (brought : Brought E) →
        TurnFits (meaning E.stands E.phase E.memory) setting old.births (told old) worker pid brought →
        HasBirth (Some (terms_of setting)) (old.births ++ more) (told old) (give_of worker pid brought) →
        Allowed (Some (terms_of setting)) (old.births ++ more) (told old) (entry_of worker pid brought brought.side)
        × TurnIsRun setting (told old) (deed_of (entry_of worker pid brought brought.side)) }
    ensures refused { (setting : Setting E.Program) (old : Book) (was : Held E) (more : List Birth) (pid worker : ℕ)
        (brought : Brought E) (request : Request) →
        StandsFor (meaning E.stands E.phase E.memory) setting old (told old) was → was.slots pid ≡ Away worker →
        TurnFits (meaning E.stands E.phase E.memory) setting old.births (told old) worker pid brought →
        brought.halt ≡ HaltIs.Asks request → brought.side ≡ SideIs.Nothing → is_refusable request ≡ true →
        plain_answer (call_of request) (told old) pid request ≡ 0 →
        SpawnFits (Some (terms_of setting)) (old.births ++ more) (call_of request) (Out worker) (told old)
        (turned ((told old).process pid) (give_of worker pid brought)) request SideIs.NoMemory →
        Allowed (Some (terms_of setting)) (old.births ++ more) (told old)
        (entry_of worker pid brought SideIs.NoMemory)
        × TurnIsRun setting (told old) (deed_of (entry_of worker pid brought SideIs.NoMemory)) }
{}
