ghost use Rattle.std.specs.Prelude.{◌≡◌, ℕ, List, Some, None, true, if◌then◌else◌};
ghost use Rattle.host_port.specs.HostTable.{same_text};
ghost use Rattle.world_rules.specs.declared.life.Ended.{Ended as EndMemory};
ghost use Rattle.world_rules.specs.Lives.{Setting};
ghost use Rattle.world_rules.specs.Registry.{with_name};
ghost use Rattle.world_rules.specs.World.{World};
ghost use Rattle.node_state.specs.Seats.{meaning};
ghost use Rattle.node_mirror.specs.Slots.{is_live_slot};
ghost use Rattle.node_mirror.specs.Held.{Held, Mirrors};

use host_port::Engine;

/// A name names a live process, in place of an earlier one.
pub fn a_name_mirrors<E: Engine>()
    ensures { (setting : Setting E.Program) (w : World) (held : Held E) (ends : List EndMemory) (name : List ℕ)
        (named : ℕ) →
        Mirrors (meaning E.stands E.phase E.memory) setting w held ends → is_live_slot (held.slots named) ≡ true →
        Mirrors (meaning E.stands E.phase E.memory) setting (with_name w name (Some named))
        (record held { names = λ other. if same_text other name then Some named else held.names other }) ends }
{}

/// A name names nobody any more.
pub fn an_unname_mirrors<E: Engine>()
    ensures { (setting : Setting E.Program) (w : World) (held : Held E) (ends : List EndMemory) (name : List ℕ) →
        Mirrors (meaning E.stands E.phase E.memory) setting w held ends →
        Mirrors (meaning E.stands E.phase E.memory) setting (with_name w name None)
        (record held { names = λ other. if same_text other name then None else held.names other }) ends }
{}
