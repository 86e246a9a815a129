ghost use Rattle.std.specs.Prelude.{ℕ, List, Option, true, ◌≡◌};
ghost use Rattle.world_rules.specs.declared.entry.Entry.{Entry};
ghost use Rattle.world_rules.specs.declared.life.Birth.{Birth};
ghost use Rattle.world_rules.specs.World.{World, is_ready};
ghost use Rattle.world_rules.specs.Rules.{next};
ghost use Rattle.world_rules.specs.Births.{Terms};
ghost use Rattle.world_rules.specs.Allowed.{Allowed};
ghost use Rattle.world_rules.specs.Told.{AllAllowed};
ghost use Rattle.world_rules.specs.Sound.{IsSound};
ghost use Rattle.world_rules.specs.Queue.{IsAhead, StaysReady, NoneTakes};

/// Who became ready earlier is taken earlier: while a process stays ready, no other comes before it, and none is taken that
/// wasn't before it already. It computes nothing.
pub fn first_come()
    ensures kept { (terms : Option Terms) (births : List Birth) (w : World) (entry : Entry) (first second : ℕ) → IsSound w →
        IsAhead w first second → Allowed terms births w entry →
        is_ready ((next births w entry).process first).stage ≡ true → IsAhead (next births w entry) first second }
    ensures served { (terms : Option Terms) (births : List Birth) (w : World) (entries : List Entry) (first second : ℕ) →
        IsSound w → IsAhead w first second → AllAllowed terms births w entries → StaysReady births w first entries →
        NoneTakes second entries }
{}
