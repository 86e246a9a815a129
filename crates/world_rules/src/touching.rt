ghost use Rattle.std.specs.Prelude.{ℕ, List, Option};
ghost use Rattle.world_rules.specs.declared.entry.Entry.{Entry};
ghost use Rattle.world_rules.specs.declared.life.Birth.{Birth};
ghost use Rattle.world_rules.specs.World.{World};
ghost use Rattle.world_rules.specs.Rules.{next};
ghost use Rattle.world_rules.specs.Births.{Terms};
ghost use Rattle.world_rules.specs.Allowed.{Allowed};
ghost use Rattle.world_rules.specs.Touches.{Touched, Stays, GoOn, counts_of};
ghost use Rattle.world_rules.specs.Sound.{IsSound};

/// An allowed entry makes of each process of a sound world some of the changes of one closed list, and nothing else. So
/// its calls only grow, its fuel doesn't shrink, its start stays, and an ended one stays as it is; and the clock and the
/// numbers that were drawn never go back. It computes nothing.
pub fn touches()
    ensures touched { (terms : Option Terms) (births : List Birth) (w : World) (entry : Entry) (pid : ℕ) → IsSound w →
        Allowed terms births w entry → Touched pid (w.process pid) ((next births w entry).process pid) }
    ensures stays { (terms : Option Terms) (births : List Birth) (w : World) (entry : Entry) (pid : ℕ) → IsSound w →
        Allowed terms births w entry → Stays (w.process pid) ((next births w entry).process pid) }
    ensures counts { (terms : Option Terms) (births : List Birth) (w : World) (entry : Entry) → IsSound w →
        Allowed terms births w entry → GoOn (counts_of w) (counts_of (next births w entry)) }
{}
