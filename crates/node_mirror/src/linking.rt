ghost use Rattle.std.specs.Prelude.{◌≡◌, ◌≢◌, ◌∷◌, ◌++◌, ℕ, List, [], Some, None, Bool, true, false, map, if◌then◌else◌};
ghost use Rattle.std.specs.FinMap.{empty, insert, remove};
ghost use Rattle.host_port.specs.declared.start.Start.{Start};
ghost use Rattle.link_signals.specs.Links.{Processes, Tags, ends};
ghost use Rattle.link_signals.specs.Fall.{IsFall};
ghost use Rattle.link_signals.specs.Fall.{signals_of as signals_in};
ghost use Rattle.world_rules.specs.declared.halt.End.{End};
ghost use Rattle.world_rules.specs.declared.halt.End.TheVariants as EndIs;
ghost use Rattle.world_rules.specs.declared.life.Birth.{Birth};
ghost use Rattle.world_rules.specs.Links.{Told, all_told, fallen_with, signals_of, with_link};
ghost use Rattle.world_rules.specs.Mail.{Signal};
ghost use Rattle.world_rules.specs.Part.{is_among};
ghost use Rattle.world_rules.specs.Receive.{arrived};
ghost use Rattle.world_rules.specs.Sound.{AreInOrder};
ghost use Rattle.world_rules.specs.Spawn.{next_number};
ghost use Rattle.world_rules.specs.World.{World, Ready, is_live, first_world, fresh_process, with_process};
ghost use Rattle.node_mirror.specs.Nets.{IsNet, LeavesNet, told_of};

use world_rules::falls_are_least;

/// Where the store of links has the links of a world: those that fall in the store are those that fall in the world,
/// the first process first and then the others by rising number; and the signals of the fall are the world's, in its
/// order.
pub fn falls_are_members()
    ensures fallen { (w : World) (processes : Processes) (tags : Tags) (pid : ℕ) (end : End) (members : List ℕ) →
        AreInOrder w → IsNet w processes tags → is_live (w.process pid).stage ≡ true → end ≢ EndIs.Done →
        IsFall processes tags pid members → members ≡ pid ∷ fallen_with w pid end }
    ensures signals { (w : World) (processes : Processes) (tags : Tags) (pid : ℕ) (end : End) (members : List ℕ) →
        AreInOrder w → IsNet w processes tags → is_live (w.process pid).stage ≡ true → end ≢ EndIs.Done →
        IsFall processes tags pid members →
        map told_of (signals_in processes tags members) ≡ signals_of w members end }
{
    falls_are_least();
}

/// How the store of links keeps having those of the world: where no process becomes live or ends, and none changes
/// whether it dies with links; where some end or are doomed; with a link, or without one; where a process changes
/// whether it dies with links; and with a child. The run begins with process 1 alone, dying with links, and no link.
pub fn nets_stay()
    ensures stays { (w after : World) (processes : Processes) (tags : Tags) → IsNet w processes tags →
        after.links ≡ w.links →
        ((pid : ℕ) → is_live (after.process pid).stage ≡ is_live (w.process pid).stage) →
        ((pid : ℕ) → (after.process pid).dies ≡ (w.process pid).dies) → IsNet after processes tags }
    ensures leave { (w after : World) (members : List ℕ) (processes : Processes) (tags : Tags) (left : Processes)
        (kept : Tags) → IsNet w processes tags → LeavesNet members processes tags left kept →
        ((pid : ℕ) → is_live (after.process pid).stage
        ≡ (if is_among members pid then false else is_live (w.process pid).stage)) →
        ((pid : ℕ) → is_among members pid ≡ false → (after.process pid).dies ≡ (w.process pid).dies) →
        ((a b : ℕ) → is_among members a ≡ false → is_among members b ≡ false → after.links a b ≡ w.links a b) →
        AreInOrder after → IsNet after left kept }
    ensures linked { (w : World) (a b tag : ℕ) (processes : Processes) (tags : Tags) → IsNet w processes tags →
        IsNet (with_link w a b (Some tag)) processes (insert tags (ends a b) tag) }
    ensures unlinked { (w : World) (a b : ℕ) (processes : Processes) (tags : Tags) → IsNet w processes tags →
        IsNet (with_link w a b None) processes (remove tags (ends a b)) }
    ensures minded { (w : World) (pid : ℕ) (dies : Bool) (processes : Processes) (tags : Tags) →
        IsNet w processes tags → is_live (w.process pid).stage ≡ true →
        IsNet (with_process w pid (record (w.process pid) { dies = dies })) (insert processes pid dies) tags }
    ensures born { (w : World) (start : Start) (processes : Processes) (tags : Tags) → IsNet w processes tags →
        IsNet (record (with_process w (next_number w) (fresh_process start Ready)) { numbers_drawn = next_number w })
        (insert processes (next_number w) true) tags }
    ensures first { (births : List Birth) → IsNet (first_world births) (insert empty 1 true) empty }
{}

/// The signals of a fall are put one after another, in their order. It computes nothing.
pub fn signals_follow()
    ensures { (w : World) (signals : List Told) (told : Told) →
        all_told w (signals ++ told ∷ []) ≡ arrived (all_told w signals) told.to (Signal told.tag) }
{}
