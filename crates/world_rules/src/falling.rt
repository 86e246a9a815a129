ghost use Rattle.std.specs.Prelude.{ℕ, Bool, true, ◌≡◌, []};
ghost use Rattle.world_rules.specs.declared.halt.End.{End};
ghost use Rattle.world_rules.specs.declared.halt.End.TheVariants as EndIs;
ghost use Rattle.world_rules.specs.World.{World, is_live};
ghost use Rattle.world_rules.specs.Links.{fallen_with};
ghost use Rattle.world_rules.specs.Falls.{IsClosed, falls};
ghost use Rattle.world_rules.specs.Sound.{IsSound};

/// Those that fall with a process that ends are the least set that holds it and is closed under dying links, read in the
/// world before anyone ends; with the end Done nobody falls. It computes nothing.
pub fn falls_are_least()
    ensures nobody { (w : World) (pid : ℕ) → fallen_with w pid EndIs.Done ≡ [] }
    ensures closed { (w : World) (pid : ℕ) (end : End) → IsSound w → is_live (w.process pid).stage ≡ true →
        (end ≡ EndIs.Done → ⊥) → IsClosed w (falls w pid end) }
    ensures least { (w : World) (pid : ℕ) (end : End) (is_member : ℕ → Bool) → is_member pid ≡ true → IsClosed w is_member →
        (other : ℕ) → falls w pid end other ≡ true → is_member other ≡ true }
{}
