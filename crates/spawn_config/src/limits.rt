ghost use Rattle.std.specs.Prelude.{◌≡◌};
ghost use Rattle.spawn_config.specs.Lower.{lower_of};

use host_port::Limits;

/// The limits of a child: of each, the lesser of what it was given and what its parent has.
pub fn lower(child: Limits, parent: Limits) -> Limits
    ensures { result ≡ lower_of child parent }
{
    Limits::new(
        child.pages().min(parent.pages()),
        child.fuel().min(parent.fuel()),
        child.traffic().min(parent.traffic()),
    )
}
