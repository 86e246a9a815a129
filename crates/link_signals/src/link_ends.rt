ghost use Rattle.std.specs.Prelude.{◌≡◌};
ghost use Rattle.link_signals.specs.Links.{ends};

/// The two ends of a link, the lesser number first.
pub(crate) fn ends(a: u64, b: u64) -> (u64, u64)
    ensures { result ≡ ends a b }
{
    (a.min(b), a.max(b))
}
