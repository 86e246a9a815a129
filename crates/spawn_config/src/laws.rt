ghost use Rattle.std.specs.Prelude.{◌≡◌, ℕ, List};
ghost use Rattle.host_port.specs.TypedValue.{TypedValue};
ghost use Rattle.spawn_config.specs.Spelling.{Spells};

/// The same bytes spell one list of parameters at most. It computes nothing.
pub fn one_spelling()
    ensures { (bytes : List ℕ) (params others : List TypedValue) → Spells bytes params → Spells bytes others
        → params ≡ others }
{}
