ghost use Rattle.std.specs.Prelude.{◌≡◌, not};
ghost use Rattle.std.specs.Bool.{OnTrue, OnFalse};
ghost use Rattle.outside.specs.Causes.{Rose, counted, is_full};

/// Raises a count by one, and answers whether it rose: at the end of its type, 2^64 - 1, it stays.
pub fn raise(count: &mut u64) -> bool
    ensures answer { result ≡ not (is_full count.old) }
    ensures count { count.new ≡ counted count.old }
    ensures rose { OnTrue result (Rose count.old count.new) }
    ensures stayed { OnFalse result (count.new ≡ count.old) }
{
    let rises = *count != u64::MAX;
    *count = count.saturating_add(1);
    rises
}
