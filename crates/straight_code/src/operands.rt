//! Constants and parametric instructions.
ghost use Rattle.std.specs.Prelude.{◌≡◌, ◌+◌, ◌<◌, ◌≤◌, ◌∷◌, cond, nat_eq, length};
ghost use Rattle.tree_machine.specs.Outcomes.{Gives};
ghost use Rattle.tree_machine.specs.Parametric.{drop_one, select};
ghost use Rattle.flat_machine.specs.Shown.{stack_of};

/// Puts a value on top, as `i32.const` and `i64.const` do.
#[inline(always)]
pub fn push(values: &mut [u64], sp: usize, value: u64) -> usize
    requires room { sp < length values.old }
    ensures height { result ≡ sp + 1 }
    ensures pushed { stack_of values.new result ≡ value ∷ stack_of values.old sp }
{
    values[sp] = value;
    sp + 1
}

/// `drop`.
#[inline(always)]
pub fn drop_top(values: &[u64], sp: usize) -> usize
    requires one { 1 ≤ sp }
    ensures height { result + 1 ≡ sp }
    ensures drops { drop_one (stack_of values.now sp) ≡ Gives (stack_of values.now result) }
{
    sp - 1
}

/// `select`.
#[inline(always)]
pub fn select_top(values: &mut [u64], sp: usize) -> usize
    requires three { 3 ≤ sp }
    requires within { sp ≤ length values.old }
    ensures height { result + 2 ≡ sp }
    ensures selects { select (stack_of values.old sp) ≡ Gives (stack_of values.new result) }
{
    values[sp - 3] = chosen(values[sp - 1], values[sp - 2], values[sp - 3]);
    sp - 2
}

/// The first where the number is 0, or the other.
#[inline(always)]
fn chosen(number: u64, at_zero: u64, other: u64) -> u64
    ensures { result ≡ cond (nat_eq number 0) at_zero other }
{
    if number == 0 { at_zero } else { other }
}
