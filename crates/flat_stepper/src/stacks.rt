//! Values in an array, where the first so many are in use.
ghost use Rattle.std.specs.Prelude.{◌≡◌, ℕ, ◌+◌, ◌-◌, ◌<◌, ◌≤◌, ◌++◌, ◌∷◌, length, replicate, reverse, take, vec_capacity};
ghost use Rattle.tree_machine.specs.Limits.{most_values};
ghost use Rattle.code_map.specs.Targets.{count_if};
ghost use Rattle.flat_machine.specs.Shown.{stack_of};

/// The most frames of functions.
pub(crate) const MOST_FRAMES: usize = 2048;

/// The most values.
pub(crate) const MOST_VALUES: usize = 32_768;

/// Makes the array so long at least, within what it has in reserve; mostly twice as long as it was.
pub(crate) fn lengthen(values: &mut Vec<u64>, need: usize)
    requires within { need ≤ most_values }
    requires few { length values.old.items ≤ most_values }
    requires reserved { most_values ≤ vec_capacity values.old }
    ensures room { need ≤ length values.new.items }
    ensures longer { length values.old.items ≤ length values.new.items }
    ensures few { length values.new.items ≤ most_values }
    ensures reserved { most_values ≤ vec_capacity values.new }
    ensures kept { (count : ℕ) → count ≤ length values.old.items →
        stack_of values.new.items count ≡ stack_of values.old.items count }
{
    let len = values.len();
    if need > len {
        let longer = (2 * len).max(need).min(MOST_VALUES);
        match values.resize(longer, 0) {
            Ok(()) => (),
            Err(_) => unreachable!(),
        }
    }
}

/// Puts a value on the values.
pub(crate) fn push(values: &mut [u64], sp: usize, value: u64)
    requires { sp < length values.old }
    ensures { stack_of values.new (sp + 1) ≡ value ∷ stack_of values.old sp }
{
    values[sp] = value;
}

/// Puts so many zeros on the values.
pub(crate) fn push_zeros(values: &mut [u64], sp: usize, count: usize)
    requires { sp + count ≤ length values.old }
    ensures { stack_of values.new (sp + count) ≡ replicate count 0 ++ stack_of values.old sp }
{
    for i in 0..count {
        values[sp + i] = 0;
    }
}

/// Puts these in order at the bottom of the array.
pub(crate) fn begin_with(values: &mut [u64], arguments: &[u64])
    requires { length arguments.now ≤ length values.old }
    ensures { stack_of values.new (length arguments.now) ≡ reverse arguments.now }
{
    for (i, argument) in arguments.iter().enumerate() {
        values[i] = *argument;
    }
}

/// The topmost so many values of the first `sp + count`, the lowest first, and zeros up to eight.
pub(crate) fn arguments(values: &[u64], sp: usize, count: usize) -> [u64; 8]
    requires there { sp + count ≤ length values.now }
    requires few { count ≤ 8 }
    ensures { result ≡ reverse (take count (stack_of values.now (sp + count))) ++ replicate (8 - count) 0 }
{
    let mut arguments = [0; 8];
    for i in 0..count {
        arguments[i] = values[sp + i];
    }
    arguments
}

/// The topmost value of the first `sp` comes on those below `base`, where one is carried; gives how many values there
/// are then.
pub(crate) fn carry_down(values: &mut [u64], base: usize, sp: usize, carries: bool) -> usize
    requires above { base + count_if carries ≤ sp }
    requires there { sp ≤ length values.old }
    ensures height { result ≡ base + count_if carries }
    ensures values { stack_of values.new result
        ≡ take (count_if carries) (stack_of values.old sp) ++ stack_of values.old base }
{
    if carries {
        values[base] = values[sp - 1];
        base + 1
    } else {
        base
    }
}
