ghost use Rattle.std.specs.Prelude.{◌≡◌, ◌++◌, filter, nat_eq, nat_lt, not, IfOk, OnOk};
ghost use Rattle.world_rules.specs.Part.{is_among, with_number, without_number, handles_in};

use memory_refusal::NoMemory;
use std::alloc::Global;

/// A number is among these.
pub fn is_among(numbers: &[u64], number: u64) -> bool
    ensures { result ≡ is_among numbers.now number }
{
    numbers.iter().any(|n| number == *n)
}

/// Those of the numbers that are below this one.
fn below(alloc: Global, number: u64, numbers: &[u64]) -> Result<Vec<u64>, NoMemory>
    ensures { IfOk result (λ some. some.items ≡ filter (λ n. nat_lt n number) numbers.now) }
{
    Ok(
        numbers
            .iter()
            .copied()
            .filter(|n| *n < number)
            .collect(alloc)?,
    )
}

/// Those of the numbers that are above this one.
fn above(alloc: Global, number: u64, numbers: &[u64]) -> Result<Vec<u64>, NoMemory>
    ensures { IfOk result (λ some. some.items ≡ filter (λ n. nat_lt number n) numbers.now) }
{
    Ok(
        numbers
            .iter()
            .copied()
            .filter(|n| number < *n)
            .collect(alloc)?,
    )
}

/// Rising numbers with one more, in its place.
pub fn with_number(alloc: Global, number: u64, numbers: &[u64]) -> Result<Vec<u64>, NoMemory>
    ensures { IfOk result (λ all. all.items ≡ with_number number numbers.now) }
{
    let mut all = below(alloc, number, numbers)?;
    all.push(number)?;
    let greater = above(alloc, number, numbers)?;
    all.extend_from_slice(&greater)?;
    Ok(all)
}

/// Numbers without one.
pub fn without_number(alloc: Global, number: u64, numbers: &[u64]) -> Result<Vec<u64>, NoMemory>
    ensures { IfOk result (λ others. others.items ≡ without_number number numbers.now) }
{
    Ok(
        numbers
            .iter()
            .copied()
            .filter(|n| *n != number)
            .collect(alloc)?,
    )
}

/// The streams in these slots, by rising slot.
pub fn handles_in(alloc: Global, slots: &[Option<u64>]) -> Result<Vec<u64>, NoMemory>
    ensures { IfOk result (λ handles. handles.items ≡ handles_in slots.now) }
{
    Ok(slots.iter().filter_map(|slot| *slot).collect(alloc)?)
}

/// Puts the streams of these slots at the end of a list, by rising slot.
pub fn push_handles_in(handles: &mut Vec<u64>, slots: &[Option<u64>]) -> Result<(), NoMemory>
    ensures { OnOk result (handles.new.items ≡ handles.old.items ++ handles_in slots.now) }
{
    let more = handles_in(*handles.allocator(), slots)?;
    handles.extend_from_slice(&more)?;
    Ok(())
}
