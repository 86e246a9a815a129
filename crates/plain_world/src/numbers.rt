ghost use Rattle.std.specs.Prelude.{◌≡◌, ◌||◌, ◌<◌, ◌&&◌, ℕ, [], nat_eq, nat_lt, nat_le, not, filter, true, IsTrue, OnOk, OnErr};
ghost use Rattle.world_rules.specs.Part.{is_among, without_number};
ghost use Rattle.world_rules.specs.Sound.{Rise};

use memory_refusal::NoMemory;
use plain_part::with_number;
use std::alloc::Global;
use std::marker::Model;

/// Numbers, each once, by rising number.
#[derive(Debug, Drop)]
pub struct Numbers {
    numbers: Vec<u64>,
}

impl Model for Numbers {
    ghost use Rattle.std.specs.Prelude.{ℕ, List};
    ghost use Rattle.world_rules.specs.Sound.{Rise};

    ghost Value = { List ℕ };

    ghost view = { λ a. a.numbers.items };

    ghost invariant = { λ a. Rise a.numbers.items };
}

impl Numbers {
    /// No numbers. It takes no memory before the first one.
    pub(crate) fn new(alloc: Global) -> Numbers
        ensures { result ≡ [] }
    {
        Numbers {
            numbers: Vec::new(alloc),
        }
    }

    /// The numbers.
    pub(crate) fn as_slice(&self) -> &[u64]
        ensures same { result.now ≡ self.now }
        ensures rising { Rise result.now }
    {
        self.numbers.as_slice()
    }

    /// The number was found.
    fn has(&self, number: u64) -> bool
        ensures { IsTrue result → is_among self.now number ≡ true }
    {
        match self.numbers.binary_search(&number) {
            Ok(_) => true,
            Err(_) => false,
        }
    }

    /// The number is greater than each of them.
    fn is_past(&self, number: u64) -> bool
        ensures { IsTrue result → (other : ℕ) → is_among self.now other ≡ true → other < number }
    {
        match self.numbers.last() {
            Some(last) => *last < number,
            None => true,
        }
    }

    /// One number more, where it isn't there yet.
    pub(crate) fn add(&mut self, number: u64) -> Result<(), NoMemory>
        ensures added { OnOk result ((other : ℕ) →
            is_among self.new other ≡ (nat_eq other number || is_among self.old other)) }
        ensures same { OnErr result (self.new ≡ self.old) }
    {
        if self.has(number) {
            return Ok(());
        }
        if self.is_past(number) {
            self.numbers.push(number)?;
            return Ok(());
        }
        let all = with_number(*self.numbers.allocator(), number, &self.numbers)?;
        self.numbers = all;
        Ok(())
    }

    /// Without this number.
    pub(crate) fn remove(&mut self, number: u64)
        ensures { self.new ≡ without_number number self.old }
    {
        self.numbers.retain(|other| *other != number);
    }

    /// Without the numbers from 1 to this one.
    pub(crate) fn forget(&mut self, most: u64)
        ensures { self.new ≡ filter (λ number. not (nat_lt 0 number && nat_le number most)) self.old }
    {
        self.numbers
            .retain(|number| !(0 < *number && *number <= most));
    }
}
