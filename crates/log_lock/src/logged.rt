//! A value whose entries a lock remembers.
ghost use Rattle.std.specs.Prelude.{ℕ, List};

/// A value with a list of entries, each made by a numbered maker, and a base that never changes.
pub trait Logged: Send {
    /// An entry.
    type Item;

    /// All that never changes in the value. Proofs alone speak of it: no value of it is made.
    type Base;

    /// The value's entries, the first one first.
    ghost entries: { Self → List Self.Item };

    /// The number of the pass by which an entry was made.
    ghost maker: { Self.Item → ℕ };

    /// The value's base.
    ghost base: { Self → Self.Base };
}
