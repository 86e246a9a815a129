ghost use Rattle.std.specs.Prelude.{◌≡◌, ℕ, Bool};

/// What a mailbox asks of its items.
pub trait Tagged {
    /// The tag by which an item is received.
    ghost tag: { Self → ℕ };

    /// Whether an item counts against the mailbox's limit.
    ghost counts: { Self → Bool };

    /// The tag by which the item is received.
    fn tag(&self) -> u64
        ensures { result ≡ tag self.now };

    /// Whether the item counts against the mailbox's limit.
    fn counts(&self) -> bool
        ensures { result ≡ counts self.now };
}
