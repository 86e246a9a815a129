ghost use Rattle.std.specs.Prelude.{◌≡◌, ℕ, Bool, true};

/// A place where connections arrive.
pub trait Listener: Send + Drop {
    /// The number of its port, which no call changes.
    ghost number: { Self → ℕ };

    /// The listener was shut.
    ghost down: { Self → Bool };

    /// The number of its port.
    fn port(&self) -> u16
        ensures { result ≡ number self.now };

    /// Stops listening, for good.
    fn shut(&mut self)
        ensures number { number self.new ≡ number self.old }
        ensures down { down self.new ≡ true };
}
