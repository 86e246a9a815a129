ghost use Rattle.std.specs.Prelude.{◌≡◌};

use outside::{Failed, Sink, raise};
use std::io::Write;

/// A writer of std as a sink. It tells nothing of what was written.
#[derive(Drop)]
pub struct RealOut<W: Write + Drop> {
    inner: W,
    faults: u64,
}

impl<W: Write + Drop> RealOut<W> {
    /// A sink over this writer, whose count begins at 0.
    pub fn new(inner: W) -> RealOut<W>
        ensures inner { result.inner ≡ inner }
        ensures faults { result.faults ≡ 0 }
    {
        RealOut { inner, faults: 0 }
    }
}

impl<W: Write + Drop> Sink for RealOut<W> {
    ghost use Rattle.std.specs.Prelude.{None};

    ghost written = { λ _. None };

    ghost faults = { λ s. s.faults };

    fn write(&mut self, piece: &[u8]) -> Result<usize, Failed> {
        match self.inner.write(piece) {
            Ok(count) => {
                if count == 0 && !piece.is_empty() {
                    raise(&mut self.faults);
                }
                Ok(count)
            }
            // A count at its end rises no more, so nothing is taken in place of a fault.
            Err(_) => {
                if raise(&mut self.faults) {
                    Err(Failed)
                } else {
                    Ok(0)
                }
            }
        }
    }
}
