ghost use Rattle.std.specs.Prelude.{◌≡◌};
ghost use Rattle.process_store.specs.Holds.{held_of};

use super::Store;
use host_port::Engine;
use outside::Outside;

impl<E: Engine, O: Outside> Store<E, O> {
    /// The process that a name names; None exactly where it names none.
    pub fn named(&self, name: &[u8]) -> Option<u64>
        ensures { result ≡ (held_of self.now).names name.now }
    {
        self.names.get(name)
    }
}
