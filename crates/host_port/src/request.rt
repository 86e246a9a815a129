ghost use Rattle.std.specs.Prelude.{◌≡◌, IfOk};

use crate::{Ask, Bytes};
use memory_refusal::NoMemory;

/// An ask together with the bytes that it points to.
#[derive(Debug, Drop)]
pub struct Request {
    /// What the guest asked.
    pub ask: Ask,
    /// Every area that the call reads or writes lies in the memory.
    pub fits: bool,
    /// The bytes of the first area that the call reads; none where there is no such area, or
    /// where an area does not fit.
    pub first: Bytes,
    /// The bytes of the second area that the call reads, in the same way.
    pub second: Bytes,
}

impl Request {
    /// The same request once more.
    pub fn try_clone(&self) -> Result<Request, NoMemory>
        ensures { IfOk result (λ copy. copy ≡ self.now) }
    {
        Ok(Request {
            ask: self.ask,
            fits: self.fits,
            first: self.first.try_clone()?,
            second: self.second.try_clone()?,
        })
    }
}
