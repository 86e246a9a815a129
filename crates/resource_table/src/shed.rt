ghost use Rattle.std.specs.Prelude.{◌≡◌, ◌↔◌, ◌<◌, ◌++◌, [], ◌∷◌, true, length, IfOk, IfSome, IsNone};
ghost use Rattle.std.specs.Option.{option_to_list};
ghost use Rattle.resource_table.specs.Steps.{Sheds, told};

use crate::Owned;
use memory_refusal::NoMemory;
use outside::Stream;
use std::alloc::Global;
use std::collections::VecDeque;
use std::marker::Model;

/// How many closed streams a shed holds: those of a full table, and of a full message.
const PLACES: usize = 320;

/// Streams that were shut, on their way out of a process. There are 320 places.
#[derive(Drop)]
pub struct Shed<S: Stream> {
    handles: VecDeque<Owned<S>>,
}

impl<S: Stream> Model for Shed<S> {
    ghost use Rattle.std.specs.Prelude.{◌≡◌, ◌≤◌, List, All, true, length};
    ghost use Rattle.std.specs.VecDeque.{deque_capacity};
    ghost use Rattle.resource_table.specs.Handles.{Handle};

    ghost Value = { List (Handle S) };

    ghost view = { λ a. a.handles.items };

    ghost invariant = { λ a.
        (320 ≤ deque_capacity a.handles) × All (λ h. S.down h.stream ≡ true) a.handles.items };
}

impl<S: Stream> Shed<S> {
    /// An empty shed.
    pub fn new(alloc: Global) -> Result<Shed<S>, NoMemory>
        ensures { IfOk result (λ shed. shed ≡ []) }
    {
        Ok(Shed {
            handles: VecDeque::with_capacity(alloc, PLACES)?,
        })
    }

    /// Shuts a stream, and keeps the handle behind the others.
    pub fn shut(&mut self, h: Owned<S>)
        requires { length self.old < 320 }
        ensures { Sheds (told S.taken S.put S.faults S.waits S.empties S.down) (h ∷ []) self.old self.new }
    {
        let mut closed = h;
        closed.shut();
        match self.handles.push_back(closed) {
            Ok(()) => {}
            // The room was made at the start.
            Err(_) => unreachable!(),
        }
    }

    /// Gives the handle that was shut first; None exactly where the shed is empty. Its stream is down.
    pub fn pop(&mut self) -> Option<Owned<S>>
        ensures popped { self.old ≡ option_to_list result ++ self.new }
        ensures none { IsNone result ↔ (self.old ≡ []) }
        ensures down { IfSome result (λ h. S.down h.stream ≡ true) }
    {
        self.handles.pop_front()
    }

    /// Lets go of an empty shed.
    pub fn destroy_empty(self)
        requires { self ≡ [] }
    {
        let Shed { handles } = self;
        handles.destroy_empty();
    }
}
