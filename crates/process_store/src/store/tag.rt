ghost use Rattle.std.specs.Prelude.{◌≡◌, Some};
ghost use Rattle.host_port.specs.declared.ask.Ask.{Ask};
ghost use Rattle.world_rules.specs.Part.{Scratch};
ghost use Rattle.node_state.specs.Seats.{Seat};
ghost use Rattle.node_mirror.specs.Slots.{Giving};
ghost use Rattle.process_store.specs.Holds.{place_at};
ghost use Rattle.process_store.specs.Telling.{HasScratch};

use super::Store;
use crate::Place;
use host_port::Engine;
use outside::Outside;

impl<E: Engine, O: Outside> Store<E, O> {
    /// The tag of the scratch message of a process whose Give is being performed.
    pub fn tag_in_hand(&self, pid: u64) -> u64
        requires scratch { HasScratch (place_at self.now pid) }
        ensures { (seat : Seat E) (ask : Ask) → place_at self.now pid ≡ Giving seat ask →
            (scratch : Scratch) × (seat.part.scratch ≡ Some scratch) × (scratch.message.tag ≡ result) }
    {
        let Some(Place::Giving(proc, _)) = self.places.get(pid as usize) else {
            unreachable!()
        };
        let Some(tag) = proc.scratch.tag() else {
            unreachable!()
        };
        tag
    }
}
