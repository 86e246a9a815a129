ghost use Rattle.std.specs.Prelude.{◌≡◌};
ghost use Rattle.host_port.specs.Areas.{request_of};
ghost use Rattle.world_rules.specs.Mail.{is_wanted, tags_in};
ghost use Rattle.node_state.specs.Seats.{IsFitting};
ghost use Rattle.process_store.specs.Holds.{slot_of};
ghost use Rattle.process_store.specs.Telling.{WaitsWell, wakes_for};

use crate::Place;
use host_port::{Ask, Engine};
use outside::Outside;
use tagged_mailbox::is_wanted;

/// The receive of this ask wants an item of this tag.
fn wants<E: Engine>(engine: &E, ask: &Ask, tag: u64) -> bool
    requires receive { ask.now.call ≡ 9 }
    requires fitting { IsFitting (E.memory engine.now) (request_of (E.memory engine.now) ask.now) }
    ensures { result ≡ is_wanted (tags_in (request_of (E.memory engine.now) ask.now).first) tag }
{
    // The tags lie in the memory, which is shorter than 2^32 bytes.
    let _pages = engine.pages();
    match engine.read(ask.args[0] as u32, (ask.args[1] * 8) as u32) {
        Some(tags) => is_wanted(tags, tag),
        None => unreachable!(),
    }
}

/// The process at this place waits in a receive that wants an item of this tag.
pub fn wakes<E: Engine, O: Outside>(place: &Place<E, O>, tag: u64) -> bool
    requires fitting { WaitsWell E.memory (slot_of place.now) }
    ensures { result ≡ wakes_for E.memory (slot_of place.now) tag }
{
    match place {
        Place::Asleep(proc, ask) => ask.call == 9 && wants(&proc.engine, ask, tag),
        _ => false,
    }
}
