ghost use Rattle.std.specs.Prelude.{◌≡◌, ◌<◌, slice_get, slice_set, vec_len, IfSome};
ghost use Rattle.node_mirror.specs.Slots.{is_live_slot};
ghost use Rattle.process_store.specs.Keeps.{IsVacant};
ghost use Rattle.process_store.specs.Holds.{slot_in};

use host_calls::Proc;
use host_port::{Ask, Engine};
use outside::Outside;
use std::mem::replace;
use world_rules::End;

/// What stands at the place of a process number.
pub enum Place<E: Engine, O: Outside> {
    /// No process has the number.
    Nobody,
    /// The process is at home, and may be taken.
    Home(Proc<E, O>),
    /// The process is at home, and waits for the answer to this ask.
    Asleep(Proc<E, O>, Ask),
    /// The process is back from its worker, and is to get the answer to this ask.
    Giving(Proc<E, O>, Ask),
    /// This worker has the process.
    Away(u8),
    /// This worker has the process, which has this end when it is given back.
    Fated(u8, End),
    /// The process has ended.
    Gone,
}

/// Lets go of a place at which no process is.
pub(crate) fn let_go<E: Engine, O: Outside>(place: Place<E, O>)
    requires { IsVacant place }
{
    match place {
        Place::Nobody | Place::Away(_) | Place::Fated(_, _) | Place::Gone => {}
        _ => unreachable!(),
    }
}

/// Writes the place of a number, where no process was.
pub(crate) fn set_place<E: Engine, O: Outside>(
    places: &mut Vec<Place<E, O>>,
    pid: u64,
    place: Place<E, O>,
)
    requires within { pid < vec_len places.old }
    requires vacant { IfSome (slice_get places.old.items pid) IsVacant }
    ensures items { places.new.items ≡ slice_set places.old.items pid place }
    ensures len { vec_len places.new ≡ vec_len places.old }
{
    let_go(replace(&mut places[pid as usize], place));
}

/// The process of a number is live.
pub(crate) fn is_live<E: Engine, O: Outside>(places: &[Place<E, O>], pid: u64) -> bool
    ensures { result ≡ is_live_slot (slot_in (slice_get places.now pid)) }
{
    match places.get(pid as usize) {
        Some(Place::Home(_))
        | Some(Place::Asleep(_, _))
        | Some(Place::Giving(_, _))
        | Some(Place::Away(_)) => true,
        _ => false,
    }
}
