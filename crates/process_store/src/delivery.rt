ghost use Rattle.std.specs.Prelude.{◌≡◌, [], Some};
ghost use Rattle.message_scratch.specs.Messages.{slots_of, handles_in};
ghost use Rattle.resource_table.specs.Steps.{Sheds, told};
ghost use Rattle.world_rules.specs.Part.{unread};
ghost use Rattle.world_rules.specs.Receive.{delivery_reply};
ghost use Rattle.world_rules.specs.Settled.{message_of};
ghost use Rattle.host_calls.specs.Shown.{shown_scratch};
ghost use Rattle.process_store.specs.Holds.{item_of, item_streams};

use crate::Item;
use message_scratch::Scratch;
use outside::Stream;
use resource_table::Shed;

/// Takes an item into the scratch area, a signal as an empty message of its tag. The streams of the old scratch message
/// are shut into the empty shed, by rising slot. The result is what the receive is told: 0 for a message, 1 for a signal.
pub fn deliver<S: Stream>(scratch: &mut Scratch<S>, shed: &mut Shed<S>, item: Item<S>) -> u64
    requires empty { shed.old ≡ [] }
    ensures scratch { shown_scratch scratch.new ≡ Some (unread (message_of (item_of item))) }
    ensures streams { handles_in (slots_of scratch.new) ≡ item_streams item }
    ensures shed { Sheds (told S.taken S.put S.faults S.waits S.empties S.down) (handles_in (slots_of scratch.old))
        shed.old shed.new }
    ensures code { (delivery_reply (item_of item)).result ≡ Some result }
{
    let _size = scratch.size();
    let tag = item.its_tag();
    match item.into_message() {
        Some(message) => {
            scratch.hold(message, shed);
            0
        }
        None => {
            scratch.create(tag, shed);
            1
        }
    }
}
