ghost use Rattle.std.specs.Prelude.{◌≡◌, ◌+◌, ◌≤◌, ◌++◌, [], List, length, vec_len, vec_capacity};
ghost use Rattle.resource_table.specs.Handles.{Handle};
ghost use Rattle.resource_table.specs.Steps.{Sheds, told};
ghost use Rattle.host_calls.specs.Shown.{hands_of};
ghost use Rattle.process_store.specs.Holds.{streams_of};

use crate::Item;
use host_calls::Proc;
use host_port::Engine;
use outside::{Outside, Stream};
use resource_table::{Owned, Shed};
use tagged_mailbox::Mailbox;

/// Moves the streams of a shed behind the closed ones, in their order.
pub fn close_all<S: Stream>(closed: &mut Vec<Owned<S>>, shed: &mut Shed<S>)
    requires room { vec_len closed.old + length shed.old ≤ vec_capacity closed.old }
    ensures closed { closed.new.items ≡ closed.old.items ++ shed.old }
    ensures shed { shed.new ≡ [] }
    ensures capacity { vec_capacity closed.new ≡ vec_capacity closed.old }
{
    while let Some(handle) = shed.pop() {
        closed.push_reserved(handle);
    }
}

/// Shuts the streams of the items of a mailbox, the oldest item first and in each by rising slot, and moves them behind
/// the closed ones. The shed is empty before and after.
pub fn close_mail<S: Stream>(mail: Mailbox<Item<S>>, shed: &mut Shed<S>, closed: &mut Vec<Owned<S>>)
    requires empty { shed.old ≡ [] }
    requires room { vec_len closed.old + length (streams_of mail) ≤ vec_capacity closed.old }
    ensures closed { Sheds (told S.taken S.put S.faults S.waits S.empties S.down) (streams_of mail) closed.old.items
        closed.new.items }
    ensures shed { shed.new ≡ [] }
    ensures capacity { vec_capacity closed.new ≡ vec_capacity closed.old }
{
    let mut items = mail;
    while let Some(item) = items.pop() {
        if let Some(message) = item.into_message() {
            let _pushes = message.pushes();
            message.shut_into(shed);
            close_all(closed, shed);
        }
    }
    items.destroy_empty();
}

/// Ends a process whose shed is empty: its streams are shut, those of its table by rising number, then those of its
/// scratch message by rising slot, and move behind the closed ones.
pub fn close_proc<E: Engine, O: Outside>(proc: Proc<E, O>, closed: &mut Vec<Owned<O::Stream>>)
    requires shed { proc.shed ≡ [] }
    requires room { vec_len closed.old + length (hands_of proc) ≤ vec_capacity closed.old }
    ensures closed { Sheds (told O.Stream.taken O.Stream.put O.Stream.faults O.Stream.waits O.Stream.empties
        O.Stream.down) (hands_of proc) closed.old.items closed.new.items }
    ensures capacity { vec_capacity closed.new ≡ vec_capacity closed.old }
{
    let _count = proc.table.count();
    let _size = proc.scratch.size();
    let mut shed = proc.end();
    close_all(closed, &mut shed);
    shed.destroy_empty();
}
