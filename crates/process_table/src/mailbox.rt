ghost use Rattle.std.specs.Prelude.{◌≡◌, ◌+◌, ◌%◌, ◌<◌, ◌++◌, ◌^◌, [], length, IsSome};
ghost use Rattle.message_scratch.specs.Messages.{slots_of, handles_in};
ghost use Rattle.resource_table.specs.Steps.{told};
ghost use Rattle.world_rules.specs.Mail.{tags_in};
ghost use Rattle.node_state.specs.Posts.{Posts, Receives};
ghost use Rattle.host_calls.specs.Shown.{shown_scratch};
ghost use Rattle.world_rules.specs.Part.{Part};
ghost use Rattle.process_table.specs.Holds.{letters_in, streams_of};
ghost use Rattle.process_table.specs.Gives.{MovesOut};

use crate::Letter;
use message_scratch::Scratch;
use node_state::{Post, Receipt};
use outside::Stream;
use resource_table::Shed;
use tagged_mailbox::Mailbox;

/// Puts the scratch message of process `pid`, under this number, into that process's own mailbox, where it is sent to
/// itself. It leaves the scratch area only once it has a place. A count at the end of its type is want of memory too.
pub fn put_message<S: Stream>(
    mail: &mut Mailbox<Letter<S>>,
    scratch: &mut Scratch<S>,
    to: u64,
    pid: u64,
    number: u64,
) -> Post
    requires held { IsSome scratch.old }
    ensures posts { (part : Part) →
        Posts to pid number (letters_in mail.old) (record part { scratch = shown_scratch scratch.old })
        (letters_in mail.new) (record part { scratch = shown_scratch scratch.new }) result }
    ensures streams { streams_of mail.new ++ handles_in (slots_of scratch.new)
        ≡ streams_of mail.old ++ handles_in (slots_of scratch.old) }
    ensures counted { result ≡ Post.Put → number + 1 < 2 ^ 64 }
{
    if to != pid {
        return Post::Nobody;
    }
    if mail.full() {
        return Post::Full;
    }
    let Some(tag) = scratch.tag() else {
        unreachable!()
    };
    if number == u64::MAX {
        return Post::Refused;
    }
    if mail.reserve(tag).is_err() {
        return Post::Refused;
    }
    let Some(message) = scratch.let_go() else {
        unreachable!()
    };
    mail.put_reserved(Letter::of(number, message));
    Post::Put
}

/// Takes the first wanted message of the mailbox into the scratch area; the streams of the old message are shut into
/// the empty shed, by rising slot. Where nothing is wanted, a receive that would wait 0 milliseconds is over.
pub fn take_wanted<S: Stream>(
    mail: &mut Mailbox<Letter<S>>,
    scratch: &mut Scratch<S>,
    shed: &mut Shed<S>,
    tags: &[u8],
    ms: u64,
) -> Receipt
    requires whole { length tags.now % 8 ≡ 0 }
    requires empty { shed.old ≡ [] }
    ensures receives { (part : Part) →
        Receives (tags_in tags.now) ms (letters_in mail.old) (record part { scratch = shown_scratch scratch.old })
        (letters_in mail.new) (record part { scratch = shown_scratch scratch.new }) result }
    ensures streams { MovesOut (told S.taken S.put S.faults S.waits S.empties S.down) (streams_of mail.old)
        (handles_in (slots_of scratch.old)) shed.old (streams_of mail.new) (handles_in (slots_of scratch.new)) shed.new
        result }
{
    let Some(letter) = mail.pick(tags) else {
        return if ms == 0 {
            Receipt::TimedOut
        } else {
            Receipt::Waits
        };
    };
    let _size = scratch.size();
    scratch.hold(letter.into_message(), shed);
    Receipt::Delivered
}
