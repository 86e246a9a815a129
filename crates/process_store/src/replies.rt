ghost use Rattle.std.specs.Prelude.{◌≡◌};
ghost use Rattle.world_rules.specs.Answers.{empty_reply, number_reply, written_reply};
ghost use Rattle.world_rules.specs.Calls.{call_numbered};
ghost use Rattle.world_rules.specs.Time.{late_reply};
ghost use Rattle.node_state.specs.Posts.{code_of, id_of};

use host_port::{Ask, Reply, Word};
use node_state::Post;
use plain_part::{HostCall, call_numbered};

/// A reply of nothing.
pub(crate) fn empty_reply() -> Reply
    ensures { result ≡ empty_reply }
{
    Reply {
        result: None,
        word: None,
        text: None,
    }
}

/// A reply of a number.
pub(crate) fn number_reply(n: u64) -> Reply
    ensures { result ≡ number_reply n }
{
    Reply {
        result: Some(n),
        word: None,
        text: None,
    }
}

/// A reply of a number, with eight bytes written at this address.
pub(crate) fn written_reply(result_number: u64, addr: u32, value: u64) -> Reply
    ensures { result ≡ written_reply result_number addr value }
{
    Reply {
        result: Some(result_number),
        word: Some(Word {
            addr,
            width: 8,
            value,
        }),
        text: None,
    }
}

/// Where the number of an opened stream is written, by the ask of an accept or of a connect.
pub(crate) fn id_of(ask: &Ask) -> u64
    ensures { result ≡ id_of ask.now }
{
    match call_numbered(ask.call) {
        Some(HostCall::Accept) => ask.args[1],
        _ => ask.args[2],
    }
}

/// What a wait in this call is answered when its deadline has come.
pub(crate) fn late_reply(call: u8) -> Reply
    ensures { result ≡ late_reply (call_numbered call) }
{
    match call_numbered(call) {
        Some(HostCall::Receive) => number_reply(9027),
        _ => empty_reply(),
    }
}

/// The reply to a send.
pub(crate) fn post_code(post: Post) -> u64
    ensures { result ≡ code_of post }
{
    match post {
        Post::Put => 0,
        Post::Nobody => 1,
        Post::Full => 2,
        Post::Refused => 12,
    }
}
