ghost use Rattle.std.specs.Prelude.{◌≡◌, ◌+◌, ◌<◌, ◌^◌};
ghost use Rattle.world_rules.specs.Answers.{empty_reply, number_reply, written_reply};
ghost use Rattle.world_rules.specs.Calls.{call_numbered};
ghost use Rattle.world_rules.specs.Time.{late_reply};
ghost use Rattle.node_state.specs.Posts.{code_of, side_of, sends_after, receipt_code, id_of};

use host_port::{Ask, Reply, Word};
use node_state::{Post, Receipt};
use plain_part::{HostCall, call_numbered};
use world_rules::Side;

/// A reply of nothing.
pub fn empty_reply() -> Reply
    ensures { result ≡ empty_reply }
{
    Reply {
        result: None,
        word: None,
        text: None,
    }
}

/// A reply of a number.
pub fn number_reply(n: u64) -> Reply
    ensures { result ≡ number_reply n }
{
    Reply {
        result: Some(n),
        word: None,
        text: None,
    }
}

/// A reply of a number, with eight bytes written at this address.
pub fn written_reply(result_number: u64, addr: u32, value: u64) -> Reply
    ensures { result ≡ written_reply result_number addr value }
{
    Reply {
        result: Some(result_number),
        word: Some(Word {
            addr,
            width: 8,
            value,
        }),
        text: None,
    }
}

/// Where the number of an opened stream is written, by the ask of an accept or of a connect.
pub fn id_of(ask: &Ask) -> u64
    ensures { result ≡ id_of ask.now }
{
    match call_numbered(ask.call) {
        Some(HostCall::Accept) => ask.args[1],
        _ => ask.args[2],
    }
}

/// What a wait in this call is answered when its deadline has come.
pub fn late_reply(call: u8) -> Reply
    ensures { result ≡ late_reply (call_numbered call) }
{
    match call_numbered(call) {
        Some(HostCall::Receive) => number_reply(9027),
        _ => empty_reply(),
    }
}

/// The reply to a send.
pub fn post_code(post: Post) -> u64
    ensures { result ≡ code_of post }
{
    match post {
        Post::Put => 0,
        Post::Nobody => 1,
        Post::Full => 2,
        Post::Refused => 12,
    }
}

/// What a send is recorded beside.
pub fn post_side(post: Post) -> Side
    ensures { result ≡ side_of post }
{
    match post {
        Post::Refused => Side::NoMemory,
        _ => Side::Nothing,
    }
}

/// How many sends were answered 0, after this one.
pub fn count_sent(post: Post, sends: u64) -> u64
    requires { post ≡ Post.Put → sends + 1 < 2 ^ 64 }
    ensures { result ≡ sends_after post sends }
{
    match post {
        Post::Put => sends + 1,
        _ => sends,
    }
}

/// The reply to a receive that does not wait.
pub fn receive_code(receipt: Receipt) -> u64
    ensures { result ≡ receipt_code receipt }
{
    match receipt {
        Receipt::Delivered => 0,
        _ => 9027,
    }
}
