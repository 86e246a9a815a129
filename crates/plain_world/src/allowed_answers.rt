ghost use Rattle.std.specs.Prelude.{◌≡◌, ◌↔◌, IsTrue};
ghost use Rattle.world_rules.specs.Calls.{call_of};
ghost use Rattle.world_rules.specs.Streams.{word_value};
ghost use Rattle.world_rules.specs.Allowed.{
  BindFits,
  NoStreamFits,
  NoBytesFits,
  OwnAnswerFits,
  AnswerFits,
  PendingFits,
};
ghost use Rattle.plain_part.specs.Shown.{shown_part};

use crate::outside::has_result;
use host_port::{Reply, Request, Word};
use plain_part::{HostCall, PlainPart, argument, call_of, has_row_form};

/// The number of a word; 0 without one.
fn word_value(word: &Option<Word>) -> u64
    ensures { result ≡ word_value word.now }
{
    match word {
        Some(word) => word.value,
        None => 0,
    }
}

/// A bind is answered 2 exactly where 16 listeners are there, and 0 with the next listener's number.
fn bind_fits(part: &PlainPart, reply: &Reply) -> bool
    ensures { IsTrue result ↔ BindFits (shown_part part.now) reply.now }
{
    if has_result(2, reply) != part.listeners_full() {
        return false;
    }
    !has_result(0, reply) || word_value(&reply.word) == part.next_listener
}

/// An accept or a connect without a stream is answered 2 exactly where 256 streams are in the table, and never 0.
fn no_stream_fits(part: &PlainPart, reply: &Reply) -> bool
    ensures { IsTrue result ↔ NoStreamFits (shown_part part.now) reply.now }
{
    has_result(2, reply) == part.handles_full() && !has_result(0, reply)
}

/// A read or a write of no bytes is answered 0 with count 0.
fn no_bytes_fits(reply: &Reply) -> bool
    ensures { IsTrue result ↔ NoBytesFits reply.now }
{
    has_result(0, reply) && word_value(&reply.word) == 0
}

/// What the part further asks of an answer.
fn own_answer_fits(part: &PlainPart, request: &Request, reply: &Reply) -> bool
    ensures { IsTrue result ↔ OwnAnswerFits (call_of request.now) (shown_part part.now) request.now reply.now }
{
    match call_of(request) {
        Some(HostCall::Bind) => bind_fits(part, reply),
        Some(HostCall::Accept | HostCall::Connect) => no_stream_fits(part, reply),
        Some(HostCall::ReadStream | HostCall::WriteStream) => {
            argument(request, 2) != 0 || no_bytes_fits(reply)
        }
        _ => true,
    }
}

/// An answer has the form of its call, and is one that the part allows.
pub(crate) fn answer_fits(part: &PlainPart, request: &Request, reply: &Reply) -> bool
    ensures { IsTrue result ↔ AnswerFits (shown_part part.now) request.now reply.now }
{
    has_row_form(request, reply) && own_answer_fits(part, request, reply)
}

/// There may be no answer yet: to an accept with a place for the stream, or to a read or a write of some bytes.
pub(crate) fn pending_fits(part: &PlainPart, request: &Request) -> bool
    ensures { IsTrue result ↔ PendingFits (call_of request.now) (shown_part part.now) request.now }
{
    match call_of(request) {
        Some(HostCall::Accept) => !part.handles_full(),
        Some(HostCall::ReadStream | HostCall::WriteStream) => argument(request, 2) > 0,
        _ => false,
    }
}
