ghost use Rattle.std.specs.Prelude.{◌≡◌, ◌↔◌, IsTrue, Some, length, IfOk};
ghost use Rattle.std.specs.Bool.{OnTrue};
ghost use Rattle.std.specs.Option.{option_map_or};
ghost use Rattle.world_rules.specs.Answers.{empty_reply, number_reply, text_reply};
ghost use Rattle.world_rules.specs.Calls.{call_of, arg};
ghost use Rattle.world_rules.specs.Local.{
  answer_of,
  local_reply,
  reply_from,
  reply_of_config,
  written_bytes,
  read_bytes,
  AreLocal,
  part_after,
};
ghost use Rattle.world_rules.specs.Part.{handle_at, slots_of};
ghost use Rattle.plain_part.specs.Replies.{reply_to, reply_in};
ghost use Rattle.plain_part.specs.Shown.{shown_part, shown_call};

use crate::configs::config_at;
use crate::message::slot_at;
use crate::{HostCall, Judgement, PlainPart, argument, call_of, is_local};
use host_port::{Call, Reply, Request, Start, Text};
use memory_refusal::NoMemory;

/// The reply is nothing.
pub fn is_empty_reply(reply: &Reply) -> bool
    ensures { IsTrue result ↔ (empty_reply ≡ reply.now) }
{
    reply.result.is_none() && reply.word.is_none() && reply.text.is_none()
}

/// The reply is this number.
pub fn is_number_reply(reply: &Reply, number: u64) -> bool
    ensures { IsTrue result ↔ (number_reply number ≡ reply.now) }
{
    reply.result == Some(number) && reply.word.is_none() && reply.text.is_none()
}

/// The text is these bytes at this address.
fn is_text(text: &Text, addr: u64, bytes: &[u8]) -> bool
    ensures { IsTrue result ↔ (text.now ≡ record { addr = addr; bytes = bytes.now }) }
{
    u64::from(text.addr) == addr && text.bytes.as_slice() == bytes
}

/// The reply is the count of these bytes, which are written at this address.
fn is_text_reply(reply: &Reply, addr: u64, bytes: &[u8]) -> bool
    ensures { IsTrue result ↔ (text_reply (length bytes.now) addr bytes.now ≡ reply.now) }
{
    match &reply.text {
        Some(text) => {
            reply.result == Some(bytes.len() as u64)
                && reply.word.is_none()
                && is_text(text, addr, bytes)
        }
        None => false,
    }
}

impl PlainPart {
    /// The call is local, is judged fit, and has its reply.
    pub fn answers(&self, start: &Start, call: &Call) -> bool
        ensures { IsTrue result ↔ (reply_to start.now (shown_part self.now) call.now.request ≡ Some call.now.reply) }
    {
        if !is_local(&call.request) {
            return false;
        }
        match self.judge(start, &call.request) {
            Judgement::Fit => self.answers_fit(start, call),
            Judgement::Overdrawn => false,
            Judgement::Faulty(_) => false,
        }
    }

    /// The call has the reply that its name has.
    fn answers_fit(&self, start: &Start, call: &Call) -> bool
        ensures { IsTrue result ↔ (reply_in
            (answer_of (call_of call.now.request) start.now (shown_part self.now) call.now.request)
            ≡ Some call.now.reply) }
    {
        match call_of(&call.request) {
            Some(name) => self.has_reply(name, start, &call.request, &call.reply),
            None => false,
        }
    }

    /// What the call of this name answers is this reply.
    fn has_reply(&self, call: HostCall, start: &Start, request: &Request, reply: &Reply) -> bool
        ensures { IsTrue result ↔
            (local_reply (shown_call call) start.now (shown_part self.now) request.now ≡ reply.now) }
    {
        match call {
            HostCall::WriteData => self.has_write_reply(request, reply),
            HostCall::ReadData => self.has_read_reply(request, reply),
            HostCall::DataSize => self.has_size_reply(reply),
            HostCall::GetTag => self.has_tag_reply(reply),
            HostCall::PushStream => is_number_reply(reply, self.slots().len() as u64),
            HostCall::TakeStream => self.has_stream_reply(argument(request, 0), reply),
            HostCall::ProcessId => is_number_reply(reply, start.pid),
            HostCall::CreateConfig => is_number_reply(reply, self.configs.len() as u64),
            HostCall::GetMaxMemory => self.has_pages_reply(argument(request, 0), reply),
            HostCall::GetMaxFuel => self.has_fuel_reply(argument(request, 0), reply),
            _ => is_empty_reply(reply),
        }
    }

    /// The reply tells how many bytes the message still held.
    fn has_write_reply(&self, request: &Request, reply: &Reply) -> bool
        ensures { IsTrue result ↔ (reply_from (shown_part self.now).scratch
            (λ scratch. number_reply (length (written_bytes scratch request.now))) ≡ reply.now) }
    {
        match &self.scratch {
            Some(scratch) => {
                is_number_reply(
                    reply,
                    scratch.message().room_for(request.first.as_slice()) as u64,
                )
            }
            None => is_empty_reply(reply),
        }
    }

    /// The reply gives the bytes from the read place on.
    fn has_read_reply(&self, request: &Request, reply: &Reply) -> bool
        ensures { IsTrue result ↔ (reply_from (shown_part self.now).scratch
            (λ scratch. text_reply (length (read_bytes scratch request.now)) (arg request.now 0)
            (read_bytes scratch request.now)) ≡ reply.now) }
    {
        match &self.scratch {
            Some(scratch) => is_text_reply(
                reply,
                argument(request, 0),
                scratch.bytes_from_here(argument(request, 1)),
            ),
            None => is_empty_reply(reply),
        }
    }

    /// The reply tells the size of the message.
    fn has_size_reply(&self, reply: &Reply) -> bool
        ensures { IsTrue result ↔ (reply_from (shown_part self.now).scratch
            (λ scratch. number_reply (length scratch.message.bytes)) ≡ reply.now) }
    {
        match &self.scratch {
            Some(scratch) => is_number_reply(reply, scratch.message().bytes().len() as u64),
            None => is_empty_reply(reply),
        }
    }

    /// The reply tells the tag of the message.
    fn has_tag_reply(&self, reply: &Reply) -> bool
        ensures { IsTrue result ↔ (reply_from (shown_part self.now).scratch
            (λ scratch. number_reply scratch.message.tag) ≡ reply.now) }
    {
        match &self.scratch {
            Some(scratch) => is_number_reply(reply, scratch.message().tag()),
            None => is_empty_reply(reply),
        }
    }

    /// The reply tells the stream in a slot.
    fn has_stream_reply(&self, place: u64, reply: &Reply) -> bool
        ensures { IsTrue result ↔ (option_map_or number_reply
            (handle_at (slots_of (shown_part self.now).scratch) place) empty_reply ≡ reply.now) }
    {
        match slot_at(self.slots(), place) {
            Some(handle) => is_number_reply(reply, handle),
            None => is_empty_reply(reply),
        }
    }

    /// The reply tells the pages of a config.
    fn has_pages_reply(&self, number: u64, reply: &Reply) -> bool
        ensures { IsTrue result ↔ (reply_of_config (shown_part self.now) number (λ limits. limits.pages) ≡ reply.now) }
    {
        match config_at(&self.configs, number) {
            Some(limits) => is_number_reply(reply, u64::from(limits.pages())),
            None => is_empty_reply(reply),
        }
    }

    /// The reply tells the fuel of a config.
    fn has_fuel_reply(&self, number: u64, reply: &Reply) -> bool
        ensures { IsTrue result ↔ (reply_of_config (shown_part self.now) number (λ limits. limits.fuel) ≡ reply.now) }
    {
        match config_at(&self.configs, number) {
            Some(limits) => is_number_reply(reply, limits.fuel()),
            None => is_empty_reply(reply),
        }
    }

    /// Each of these calls is local, is judged fit and has its reply, one after another. Where they are, the part is
    /// the one after them; where they aren't, it is not said which it is.
    pub fn run_answered(&mut self, start: &Start, calls: &[Call]) -> Result<bool, NoMemory>
        ensures local { IfOk result (λ answered. IsTrue answered ↔ AreLocal start.now (shown_part self.old) calls.now) }
        ensures part { IfOk result (λ answered. OnTrue answered
            (shown_part self.new ≡ part_after start.now (shown_part self.old) calls.now)) }
    {
        for call in calls {
            if !self.answers(start, call) {
                return Ok(false);
            }
            self.run_local(start, &call.request)?;
        }
        Ok(true)
    }
}
