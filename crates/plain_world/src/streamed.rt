ghost use Rattle.std.specs.Prelude.{◌≡◌, IfOk, OnOk, take};
ghost use Rattle.world_rules.specs.Streams.{
  nothing_streamed,
  one_if,
  word_value,
  is_empty_answer,
  counted,
  bytes_read,
  bytes_written,
  after_answer,
  after_pending,
  after_side,
};
ghost use Rattle.world_rules.specs.Calls.{ReadStream, WriteStream};
ghost use Rattle.plain_part.specs.Shown.{shown_call};

use crate::outside::has_result;
use host_port::{Reply, Request};
use memory_refusal::NoMemory;
use plain_part::HostCall;
use std::alloc::Global;
use std::marker::Model;
use world_rules::Side;

/// One more where it is so. `NoMemory` comes where no greater number is left.
fn one_if(so: bool, n: u64) -> Result<u64, NoMemory>
    ensures { IfOk result (λ m. m ≡ one_if so n) }
{
    if so {
        return n.checked_add(1).ok_or(NoMemory);
    }
    Ok(n)
}

/// A reply 0 with count 0, although bytes were asked for.
fn is_empty_answer(request: &Request, reply: &Reply) -> bool
    ensures { result ≡ is_empty_answer request.now reply.now }
{
    has_result(0, reply) && word_value(reply) == 0 && request.ask.args[2] != 0
}

/// The number of the reply's word; without one 0.
fn word_value(reply: &Reply) -> u64
    ensures { result ≡ word_value reply.now.word }
{
    match reply.word {
        Some(word) => word.value,
        None => 0,
    }
}

/// The bytes of a finished read.
fn bytes_read(reply: &Reply) -> &[u8]
    ensures { result.now ≡ bytes_read reply.now }
{
    if !has_result(0, reply) {
        return &[];
    }
    match &reply.text {
        Some(text) => text.bytes.as_slice(),
        None => &[],
    }
}

/// The bytes that a finished write took.
fn bytes_written<'a>(request: &'a Request, reply: &Reply) -> &'a [u8]
    ensures { result.now ≡ bytes_written request.now reply.now }
{
    if !has_result(0, reply) {
        return &[];
    }
    front(request.first.as_slice(), word_value(reply))
}

/// The first bytes, so many of them, or all.
fn front(bytes: &[u8], count: u64) -> &[u8]
    ensures { result.now ≡ take count bytes.now }
{
    let count = count as usize;
    if count < bytes.len() {
        return &bytes[..count];
    }
    bytes
}

/// What was read from a stream and written to it, and how often it failed, was empty or made its holder wait.
#[derive(Debug, Drop)]
pub struct Streamed {
    taken: Vec<u8>,
    put: Vec<u8>,
    faults: u64,
    empties: u64,
    waits: u64,
}

impl Model for Streamed {
    ghost use Rattle.world_rules.specs.Streams as rules;

    ghost Value = { rules.Streamed };

    ghost view = { λ a.
        record {
          taken = a.taken.items;
          put = a.put.items;
          faults = a.faults;
          empties = a.empties;
          waits = a.waits;
        } };
}

impl Streamed {
    /// Of a stream that was just opened. It takes no memory yet.
    pub fn new(alloc: Global) -> Streamed
        ensures { result ≡ nothing_streamed }
    {
        Streamed {
            taken: Vec::new(alloc),
            put: Vec::new(alloc),
            faults: 0,
            empties: 0,
            waits: 0,
        }
    }

    /// The counts after an answer to a read or a write.
    fn count(&mut self, request: &Request, reply: &Reply) -> Result<(), NoMemory>
        ensures { OnOk result (self.new ≡ counted request.now reply.now self.old) }
    {
        self.faults = one_if(has_result(1, reply), self.faults)?;
        self.empties = one_if(is_empty_answer(request, reply), self.empties)?;
        Ok(())
    }

    /// After an answer to a read.
    fn after_read(&mut self, request: &Request, reply: &Reply) -> Result<(), NoMemory>
        ensures { OnOk result (self.new ≡ after_answer ReadStream request.now reply.now self.old) }
    {
        self.count(request, reply)?;
        self.taken.extend_from_slice(bytes_read(reply))?;
        Ok(())
    }

    /// After an answer to a write.
    fn after_write(&mut self, request: &Request, reply: &Reply) -> Result<(), NoMemory>
        ensures { OnOk result (self.new ≡ after_answer WriteStream request.now reply.now self.old) }
    {
        self.count(request, reply)?;
        self.put.extend_from_slice(bytes_written(request, reply))?;
        Ok(())
    }

    /// After an answer to a call.
    fn after_answer(
        &mut self,
        call: HostCall,
        request: &Request,
        reply: &Reply,
    ) -> Result<(), NoMemory>
        ensures { OnOk result (self.new ≡ after_answer (shown_call call) request.now reply.now self.old) }
    {
        match call {
            HostCall::ReadStream => self.after_read(request, reply),
            HostCall::WriteStream => self.after_write(request, reply),
            _ => Ok(()),
        }
    }

    /// After a call that the stream could not answer yet.
    fn after_pending(&mut self, call: HostCall) -> Result<(), NoMemory>
        ensures { OnOk result (self.new ≡ after_pending (shown_call call) self.old) }
    {
        match call {
            HostCall::ReadStream | HostCall::WriteStream => {
                self.waits = self.waits.checked_add(1).ok_or(NoMemory)?;
                Ok(())
            }
            _ => Ok(()),
        }
    }

    /// After what came beside a call.
    pub(crate) fn after_side(
        &mut self,
        call: HostCall,
        request: &Request,
        side: &Side,
    ) -> Result<(), NoMemory>
        ensures { OnOk result (self.new ≡ after_side (shown_call call) request.now side.now self.old) }
    {
        match side {
            Side::Answer(reply) => self.after_answer(call, request, reply),
            Side::Pending => self.after_pending(call),
            _ => Ok(()),
        }
    }
}
