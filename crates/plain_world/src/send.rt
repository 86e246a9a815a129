ghost use Rattle.std.specs.Prelude.{◌≡◌, IfOk, OnOk, option_map, is_some};
ghost use Rattle.world_rules.specs.Part as rules;
ghost use Rattle.world_rules.specs.Changes.{with_part};
ghost use Rattle.world_rules.specs.Receive.{unless_refused, send_answer, sent_off, sent, send_performed};
ghost use Rattle.world_rules.specs.Settled.{settled, SentOff};
ghost use Rattle.plain_world.specs.Shown.{shown_world};

use crate::replies::number_reply;
use crate::{PlainMove, PlainWorld};
use host_port::Request;
use memory_refusal::NoMemory;
use plain_part::{MailItem, Message};

/// 12 where memory was refused, else the number.
pub(crate) fn unless_refused(refused: bool, number: u64) -> u64
    ensures { result ≡ unless_refused refused number }
{
    if refused { 12 } else { number }
}

impl PlainWorld {
    /// What a send to this process answers: 1 exactly where no live process has the number, else 2 exactly where its
    /// mailbox holds 1,024 messages, else 0 or 12.
    pub(crate) fn send_answer(&self, to: u64, refused: bool) -> u64
        ensures { result ≡ send_answer ((shown_world self.now).process to) refused }
    {
        if !self.is_live(to) {
            return 1;
        }
        let Some(process) = self.at(to) else {
            return 1;
        };
        if process.mail.message_count() < 1024 {
            unless_refused(refused, 0)
        } else {
            2
        }
    }

    /// The scratch message leaves the scratch area of the process, if there is one.
    fn let_go(&mut self, pid: u64) -> Result<Option<Message>, NoMemory>
        ensures message { IfOk result (λ message. message ≡
            option_map (λ (s : rules.Scratch). s.message) ((shown_world self.old).process pid).part.scratch) }
        ensures left { OnOk result (shown_world self.new ≡
            with_part (shown_world self.old) pid (settled ((shown_world self.old).process pid).part SentOff)) }
    {
        let mut process = self.take_process(pid);
        let message = process.part.take_message();
        self.put_process(pid, process)?;
        Ok(message)
    }

    /// The scratch message is on its way, counted among the sends that were answered 0.
    fn send_off(&mut self, pid: u64, to: u64) -> Result<Option<Message>, NoMemory>
        ensures message { IfOk result (λ message. message ≡
            option_map (λ (s : rules.Scratch). s.message) ((shown_world self.old).process pid).part.scratch) }
        ensures sent { OnOk result (shown_world self.new ≡ sent_off (shown_world self.old) pid to) }
    {
        let number = self.sends;
        let Some(sends) = number.checked_add(1) else {
            return Err(NoMemory);
        };
        let message = self.let_go(pid)?;
        self.add_move(PlainMove::Sent {
            from: pid,
            to,
            message: number,
        })?;
        self.sends = sends;
        Ok(message)
    }

    /// The message leaves the scratch area, the sender is answered 0, and the message arrives under the next number.
    fn send_scratch(&mut self, pid: u64, to: u64, request: &Request) -> Result<(), NoMemory>
        ensures { OnOk result (shown_world self.new ≡
            sent (shown_world self.old) pid to request.now ((shown_world self.old).process pid).part.scratch) }
    {
        if !self.has_scratch(pid) {
            return Ok(());
        }
        let number = self.sends;
        let Some(message) = self.send_off(pid, to)? else {
            return Ok(());
        };
        self.reply(pid, request, number_reply(0))?;
        self.arrive(to, MailItem::Letter(number, message))
    }

    /// The process has a scratch message.
    fn has_scratch(&self, pid: u64) -> bool
        ensures { result ≡ is_some ((shown_world self.now).process pid).part.scratch }
    {
        match self.at(pid) {
            Some(process) => process.part.scratch.is_some(),
            None => false,
        }
    }

    /// Send: with the answer 0 the message is sent; with any other it stays in the scratch area.
    pub(crate) fn send(
        &mut self,
        pid: u64,
        request: &Request,
        refused: bool,
    ) -> Result<(), NoMemory>
        ensures { OnOk result (shown_world self.new ≡
            send_performed (shown_world self.old) pid request.now refused) }
    {
        let to = request.ask.args[0];
        let answer = self.send_answer(to, refused);
        if answer == 0 {
            return self.send_scratch(pid, to, request);
        }
        self.reply(pid, request, number_reply(answer))
    }
}
