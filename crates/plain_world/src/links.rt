ghost use Rattle.std.specs.Prelude.{◌≡◌, OnOk};
ghost use Rattle.world_rules.specs.World.{is_live, with_process};
ghost use Rattle.world_rules.specs.Ends.{all_struck, closed_with_first};
ghost use Rattle.world_rules.specs.Links.{
  link_answer,
  link_performed,
  unlink_performed,
  die_performed,
  all_told,
  ended_by_halt,
  killed,
  kill_performed,
};
ghost use Rattle.world_rules.specs.declared.halt.End.TheVariants as EndIs;
ghost use Rattle.plain_world.specs.Shown.{shown_world};

use crate::falls::Fall;
use crate::replies::{empty_reply, number_reply};
use crate::{PlainWorld, Told};
use host_port::Request;
use memory_refusal::NoMemory;
use plain_part::{MailItem, argument};
use world_rules::End;

impl PlainWorld {
    /// What a link is answered: 1 where the number is the caller's own or no live process has it, else 0 or 12.
    pub(crate) fn link_answer(&self, pid: u64, other: u64, refused: bool) -> u64
        ensures { result ≡ link_answer (shown_world self.now) pid other refused }
    {
        if other == pid {
            return 1;
        }
        if !self.is_live(other) {
            return 1;
        }
        if refused {
            return 12;
        }
        0
    }

    /// With the answer 0 both sides have the tag, in place of an earlier one.
    pub(crate) fn link(
        &mut self,
        pid: u64,
        request: &Request,
        refused: bool,
    ) -> Result<(), NoMemory>
        ensures { OnOk result (shown_world self.new ≡ link_performed (shown_world self.old) pid request.now refused) }
    {
        let other = argument(request, 1);
        let answer = self.link_answer(pid, other, refused);
        if answer == 0 {
            self.set_link(pid, other, Some(argument(request, 0)))?;
            return self.reply(pid, request, number_reply(0));
        }
        self.reply(pid, request, number_reply(answer))
    }

    /// The link goes on both sides, if there is one.
    pub(crate) fn unlink(&mut self, pid: u64, request: &Request) -> Result<(), NoMemory>
        ensures { OnOk result (shown_world self.new ≡ unlink_performed (shown_world self.old) pid request.now) }
    {
        self.set_link(pid, argument(request, 0), None)?;
        self.reply(pid, request, empty_reply())
    }

    /// The process dies with links, or asks for signals.
    fn set_dies(&mut self, pid: u64, dies: bool) -> Result<(), NoMemory>
        ensures { OnOk result (shown_world self.new ≡ with_process (shown_world self.old) pid
            (record ((shown_world self.old).process pid) { dies = dies })) }
    {
        let mut process = self.take_process(pid);
        process.dies = dies;
        self.put_process(pid, process)
    }

    /// 0 asks for signals, any other number for dying with links.
    pub(crate) fn mind_links(&mut self, pid: u64, request: &Request) -> Result<(), NoMemory>
        ensures { OnOk result (shown_world self.new ≡ die_performed (shown_world self.old) pid request.now) }
    {
        self.set_dies(pid, argument(request, 0) != 0)?;
        self.reply(pid, request, empty_reply())
    }

    /// The signals are put, in this order.
    fn tell_all(&mut self, told: &[Told]) -> Result<(), NoMemory>
        ensures { OnOk result (shown_world self.new ≡ all_told (shown_world self.old) told.now) }
    {
        for signal in told {
            self.arrive(signal.to(), MailItem::Signal(signal.tag()))?;
        }
        Ok(())
    }

    /// Those who fall end Linked; then the signals are put; and where process 1 is among the ended, all others end
    /// Closed.
    fn fall(&mut self, fall: &Fall) -> Result<(), NoMemory>
        ensures { OnOk result (shown_world self.new ≡ closed_with_first
            (all_told (all_struck (shown_world self.old) fall.now.others.items EndIs.Linked) fall.now.told.items)) }
    {
        self.strike_all(&fall.others, End::Linked)?;
        self.tell_all(&fall.told)?;
        self.close_with_first()
    }

    /// The process ends by its own halt.
    pub(crate) fn end_by_halt(&mut self, pid: u64, end: End) -> Result<(), NoMemory>
        ensures { OnOk result (shown_world self.new ≡ ended_by_halt (shown_world self.old) pid end) }
    {
        let fall = self.fall_of(pid, end)?;
        self.end(pid, end)?;
        self.fall(&fall)
    }

    /// A live process that is killed ends, or is doomed where it is out.
    fn kill_process(&mut self, pid: u64) -> Result<(), NoMemory>
        ensures { OnOk result (shown_world self.new ≡
            killed (is_live ((shown_world self.old).process pid).stage) (shown_world self.old) pid) }
    {
        if self.is_live(pid) {
            let fall = self.fall_of(pid, End::Killed)?;
            self.strike(pid, End::Killed)?;
            return self.fall(&fall);
        }
        Ok(())
    }

    /// A live process of that number ends Killed; a caller that thereby ends gets no reply.
    pub(crate) fn kill(&mut self, pid: u64, request: &Request) -> Result<(), NoMemory>
        ensures { OnOk result (shown_world self.new ≡ kill_performed (shown_world self.old) pid request.now) }
    {
        self.kill_process(argument(request, 0))?;
        self.reply(pid, request, empty_reply())
    }
}
