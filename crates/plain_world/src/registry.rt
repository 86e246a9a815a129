ghost use Rattle.std.specs.Prelude.{◌≡◌, OnOk};
ghost use Rattle.world_rules.specs.Registry.{put_answer, put_performed, get_performed, remove_performed};
ghost use Rattle.plain_world.specs.Shown.{shown_world};

use crate::PlainWorld;
use crate::replies::{empty_reply, number_reply, written_reply};
use crate::send::unless_refused;
use host_port::Request;
use memory_refusal::NoMemory;

impl PlainWorld {
    /// What a put of this process answers: 1 exactly where no live process has the number, else 0 or 12.
    pub(crate) fn put_answer(&self, named: u64, refused: bool) -> u64
        ensures { result ≡ put_answer (shown_world self.now) named refused }
    {
        if self.is_live(named) {
            unless_refused(refused, 0)
        } else {
            1
        }
    }

    /// Put: with the answer 0 the name names the process, in place of an earlier one.
    pub(crate) fn register(
        &mut self,
        pid: u64,
        request: &Request,
        refused: bool,
    ) -> Result<(), NoMemory>
        ensures { OnOk result (shown_world self.new ≡
            put_performed (shown_world self.old) pid request.now refused) }
    {
        let named = request.ask.args[2];
        let answer = self.put_answer(named, refused);
        if answer == 0 {
            self.set_name(&request.first, Some(named))?;
            return self.reply(pid, request, number_reply(0));
        }
        self.reply(pid, request, number_reply(answer))
    }

    /// Get: 0 with the number at `id`, or 1 exactly where the name isn't there.
    pub(crate) fn look_up(&mut self, pid: u64, request: &Request) -> Result<(), NoMemory>
        ensures { OnOk result (shown_world self.new ≡ get_performed (shown_world self.old) pid request.now) }
    {
        match self.name(&request.first) {
            Some(named) => {
                let reply = written_reply(0, request.ask.args[2], named)?;
                self.reply(pid, request, reply)
            }
            None => self.reply(pid, request, number_reply(1)),
        }
    }

    /// Remove: the name is taken out, if it is there.
    pub(crate) fn unregister(&mut self, pid: u64, request: &Request) -> Result<(), NoMemory>
        ensures { OnOk result (shown_world self.new ≡ remove_performed (shown_world self.old) pid request.now) }
    {
        self.set_name(&request.first, None)?;
        self.reply(pid, request, empty_reply())
    }
}
