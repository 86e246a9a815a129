ghost use Rattle.std.specs.Prelude.{◌≡◌, Some, OnOk};
ghost use Rattle.std.specs.Option.{option_map_or};
ghost use Rattle.world_rules.specs.Calls.{call_of};
ghost use Rattle.world_rules.specs.Local.{
  local,
  answer_of,
  part_of,
  part_after,
  local_part,
  part_from,
  after_write,
  after_read,
  after_push,
  after_take,
  changed_config,
  with_pages,
  with_fuel,
};
ghost use Rattle.world_rules.specs.Part.{blank_message, unread, slots_of, handle_at, read_to};
ghost use Rattle.world_rules.specs.Part.{with_handles, without_number};
ghost use Rattle.plain_part.specs.Shown.{shown_part, shown_call};

use crate::configs::config_at;
use crate::numbers::without_number;
use crate::{HostCall, Judgement, Message, PlainPart, Scratch, argument, call_of, is_local};
use host_port::{Call, Limits, Request, Start};
use memory_refusal::NoMemory;

impl PlainPart {
    /// What a local request that is judged fit makes of the part; any other request leaves it as it is.
    pub fn run_local(&mut self, start: &Start, request: &Request) -> Result<(), NoMemory>
        ensures { OnOk result (shown_part self.new ≡
            part_of (shown_part self.old) (local start.now (shown_part self.old) request.now)) }
    {
        if !is_local(request) {
            return Ok(());
        }
        match self.judge(start, request) {
            Judgement::Fit => self.run_fit(start, request),
            Judgement::Overdrawn => Ok(()),
            Judgement::Faulty(_) => Ok(()),
        }
    }

    /// What a request makes of the part by its call's name.
    fn run_fit(&mut self, start: &Start, request: &Request) -> Result<(), NoMemory>
        ensures { OnOk result (shown_part self.new ≡
            part_of (shown_part self.old)
            (answer_of (call_of request.now) start.now (shown_part self.old) request.now)) }
    {
        match call_of(request) {
            Some(call) => {
                self.charge(request)?;
                self.run_call(call, start, request)
            }
            None => Ok(()),
        }
    }

    /// The part after these local calls.
    pub fn run_all_local(&mut self, start: &Start, calls: &[Call]) -> Result<(), NoMemory>
        ensures { OnOk result (shown_part self.new ≡ part_after start.now (shown_part self.old) calls.now) }
    {
        for call in calls {
            self.run_local(start, &call.request)?;
        }
        Ok(())
    }

    /// What a local call makes of the part.
    fn run_call(&mut self, call: HostCall, start: &Start, request: &Request) -> Result<(), NoMemory>
        ensures { OnOk result (shown_part self.new ≡
            local_part (shown_call call) start.now (shown_part self.old) request.now) }
    {
        match call {
            HostCall::CreateData => {
                self.create_data(argument(request, 0));
                Ok(())
            }
            HostCall::WriteData => self.write_data(request),
            HostCall::ReadData => {
                self.read_data(request);
                Ok(())
            }
            HostCall::SeekData => {
                self.seek_data(argument(request, 0));
                Ok(())
            }
            HostCall::PushStream => self.push_stream(argument(request, 0)),
            HostCall::TakeStream => self.take_stream(argument(request, 0)),
            HostCall::CreateConfig => self.add_config(start.limits),
            HostCall::DropConfig => {
                self.remove_config(argument(request, 0));
                Ok(())
            }
            HostCall::SetMaxMemory => {
                self.set_max_memory(start, argument(request, 0), argument(request, 1));
                Ok(())
            }
            HostCall::SetMaxFuel => {
                self.set_max_fuel(start, argument(request, 0), argument(request, 1));
                Ok(())
            }
            HostCall::DropStream => self.drop_stream(argument(request, 0)),
            HostCall::DropListener => self.drop_listener(argument(request, 0)),
            _ => Ok(()),
        }
    }

    /// A new scratch message of this tag.
    fn create_data(&mut self, tag: u64)
        ensures { shown_part self.new ≡ record (shown_part self.old) { scratch = Some (unread (blank_message tag)) } }
    {
        let message = Message::new(*self.handles.allocator(), tag);
        self.scratch = Some(Scratch::unread(message));
    }

    /// A write puts its bytes behind the others.
    fn write_data(&mut self, request: &Request) -> Result<(), NoMemory>
        ensures { OnOk result (shown_part self.new ≡
            part_from (shown_part self.old).scratch (after_write request.now (shown_part self.old))
            (shown_part self.old)) }
    {
        match &mut self.scratch {
            Some(scratch) => scratch.write(request.first.as_slice()),
            None => Ok(()),
        }
    }

    /// A read moves the read place.
    fn read_data(&mut self, request: &Request)
        ensures { shown_part self.new ≡
            part_from (shown_part self.old).scratch (after_read request.now (shown_part self.old))
            (shown_part self.old) }
    {
        match &mut self.scratch {
            Some(scratch) => scratch.read(argument(request, 1)),
            None => {}
        }
    }

    /// A seek sets the read place.
    fn seek_data(&mut self, place: u64)
        ensures { shown_part self.new ≡ read_to place (shown_part self.old) }
    {
        match &mut self.scratch {
            Some(scratch) => scratch.seek(place),
            None => {}
        }
    }

    /// A push moves the stream from the table into the next slot.
    fn push_stream(&mut self, handle: u64) -> Result<(), NoMemory>
        ensures { OnOk result (shown_part self.new ≡ after_push handle (shown_part self.old)) }
    {
        self.drop_stream(handle)?;
        match &mut self.scratch {
            Some(scratch) => scratch.push_stream(handle),
            None => Ok(()),
        }
    }

    /// A take moves the stream from its slot into the table.
    fn take_stream(&mut self, place: u64) -> Result<(), NoMemory>
        ensures { OnOk result (shown_part self.new ≡
            option_map_or (after_take place (shown_part self.old))
            (handle_at (slots_of (shown_part self.old).scratch) place) (shown_part self.old)) }
    {
        match &mut self.scratch {
            Some(scratch) => match scratch.take_stream(place) {
                Some(handle) => self.open_stream(handle),
                None => Ok(()),
            },
            None => Ok(()),
        }
    }

    /// The limits of a config, with at most so many pages.
    fn set_max_memory(&mut self, start: &Start, number: u64, pages: u64)
        ensures { shown_part self.new ≡ changed_config number (with_pages start.now pages) (shown_part self.old) }
    {
        let Some(limits) = config_at(&self.configs, number) else {
            return;
        };
        self.change_config(number, with_pages(start, pages, limits));
    }

    /// The limits of a config, with at most so much fuel.
    fn set_max_fuel(&mut self, start: &Start, number: u64, fuel: u64)
        ensures { shown_part self.new ≡ changed_config number (with_fuel start.now fuel) (shown_part self.old) }
    {
        let Some(limits) = config_at(&self.configs, number) else {
            return;
        };
        self.change_config(number, with_fuel(start, fuel, limits));
    }

    /// The stream is no longer in the table.
    fn drop_stream(&mut self, handle: u64) -> Result<(), NoMemory>
        ensures { OnOk result (shown_part self.new ≡
            with_handles (without_number handle (shown_part self.old).handles) (shown_part self.old)) }
    {
        self.handles = without_number(*self.handles.allocator(), handle, &self.handles)?;
        Ok(())
    }

    /// The listener is no longer the process's.
    fn drop_listener(&mut self, listener: u64) -> Result<(), NoMemory>
        ensures { OnOk result (shown_part self.new ≡
            record (shown_part self.old) { listeners = without_number listener (shown_part self.old).listeners }) }
    {
        self.listeners = without_number(*self.listeners.allocator(), listener, &self.listeners)?;
        Ok(())
    }
}

/// The limits with so many pages, but never more than the process's own.
fn with_pages(start: &Start, pages: u64, limits: Limits) -> Limits
    ensures { result ≡ with_pages start.now pages limits }
{
    let most = start.limits.pages();
    let few = if pages < u64::from(most) {
        pages as u32
    } else {
        most
    };
    Limits::new(few, limits.fuel(), limits.traffic())
}

/// The limits with so much fuel, but never more than the process's own.
fn with_fuel(start: &Start, fuel: u64, limits: Limits) -> Limits
    ensures { result ≡ with_fuel start.now fuel limits }
{
    Limits::new(
        limits.pages(),
        fuel.min(start.limits.fuel()),
        limits.traffic(),
    )
}
