ghost use Rattle.std.specs.Prelude.{◌≡◌, ◌++◌, string_bytes, OnOk, IfOk};
ghost use Rattle.world_rules.specs.Report.{end_line, total_text, printed, printed_by};
ghost use Rattle.world_rules.specs.Calls.{call_of};

use crate::report_words::{push_end, push_field};
use host_port::Call;
use memory_refusal::NoMemory;
use plain_part::{HostCall, call_of};
use std::alloc::Global;
use world_rules::{End, Ended};

/// The line of one end.
pub fn push_end_line(
    text: &mut Vec<u8>,
    pid: u64,
    end: End,
    fuel: u64,
    memory: &Ended,
) -> Result<(), NoMemory>
    ensures { OnOk result (text.new.items ≡
        text.old.items ++ end_line (record { pid = pid; end = end }) fuel memory.now) }
{
    let mut line = String::new(*text.allocator());
    push_field(&mut line, "process ", pid)?;
    line.push_str(" ")?;
    push_end(&mut line, end)?;
    push_field(&mut line, " fuel ", fuel)?;
    push_field(&mut line, " pages ", u64::from(memory.pages))?;
    push_field(&mut line, " mark ", memory.mark)?;
    line.push_str("\n")?;
    text.extend_from_slice(line.as_bytes())?;
    Ok(())
}

/// The last line.
pub fn push_total(
    text: &mut Vec<u8>,
    processes: u64,
    messages: u64,
    streams: u64,
) -> Result<(), NoMemory>
    ensures { OnOk result (text.new.items ≡ text.old.items ++ total_text processes messages streams) }
{
    let mut line = String::new(*text.allocator());
    push_field(&mut line, "total processes ", processes)?;
    push_field(&mut line, " messages ", messages)?;
    push_field(&mut line, " streams ", streams)?;
    line.push_str("\n")?;
    text.extend_from_slice(line.as_bytes())?;
    Ok(())
}

/// What this call printed, if it did.
fn push_printed_by(text: &mut Vec<u8>, call: &Call) -> Result<(), NoMemory>
    ensures { OnOk result (text.new.items ≡ text.old.items ++ printed_by (call_of call.now.request) call.now) }
{
    if let Some(HostCall::Print) = call_of(&call.request) {
        text.extend_from_slice(call.request.first.as_slice())?;
    }
    Ok(())
}

/// What these calls printed.
pub fn push_printed(text: &mut Vec<u8>, calls: &[Call]) -> Result<(), NoMemory>
    ensures { OnOk result (text.new.items ≡ text.old.items ++ printed calls.now) }
{
    for call in calls {
        push_printed_by(text, call)?;
    }
    Ok(())
}
