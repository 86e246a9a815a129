ghost use Rattle.std.specs.Prelude.{◌≡◌, ◌≤◌, OnOk, OnErr, length};
ghost use Rattle.world_rules.specs.World.{put};
ghost use Rattle.plain_world.specs.ShownProcess.{nobody, process_in, shown_process};

use crate::PlainProcess;
use memory_refusal::NoMemory;
use std::alloc::Global;
use std::mem::replace;

/// Takes the process of this number out of the list; then nobody has the number.
pub(crate) fn take_at(alloc: Global, processes: &mut Vec<PlainProcess>, pid: u64) -> PlainProcess
    ensures taken { shown_process result ≡ process_in processes.old.items pid }
    ensures left { process_in processes.new.items ≡ put (process_in processes.old.items) pid nobody }
{
    let nobody = PlainProcess::unborn(alloc);
    let at = pid as usize;
    if at < processes.len() {
        return replace(&mut processes[at], nobody);
    }
    nobody
}

/// Processes that nobody was born with, so that the list is at least so long.
fn fill(alloc: Global, processes: &mut Vec<PlainProcess>, len: usize) -> Result<(), NoMemory>
    ensures same { process_in processes.new.items ≡ process_in processes.old.items }
    ensures long { OnOk result (len ≤ length processes.new.items) }
{
    'filling: while processes.len() < len {
        processes.push(PlainProcess::unborn(alloc))?;
    }
    Ok(())
}

/// Puts a process in the place of this number.
pub(crate) fn put_at(
    alloc: Global,
    processes: &mut Vec<PlainProcess>,
    pid: u64,
    process: PlainProcess,
) -> Result<(), NoMemory>
    ensures put_in { OnOk result (process_in processes.new.items ≡
        put (process_in processes.old.items) pid (shown_process process)) }
    ensures same { OnErr result (process_in processes.new.items ≡ process_in processes.old.items) }
{
    let at = pid as usize;
    fill(alloc, processes, at)?;
    if at < processes.len() {
        let _earlier = replace(&mut processes[at], process);
        return Ok(());
    }
    processes.push(process)?;
    Ok(())
}
