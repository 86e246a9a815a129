//! What an engine tells of its machine's memory.
ghost use Rattle.std.specs.Prelude.{◌≡◌, ◌*◌, ◌≤◌, length, option_copied};
ghost use Rattle.host_port.specs.Areas.{IsRead};
ghost use Rattle.host_port.specs.Memory.{pages_of, mark_of};
ghost use Rattle.tree_machine.specs.Config.{bytes_of};

use flat_stepper::Machine;

/// The `len` bytes from the address on; nothing exactly where they pass the end. Without a memory there are no bytes.
pub(crate) fn read(machine: &Machine, addr: u32, len: u32) -> Option<&[u8]>
    ensures { IsRead (bytes_of machine.now.memory) (record { addr = addr; len = len }) (option_copied result) }
{
    match machine.memory() {
        Some(memory) => memory.slice(addr, len),
        None => {
            if addr == 0 && len == 0 {
                Some(&[])
            } else {
                None
            }
        }
    }
}

/// The number of pages.
pub(crate) fn pages(machine: &Machine) -> u32
    ensures pages { result ≡ pages_of (bytes_of machine.now.memory) }
    ensures whole { length (bytes_of machine.now.memory) ≡ 65536 * result }
    ensures few { result ≤ 1024 }
{
    match machine.memory() {
        Some(memory) => memory.pages(),
        None => 0,
    }
}

/// The mark of the bytes.
pub(crate) fn mark(machine: &Machine) -> u64
    ensures { result ≡ mark_of (bytes_of machine.now.memory) }
{
    match machine.memory() {
        Some(memory) => memory.mark(),
        None => 0,
    }
}
