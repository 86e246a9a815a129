ghost use Rattle.std.specs.Prelude.{◌≡◌, OnOk, filter, find, option_map, not, if◌then◌else◌};
ghost use Rattle.host_port.specs.HostTable.{same_text};
ghost use Rattle.world_rules.specs.Ends.{unless_process};
ghost use Rattle.plain_world.specs.Shown.{named_in};

use crate::PlainName;
use host_port::Bytes;
use memory_refusal::NoMemory;

/// What the first entry of a name says.
fn entry_of(names: &[PlainName], text: &[u8]) -> Option<Option<u64>>
    ensures { result ≡ option_map (λ name. name.pid) (find (λ name. same_text text.now name.text) names.now) }
{
    names
        .iter()
        .find(|name| text == name.text.as_slice())
        .map(|name| name.pid)
}

/// What a name names.
pub(crate) fn named(names: &[PlainName], text: &[u8]) -> Option<u64>
    ensures { result ≡ named_in names.now text.now }
{
    entry_of(names, text).flatten()
}

/// The names without this one.
fn remove_name(names: &mut Vec<PlainName>, text: &Bytes)
    ensures { names.new.items ≡ filter (λ name. not (same_text name.text text.now)) names.old.items }
{
    names.retain(|name| name.text.as_slice() != text.as_slice());
}

/// A name names this process, or none.
pub(crate) fn set_named(
    names: &mut Vec<PlainName>,
    text: &Bytes,
    pid: Option<u64>,
) -> Result<(), NoMemory>
    ensures { OnOk result (named_in names.new.items ≡
        (λ other. if same_text other text.now then pid else named_in names.old.items other)) }
{
    remove_name(names, text);
    if let Some(pid) = pid {
        names.push(PlainName {
            text: text.try_clone()?,
            pid: Some(pid),
        })?;
    }
    Ok(())
}

/// What is named, unless it is this process.
fn unless_process(pid: u64, named: Option<u64>) -> Option<u64>
    ensures { result ≡ unless_process pid named }
{
    match named {
        Some(other) => { if other == pid { None } else { Some(other) } }
        None => None,
    }
}

/// No name names this process.
pub(crate) fn forget(names: &mut [PlainName], pid: u64)
    ensures { named_in names.new ≡ (λ name. unless_process pid (named_in names.old name)) }
{
    for name in names.iter_mut() {
        name.pid = unless_process(pid, name.pid);
    }
}
