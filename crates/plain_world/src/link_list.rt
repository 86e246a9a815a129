ghost use Rattle.std.specs.Prelude.{◌≡◌, ◌&&◌, ◌||◌, OnOk, None, filter, not, nat_eq, if◌then◌else◌};
ghost use Rattle.plain_world.specs.Shown.{tag_in};

use crate::PlainLink;
use memory_refusal::NoMemory;

/// The tag of the link of two processes, the lesser number first.
pub(crate) fn tag_between(links: &[PlainLink], low: u64, high: u64) -> Option<u64>
    ensures { result ≡ tag_in links.now low high }
{
    links
        .iter()
        .find(|link| low == link.low && high == link.high)
        .map(|link| link.tag)
}

/// The links without that of two processes.
fn remove_link(links: &mut Vec<PlainLink>, low: u64, high: u64)
    ensures { links.new.items ≡ filter (λ link. not (nat_eq link.low low && nat_eq link.high high)) links.old.items }
{
    links.retain(|link| !(link.low == low && link.high == high));
}

/// The links without those of a process.
fn remove_links(links: &mut Vec<PlainLink>, pid: u64)
    ensures { links.new.items ≡ filter (λ link. not (nat_eq link.low pid || nat_eq link.high pid)) links.old.items }
{
    links.retain(|link| !(link.low == pid || link.high == pid));
}

/// Two processes have this link, or none; the lesser number first.
pub(crate) fn set_tag(
    links: &mut Vec<PlainLink>,
    low: u64,
    high: u64,
    tag: Option<u64>,
) -> Result<(), NoMemory>
    ensures { OnOk result (tag_in links.new.items ≡
        (λ c d. if nat_eq c low && nat_eq d high then tag else tag_in links.old.items c d)) }
{
    remove_link(links, low, high);
    if let Some(tag) = tag {
        links.push(PlainLink { low, high, tag })?;
    }
    Ok(())
}

/// A process has no links.
pub(crate) fn cut_links(links: &mut Vec<PlainLink>, pid: u64)
    ensures { tag_in links.new.items ≡
        (λ a b. if nat_eq a pid || nat_eq b pid then None else tag_in links.old.items a b) }
{
    remove_links(links, pid);
}
