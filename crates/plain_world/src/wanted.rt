ghost use Rattle.std.specs.Prelude.{◌≡◌, length};
ghost use Rattle.std.specs.Int.{from_le_bytes, w64};
ghost use Rattle.world_rules.specs.Mail.{tag_of, tags_in, is_wanted};
ghost use Rattle.plain_part.specs.Shown.{shown_item};
ghost use Rattle.plain_world.specs.Picked.{Finds};

use plain_part::MailItem;

/// The number that eight bytes spell, the lowest byte first.
fn tag_in(bytes: &[u8]) -> u64
    requires { length bytes.now ≡ 8 }
    ensures { result ≡ from_le_bytes w64 bytes.now }
{
    u64::from_le_bytes([
        bytes[0], bytes[1], bytes[2], bytes[3], bytes[4], bytes[5], bytes[6], bytes[7],
    ])
}

/// The tag is among those that the bytes spell, or they spell none.
pub(crate) fn is_wanted_by(tags: &[u8], tag: u64) -> bool
    ensures { result ≡ is_wanted (tags_in tags.now) tag }
{
    if tags.len() < 8 {
        return true;
    }
    let mut rest = tags;
    while rest.len() >= 8 {
        let (front, later) = rest.split_at(8);
        if tag_in(front) == tag {
            return true;
        }
        rest = later;
    }
    false
}

/// The tag of a message, or of the link whose signal it is.
pub(crate) fn tag_of(item: &MailItem) -> u64
    ensures { result ≡ tag_of (shown_item item.now) }
{
    match item {
        MailItem::Letter(_, message) => message.tag(),
        MailItem::Signal(tag) => *tag,
    }
}

/// The place of the first item that is wanted.
pub(crate) fn first_wanted(tags: &[u8], mail: &[MailItem]) -> Option<usize>
    ensures { Finds (tags_in tags.now) mail.now result }
{
    for (k, item) in mail.iter().enumerate() {
        if is_wanted_by(tags, tag_of(item)) {
            return Some(k);
        }
    }
    None
}
