ghost use Rattle.std.specs.Prelude.{◌≡◌, ◌%◌, length, position};
ghost use Rattle.tagged_mailbox.specs.Pick.{is_named, is_wanted};

use crate::Tagged;

/// Whether the tag is among those that `tags` names, eight little-endian bytes each.
fn is_named(tags: &[u8], tag: u64) -> bool
    ensures { result ≡ is_named tags.now tag }
{
    let mut left = tags;
    while let [a, b, c, d, e, f, g, h, rest @ ..] = left {
        if u64::from_le_bytes([*a, *b, *c, *d, *e, *f, *g, *h]) == tag {
            return true;
        }
        left = rest;
    }
    false
}

/// Whether a tag is wanted: one that `tags` names, eight little-endian bytes each, and any where it is empty.
pub fn is_wanted(tags: &[u8], tag: u64) -> bool
    ensures { result ≡ is_wanted tags.now tag }
{
    tags.is_empty() || is_named(tags, tag)
}

/// The place of the first item whose tag is wanted.
pub(crate) fn first_wanted<M: Tagged>(items: &[M], tags: &[u8]) -> Option<usize>
    ensures { result ≡ position (λ item. is_wanted tags.now (M.tag item)) items.now }
{
    items.iter().position(|item| is_wanted(tags, item.tag()))
}
