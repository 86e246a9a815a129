ghost use Rattle.std.specs.Prelude.{◌≡◌, true};

use crate::{Mailbox, PutRefused, Tagged};
use std::test::Fail;

/// An item with its tag, which counts or does not.
#[derive(Clone, Copy, Debug, PartialEq, Eq)]
struct Item {
    tag: u64,
    counts: bool,
}

impl Tagged for Item {
    ghost tag = { λ item. item.tag };

    ghost counts = { λ item. item.counts };

    fn tag(&self) -> u64 {
        self.tag
    }

    fn counts(&self) -> bool {
        self.counts
    }
}

/// An item that counts.
fn counting(tag: u64) -> Item
    ensures { result ≡ record { tag = tag; counts = true } }
{
    Item { tag, counts: true }
}

#[test]
fn picks_by_tag(rt: HostRuntime) -> Result<(), Fail> {
    let mut mailbox = Mailbox::new(rt.alloc());
    for tag in [5, 7, 6] {
        assert!(rt; mailbox.put(counting(tag)).is_ok());
    }
    let seven = [7, 0, 0, 0, 0, 0, 0, 0];
    assert_eq!(rt; mailbox.pick(&seven), Some(counting(7)));
    assert_eq!(rt; mailbox.pick(&[]), Some(counting(5)));
    assert_eq!(rt; mailbox.pick(&seven), None);
    assert_eq!(rt; mailbox.pop(), Some(counting(6)));
    assert_eq!(rt; mailbox.pop(), None);
    Ok(())
}

#[test]
fn is_full_at_the_limit(rt: HostRuntime) -> Result<(), Fail> {
    let mut mailbox = Mailbox::new(rt.alloc());
    for tag in 0..1024 {
        assert!(rt; mailbox.put(counting(tag)).is_ok());
    }
    assert!(rt; mailbox.full());
    assert!(rt; matches!(mailbox.put(counting(1024)), Err(PutRefused::Full(_))));
    mailbox.reserve(9)?;
    mailbox.put_reserved(Item {
        tag: 9,
        counts: false,
    });
    assert_eq!(rt; mailbox.pick(&[]), Some(counting(0)));
    assert!(rt; mailbox.put(counting(1024)).is_ok());
    Ok(())
}
