ghost use Rattle.std.specs.Prelude.{◌≡◌, ◌≤◌, [], ◌∷◌, ◌++◌, length, option_map, OnOk};
ghost use Rattle.world_rules.specs.Mail.{
  item_handles,
  mail_handles,
  tags_in,
  pick,
  unpicked,
  is_message,
  message_count,
};
ghost use Rattle.plain_part.specs.Shown.{shown_item, shown_mail};

use crate::wanted::first_wanted;
use memory_refusal::NoMemory;
use plain_part::{MailItem, push_handles_in};
use std::alloc::Global;
use std::marker::Model;

/// A mailbox, the oldest item first.
#[derive(Debug, Drop)]
pub struct Mailbox {
    items: Vec<MailItem>,
}

impl Model for Mailbox {
    ghost use Rattle.std.specs.Prelude.{List};
    ghost use Rattle.world_rules.specs.Mail as rules;

    ghost Value = { List rules.MailItem };

    ghost use Rattle.plain_part.specs.Shown.{shown_mail};

    ghost view = { λ a. shown_mail a.items.items };
}

impl Mailbox {
    /// An empty mailbox. It takes no memory before the first push.
    pub fn new(alloc: Global) -> Mailbox
        ensures { result ≡ [] }
    {
        Mailbox {
            items: Vec::new(alloc),
        }
    }

    /// Puts one item behind the others.
    pub fn push(&mut self, item: MailItem) -> Result<(), NoMemory>
        ensures { OnOk result (self.new ≡ self.old ++ shown_item item ∷ []) }
    {
        self.items.push(item)?;
        Ok(())
    }

    /// Takes out the first item whose tag is wanted, eight bytes for each tag; None exactly where none is.
    pub fn pick(&mut self, tags: &[u8]) -> Option<MailItem>
        ensures picked { option_map shown_item result ≡ pick (tags_in tags.now) self.old }
        ensures left { self.new ≡ unpicked (tags_in tags.now) self.old }
    {
        let Some(k) = first_wanted(tags, self.items.as_slice()) else {
            return None;
        };
        Some(self.items.remove(k))
    }

    /// How many messages there are, signals not counted.
    pub fn message_count(&self) -> usize
        ensures { result ≡ message_count self.now }
    {
        count_messages(self.items.as_slice())
    }

    /// Empties the mailbox.
    pub fn clear(&mut self)
        ensures { self.new ≡ [] }
    {
        self.items.clear();
    }

    /// Puts the streams of the mailbox behind these, item by item and slot by slot.
    pub fn push_handles(&self, handles: &mut Vec<u64>) -> Result<(), NoMemory>
        ensures { OnOk result (handles.new.items ≡ handles.old.items ++ mail_handles self.now) }
    {
        for item in &self.items {
            push_handles_of(item, handles)?;
        }
        Ok(())
    }
}

/// Puts the streams of an item behind these, by rising slot.
fn push_handles_of(item: &MailItem, handles: &mut Vec<u64>) -> Result<(), NoMemory>
    ensures { OnOk result (handles.new.items ≡ handles.old.items ++ item_handles (shown_item item.now)) }
{
    match item {
        MailItem::Letter(_, message) => push_handles_in(handles, message.slots()),
        MailItem::Signal(_) => Ok(()),
    }
}

/// How many of these items are messages.
fn count_messages(items: &[MailItem]) -> usize
    ensures { result ≡ message_count (shown_mail items.now) }
{
    let mut count: usize = 0;
    for item in items {
        if is_message(item) {
            count += 1;
        }
    }
    count
}

/// A signal isn't counted among the messages.
fn is_message(item: &MailItem) -> bool
    ensures { result ≡ is_message (shown_item item.now) }
{
    match item {
        MailItem::Letter(_, _) => true,
        MailItem::Signal(_) => false,
    }
}
