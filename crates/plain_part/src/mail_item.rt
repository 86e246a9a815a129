ghost use Rattle.std.specs.Prelude.{◌≡◌, IfOk};

use crate::Message;
use memory_refusal::NoMemory;

/// What lies in a mailbox.
#[derive(Debug, Drop)]
pub enum MailItem {
    /// A message, by its number among all the sends that were answered 0.
    Letter(u64, Message),
    /// The signal of a link that fell, with the link's tag.
    Signal(u64),
}

impl MailItem {
    /// The same item once more.
    pub fn try_clone(&self) -> Result<MailItem, NoMemory>
        ensures { IfOk result (λ copy. copy ≡ self.now) }
    {
        match self {
            MailItem::Letter(number, message) => Ok(MailItem::Letter(
                *number,
                message.try_clone()?,
            )),
            MailItem::Signal(tag) => Ok(MailItem::Signal(*tag)),
        }
    }
}
