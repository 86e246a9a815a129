ghost use Rattle.std.specs.Prelude.{◌≡◌, None, Some, option_map};
ghost use Rattle.world_rules.specs.Mail as MailIs;
ghost use Rattle.world_rules.specs.Mail.{tag_of};
ghost use Rattle.host_calls.specs.Shown.{shown_message};
ghost use Rattle.process_store.specs.Holds.{item_of};

use message_scratch::Message;
use outside::Stream;
use std::marker::Model;
use tagged_mailbox::Tagged;

/// A message in a mailbox, with its number among all the sends that were answered 0.
pub struct Letter<S: Stream> {
    /// The number, from 0 on.
    pub number: u64,
    /// The message.
    pub message: Message<S>,
}

/// What lies in a mailbox: a message that was sent, or the signal of a link that fell.
pub struct Item<S: Stream> {
    /// The tag of the message, or of the link, so that a mailbox reads it here.
    tag: u64,
    letter: Option<Letter<S>>,
}

impl<S: Stream> Model for Item<S> {
    ghost use Rattle.std.specs.Prelude.{◌≡◌, IfSome};
    ghost use Rattle.process_store.specs.Letters.{ItemShown};

    ghost Value = { ItemShown S };

    ghost view = { λ a. record { tag = a.tag; letter = a.letter } };

    ghost invariant = { λ a. IfSome a.letter (λ letter. a.tag ≡ letter.message.tag) };
}

impl<S: Stream> Item<S> {
    /// A message with its number among the sends that were answered 0.
    pub fn of_letter(number: u64, message: Message<S>) -> Item<S>
        ensures letter { result.letter ≡ Some (record { number = number; message = message }) }
        ensures item { item_of result ≡ MailIs.Letter number (shown_message message) }
    {
        Item {
            tag: message.tag(),
            letter: Some(Letter { number, message }),
        }
    }

    /// The signal of a link of this tag.
    pub fn of_signal(tag: u64) -> Item<S>
        ensures letter { result.letter ≡ None }
        ensures item { item_of result ≡ MailIs.Signal tag }
    {
        Item { tag, letter: None }
    }

    /// The message; None where it is a signal.
    pub(crate) fn into_message(self) -> Option<Message<S>>
        ensures { result ≡ option_map (λ letter. letter.message) self.letter }
    {
        let Item { tag: _, letter } = self;
        match letter {
            Some(Letter { number: _, message }) => Some(message),
            None => None,
        }
    }

    /// The tag of the signal, or of the message.
    pub(crate) fn its_tag(&self) -> u64
        ensures tag { result ≡ self.now.tag }
        ensures shown { result ≡ tag_of (item_of self.now) }
    {
        self.tag
    }
}

impl<S: Stream> Tagged for Item<S> {
    ghost use Rattle.process_store.specs.Holds.{item_of};
    ghost use Rattle.world_rules.specs.Mail.{tag_of, is_message};

    ghost tag = { λ item. tag_of (item_of item) };

    ghost counts = { λ item. is_message (item_of item) };

    fn tag(&self) -> u64 {
        self.tag
    }

    fn counts(&self) -> bool {
        matches!(self.letter, Some(_))
    }
}
