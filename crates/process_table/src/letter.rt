ghost use Rattle.std.specs.Prelude.{◌≡◌, true};

use message_scratch::Message;
use outside::Stream;
use std::marker::Model;
use tagged_mailbox::Tagged;

/// A message in a mailbox, with its number among all the sends that were answered 0.
pub struct Letter<S: Stream> {
    number: u64,
    /// The tag of the message, so that a mailbox reads it here.
    tag: u64,
    message: Message<S>,
}

impl<S: Stream> Model for Letter<S> {
    ghost use Rattle.std.specs.Prelude.{◌≡◌};
    ghost use Rattle.process_table.specs.Letters.{Letter as LetterShown};

    ghost Value = { LetterShown S };

    ghost view = { λ a. record { number = a.number; message = a.message } };

    ghost invariant = { λ a. a.tag ≡ a.message.tag };
}

impl<S: Stream> Letter<S> {
    /// A letter with this number, from 0 on, and this message.
    pub fn of(number: u64, message: Message<S>) -> Letter<S>
        ensures { result ≡ record { number = number; message = message } }
    {
        Letter {
            number,
            tag: message.tag(),
            message,
        }
    }

    /// The message, without its number.
    pub fn into_message(self) -> Message<S>
        ensures { result ≡ self.message }
    {
        let Letter {
            number: _,
            tag: _,
            message,
        } = self;
        message
    }
}

impl<S: Stream> Tagged for Letter<S> {
    ghost tag = { λ letter. letter.message.tag };

    ghost counts = { λ _. true };

    fn tag(&self) -> u64 {
        self.tag
    }

    fn counts(&self) -> bool {
        true
    }
}
