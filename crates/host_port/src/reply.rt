ghost use Rattle.std.specs.Prelude.{◌≡◌, IfOk};

use crate::Bytes;
use memory_refusal::NoMemory;

/// A number that a reply writes into the guest's memory, low byte first.
#[derive(Clone, Copy, Debug, PartialEq, Eq)]
pub struct Word {
    /// Where its first byte goes.
    pub addr: u32,
    /// How many bytes it has: 4 or 8.
    pub width: u8,
    /// The number.
    pub value: u64,
}

/// Bytes that a reply writes into the guest's memory.
#[derive(Debug, Drop)]
pub struct Text {
    /// Where the first byte goes.
    pub addr: u32,
    /// The bytes.
    pub bytes: Bytes,
}

impl Text {
    /// The same text once more.
    pub fn try_clone(&self) -> Result<Text, NoMemory>
        ensures { IfOk result (λ copy. copy ≡ self.now) }
    {
        Ok(Text {
            addr: self.addr,
            bytes: self.bytes.try_clone()?,
        })
    }
}

/// What the host answers to an ask. The text is written first, and the word after it.
#[derive(Debug, Drop)]
pub struct Reply {
    /// The result of the call, where its type has one.
    pub result: Option<u64>,
    /// The number that is written, where the call writes one.
    pub word: Option<Word>,
    /// The bytes that are written, where the call writes some.
    pub text: Option<Text>,
}

impl Reply {
    /// The same reply once more.
    pub fn try_clone(&self) -> Result<Reply, NoMemory>
        ensures { IfOk result (λ copy. copy ≡ self.now) }
    {
        let text = match &self.text {
            Some(text) => Some(text.try_clone()?),
            None => None,
        };
        Ok(Reply {
            result: self.result,
            word: self.word,
            text,
        })
    }
}
