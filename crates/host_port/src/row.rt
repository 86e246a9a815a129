ghost use Rattle.std.specs.Prelude.{◌≡◌, ◌↔◌, IsTrue};
ghost use Rattle.host_port.specs.HostTable.{bytes_in};
ghost use Rattle.host_port.specs.Forms.{IsHeld};

/// Who performs a call.
#[derive(Clone, Copy, Debug, PartialEq, Eq)]
pub enum Kind {
    /// The turn itself, from what the process holds.
    Local,
    /// The world, when the turn is given back.
    World,
    /// The outside, through the worker, before the turn is given back.
    Outside,
}

/// What an area that is read holds, and so how long it is.
#[derive(Clone, Copy, Debug, PartialEq, Eq)]
pub enum Holds {
    /// As many bytes as the argument says.
    Plain,
    /// As many tags as the argument says, of eight bytes each.
    Tags,
    /// A name of as many bytes as the argument says, which are 1 to 255.
    Name,
}

/// An area that a call reads.
#[derive(Clone, Copy, Debug, PartialEq, Eq)]
pub struct ReadArea {
    /// The argument that is its address, counted from 0.
    pub addr: u8,
    /// The argument that tells its length.
    pub length: u8,
    /// What it holds.
    pub holds: Holds,
}

/// The areas that a call reads.
#[derive(Clone, Copy, Debug, PartialEq, Eq)]
pub enum Reads {
    /// None.
    NoArea,
    /// One.
    OneArea(ReadArea),
    /// A first and a second.
    TwoAreas(ReadArea, ReadArea),
}

/// With which results something is written.
#[derive(Clone, Copy, Debug, PartialEq, Eq)]
pub enum When {
    /// With every result.
    Always,
    /// With this result alone.
    OnlyWith(u64),
}

/// A text that a call writes.
#[derive(Clone, Copy, Debug, PartialEq, Eq)]
pub struct WrittenText {
    /// The argument that is its address.
    pub addr: u8,
    /// The argument that tells how long its area is; it is no longer than that.
    pub length: u8,
    /// How many bytes it has at most.
    pub most: u64,
    /// With which results it is written.
    pub when: When,
    /// The result is the number of its bytes.
    pub counted: bool,
}

/// What number a word is.
#[derive(Clone, Copy, Debug, PartialEq, Eq)]
pub enum WordValue {
    /// Any that its width holds.
    AnyValue,
    /// The number of bytes of the text that is written with it.
    LengthOfText,
    /// A number that passes neither the argument at the first place nor the second number.
    AtMost(u8, u64),
}

/// How wide a word is.
#[derive(Clone, Copy, Debug, PartialEq, Eq)]
pub enum Width {
    /// Four bytes.
    Four,
    /// Eight bytes.
    Eight,
}

/// A word that a call writes.
#[derive(Clone, Copy, Debug, PartialEq, Eq)]
pub struct WrittenWord {
    /// The argument that is its address.
    pub addr: u8,
    /// How many bytes it has.
    pub width: Width,
    /// With which results it is written.
    pub when: When,
    /// What number it is.
    pub value: WordValue,
}

/// What may come beside a call in an entry.
#[derive(Clone, Copy, Debug, PartialEq, Eq)]
pub enum MayCome {
    /// Nothing.
    Nothing,
    /// The time of the clock.
    Clock,
    /// An answer of the outside.
    Answer {
        /// The outside may also have none yet.
        pending: bool,
        /// In place of the answer 0 a stream comes that was opened.
        opened: bool,
    },
}

/// The results that a call may give.
#[derive(Clone, Copy, Debug, PartialEq, Eq)]
pub enum Results {
    /// None.
    NoResult,
    /// One of these numbers.
    OneOf(&'static [u64]),
    /// A number up to this one.
    UpTo(u64),
    /// A count that passes neither the argument at the first place nor the second number.
    Count(u8, u64),
    /// Any i64.
    AnyI64,
}

impl Width {
    /// How many bytes a word of this width has.
    pub fn bytes(self) -> u8
        ensures { result ≡ bytes_in self }
    {
        match self {
            Width::Four => 4,
            Width::Eight => 8,
        }
    }

    /// A word of this width holds the number.
    pub(crate) fn holds(self, n: u64) -> bool
        ensures { IsTrue result ↔ IsHeld self n }
    {
        match self {
            Width::Four => n <= 0xffff_ffff,
            Width::Eight => true,
        }
    }
}
