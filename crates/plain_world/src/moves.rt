ghost use Rattle.std.specs.Prelude.{◌≡◌};
ghost use Rattle.plain_world.specs.Move.{shown_move};

use std::marker::Model;

/// What moves the handles of streams.
#[derive(Clone, Copy, Debug)]
pub enum PlainMove {
    /// The next stream number is drawn to a process's table.
    Opened {
        /// The stream.
        handle: u64,
        /// The process.
        pid: u64,
    },
    /// A stream of the table goes into a slot of the scratch message.
    Pushed {
        /// The stream.
        handle: u64,
        /// The process.
        pid: u64,
        /// The slot.
        slot: u64,
    },
    /// The stream of a slot of the scratch message goes into the table.
    Taken {
        /// The process.
        pid: u64,
        /// The slot.
        slot: u64,
    },
    /// The scratch message of one process goes into the mailbox of another.
    Sent {
        /// The sender.
        from: u64,
        /// The receiver.
        to: u64,
        /// The number of the message.
        message: u64,
    },
    /// A message of the mailbox goes into the scratch area.
    Received {
        /// The process.
        pid: u64,
        /// The number of the message.
        message: u64,
    },
    /// One stream is shut.
    Shut {
        /// The stream.
        handle: u64,
    },
    /// The streams of the scratch message are shut.
    ShutScratch {
        /// The process.
        pid: u64,
    },
    /// The streams of the mailbox are shut.
    ShutMail {
        /// The process.
        pid: u64,
    },
    /// The streams of the table, the scratch message and the mailbox are shut.
    ShutAll {
        /// The process.
        pid: u64,
    },
}

/// A move of handles.
#[derive(Debug, Drop)]
pub struct Move {
    kind: PlainMove,
}

impl Model for Move {
    ghost use Rattle.world_rules.specs.Moves as rules;

    ghost Value = { rules.Move };

    ghost use Rattle.plain_world.specs.Move.{shown_move};

    ghost view = { λ a. shown_move a.kind };
}

impl Move {
    /// This move.
    pub fn new(kind: PlainMove) -> Move
        ensures { result ≡ shown_move kind }
    {
        Move { kind }
    }
}
