ghost use Rattle.std.specs.Prelude.{◌≡◌, [], None};
ghost use Rattle.world_rules.specs.Book.{IsBlank};

use host_port::StartRefusal;
use journal::Journal;
use module_validator::Verdict;
use outside::Stream;
use resource_table::Owned;
use std::alloc::Global;

/// How a run of the program ended. It is `Drop` only where its streams are.
#[derive(Drop)]
pub struct Finish<S: Stream> {
    /// The exit status.
    pub status: u8,
    /// The verdict on the module, where it was judged: none also where the line of a verdict couldn't be made for want
    /// of memory.
    pub verdict: Option<Verdict>,
    /// Why process 1 can't start, where that is what refused the run.
    pub start: Option<StartRefusal>,
    /// What happened in the run. Where nothing ran, it is empty.
    pub journal: Journal,
    /// The streams of the run, shut, in the order of their closing. Where nothing ran, there are none.
    pub closed: Vec<Owned<S>>,
}

impl<S: Stream> Finish<S> {
    /// The end of a command in which nothing ran.
    pub fn without_run(
        alloc: Global,
        status: u8,
        verdict: Option<Verdict>,
        start: Option<StartRefusal>,
    ) -> Finish<S>
        ensures status { result.status ≡ status }
        ensures verdict { result.verdict ≡ verdict }
        ensures start { result.start ≡ start }
        ensures blank { IsBlank result.journal }
        ensures none_closed { result.closed.items ≡ [] }
    {
        Finish {
            status,
            verdict,
            start,
            journal: Journal::new(alloc),
            closed: Vec::new(alloc),
        }
    }

    /// The end of a command in which nothing ran, as a check tells it.
    pub fn of_check(alloc: Global, checked: Checked) -> Finish<S>
        ensures status { result.status ≡ checked.status }
        ensures verdict { result.verdict ≡ checked.verdict }
        ensures start { result.start ≡ None }
        ensures blank { IsBlank result.journal }
        ensures none_closed { result.closed.items ≡ [] }
    {
        Finish::without_run(alloc, checked.status, checked.verdict, None)
    }
}

/// How a check of a module file ended.
#[derive(Clone, Copy, Debug, PartialEq, Eq)]
pub struct Checked {
    /// The exit status.
    pub status: u8,
    /// The verdict on the module, where it was judged: none also where the line of a verdict couldn't be made for want
    /// of memory.
    pub verdict: Option<Verdict>,
}

/// Process 1 returned, or a module that was checked is accepted.
pub const DONE: u8 = 0;

/// Process 1 ended otherwise.
pub const FAILED: u8 = 1;

/// The words are refused.
pub const WORDS: u8 = 2;

/// The module is refused, or process 1 can't start.
pub const MODULE: u8 = 3;

/// The module file is missing, too long, or its reading failed.
pub const FILE: u8 = 4;

/// The sink failed, or took nothing of a piece that has bytes.
pub const SINK: u8 = 5;

/// Nothing could happen any more.
pub const STALLED: u8 = 6;

/// The run was idle for too long.
pub const IDLE: u8 = 7;

/// Memory is wanting.
pub const MEMORY: u8 = 8;
