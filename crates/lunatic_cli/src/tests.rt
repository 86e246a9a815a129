ghost use Rattle.std.specs.Prelude.{◌≡◌, ◌≤◌, IsTrue, [], IfOk};
ghost use Rattle.lunatic_cli.specs.Scripts.{are_served};
ghost use Rattle.world_rules.specs.Report.{IsReportable};

use crate::{Ran, Verdict, lunatic, run_alone};
use host_port::{Ask, Bytes, Limits, Params, Start, StartRefusal};
use journal::{Journal, report};
use outside::{
    AcceptStep, BlankListener, BlankStream, MakeStep, MemFiles, MemOutside, MemSink, Outside, raise,
};
use process_table::Node;
use script_engine::{Script, ScriptEngine};
use std::alloc::{AllocError, Global};
use std::sync::Arc;
use std::test::Fail;
use world_rules::{Birth, Ended, Entry, Halt, Side};

/// One function, which drops one constant.
const FIRST: [u8; 39] = [
    0x00, 0x61, 0x73, 0x6D, 0x01, 0x00, 0x00, 0x00, 0x01, 0x04, 0x01, 0x60, 0x00, 0x00, 0x03, 0x02,
    0x01, 0x00, 0x07, 0x0A, 0x01, 0x06, 0x5F, 0x73, 0x74, 0x61, 0x72, 0x74, 0x00, 0x00, 0x0A, 0x07,
    0x01, 0x05, 0x00, 0x41, 0x2A, 0x1A, 0x0B,
];

const REPORT: &[u8] =
    b"process 1 done fuel 2 pages 0 mark 0\ntotal processes 1 messages 0 streams 0\n";

const MALFORMED: &[u8] = b"refused: module 0 malformed\n";

fn words(alloc: Global, texts: &[&str]) -> Result<Vec<String>, AllocError> {
    let mut words = Vec::new(alloc);
    for text in texts {
        words.push(String::from_str(alloc, text)?)?;
    }
    Ok(words)
}

/// A store with the module `first`, its header alone as `header`, and `long`, one byte longer than a file may be. The
/// reads of these numbers fail.
fn store(alloc: Global, fails: Vec<u64>) -> Result<MemFiles, AllocError> {
    let first = (
        String::from_str(alloc, "first")?,
        FIRST.as_slice().to_vec(alloc)?,
    );
    let header = (
        String::from_str(alloc, "header")?,
        FIRST[..8].to_vec(alloc)?,
    );
    let long = (
        String::from_str(alloc, "long")?,
        vec![in alloc; 0; 16_777_217]?,
    );
    Ok(MemFiles::new(vec![in alloc; first, header, long]?, fails))
}

/// Sixteen outsides.
fn sixteen(alloc: Global) -> Result<Vec<MemOutside>, AllocError> {
    let mut outsides = Vec::new(alloc);
    for _ in 0..16 {
        outsides.push(MemOutside::with_nothing(alloc))?;
    }
    Ok(outsides)
}

/// The journal is that of the module `first`: process 1 is taken, executes two instructions, and returns.
fn is_first_journal(journal: &Journal) -> bool {
    let [
        Entry::Take { worker: 0, pid: 1 },
        Entry::Give {
            worker: 0,
            pid: 1,
            calls,
            fuel: 2,
            halt: Halt::Done,
            side: Side::Nothing,
        },
    ] = journal.entries()
    else {
        return false;
    };
    let [Birth::Born(start)] = journal.births() else {
        return false;
    };
    let last = Ended {
        pid: 1,
        pages: 0,
        mark: 0,
    };
    calls.as_slice().is_empty()
        && (start.pid, start.module) == (1, 0)
        && start.entry.as_slice() == b"_start".as_slice()
        && start.params.is_empty()
        && journal.ends() == [last].as_slice()
}

/// Nothing is in the journal.
fn is_blank(journal: &Journal) -> bool {
    journal.is_empty() && journal.births().is_empty() && journal.ends().is_empty()
}

#[test]
fn files_are_judged_and_run(rt: HostRuntime) -> Result<(), Fail> {
    let alloc = rt.alloc();
    let mut files = store(alloc, vec![in alloc; 4u64]?)?;
    for (name, status, verdict, start, text) in [
        ("first", 0, Some(Verdict::Accepted), None, REPORT),
        (
            "header",
            3,
            Some(Verdict::Accepted),
            Some(StartRefusal::NoExport),
            b"refused: entry\n".as_slice(),
        ),
        ("none", 4, None, None, b"refused: file 0\n".as_slice()),
        ("long", 4, None, None, b"refused: file 0\n".as_slice()),
        ("first", 4, None, None, b"refused: file 0\n".as_slice()),
    ] {
        let mut out = MemSink::new(alloc, 100, 7, Vec::new(alloc), Vec::new(alloc))?;
        let given = words(alloc, &["run", name])?;
        let mut outsides = sixteen(alloc)?;
        assert_eq!(rt; outsides.len(), 16);
        let finish = lunatic(alloc, given.as_slice(), &mut files, &mut out, &mut outsides);
        assert_eq!(rt;
            (finish.status, finish.verdict, finish.start),
            (status, verdict, start),
            "of {name}"
        );
        assert_eq!(rt; out.written(), text, "of {name}");
        assert_eq!(rt; is_first_journal(&finish.journal), status == 0, "of {name}");
        assert_eq!(rt; is_blank(&finish.journal), status != 0, "of {name}");
    }
    Ok(())
}

/// The status and the verdict for a file with these bytes, and whether this text was written.
fn judged(alloc: Global, bytes: Vec<u8>, text: &[u8]) -> Result<(u8, Option<Verdict>, bool), Fail> {
    let file = (String::from_str(alloc, "file")?, bytes);
    let mut files = MemFiles::new(vec![in alloc; file]?, Vec::new(alloc));
    let mut out = MemSink::new(alloc, 100, 100, Vec::new(alloc), Vec::new(alloc))?;
    let given = words(alloc, &["run", "file"])?;
    let mut outsides = sixteen(alloc)?;
    if outsides.len() < 16 {
        return Err("sixteen outsides")?;
    }
    let finish = lunatic(alloc, given.as_slice(), &mut files, &mut out, &mut outsides);
    Ok((finish.status, finish.verdict, out.written() == text))
}

/// The module `first` with these bytes as the size of its code section.
fn sized(alloc: Global, size: &[u8]) -> Result<Vec<u8>, AllocError> {
    let mut bytes = FIRST[..31].to_vec(alloc)?;
    bytes.extend_from_slice(size)?;
    bytes.extend_from_slice(&FIRST[32..])?;
    Ok(bytes)
}

#[test]
fn what_spells_no_module_is_malformed(rt: HostRuntime) -> Result<(), Fail> {
    let alloc = rt.alloc();
    for length in 0..39usize {
        // The header alone, and that with a type, are modules without an entry.
        let (verdict, text) = if length == 8 || length == 14 {
            (Verdict::Accepted, b"refused: entry\n".as_slice())
        } else {
            (Verdict::Malformed, MALFORMED)
        };
        let front = FIRST[..length].to_vec(alloc)?;
        assert_eq!(rt;
            judged(alloc, front, text)?,
            (3, Some(verdict), true),
            "of {length}"
        );
    }
    for (size, status, verdict, text) in [
        (
            [0x87, 0x80, 0x80, 0x80, 0x00].as_slice(),
            0,
            Verdict::Accepted,
            REPORT,
        ),
        (
            [0x87, 0x80, 0x80, 0x80, 0x80, 0x00].as_slice(),
            3,
            Verdict::Malformed,
            MALFORMED,
        ),
    ] {
        assert_eq!(rt;
            judged(alloc, sized(alloc, size)?, text)?,
            (status, Some(verdict), true)
        );
    }
    Ok(())
}

#[test]
fn other_words_are_refused(rt: HostRuntime) -> Result<(), Fail> {
    let alloc = rt.alloc();
    let mut files = store(alloc, Vec::new(alloc))?;
    let cases: [&[&str]; 12] = [
        &[],
        &["frob"],
        &["frob", "first"],
        &["run"],
        &["run", "-x"],
        &["run", "first", "first"],
        &["run", ""],
        &["check"],
        &["check", "-a"],
        &["check", "first", "first"],
        &["check", ""],
        &["gen", "2"],
    ];
    for texts in cases {
        let mut out = MemSink::new(alloc, 100, 1, Vec::new(alloc), Vec::new(alloc))?;
        let given = words(alloc, texts)?;
        let mut outsides = sixteen(alloc)?;
        assert_eq!(rt; outsides.len(), 16);
        let finish = lunatic(alloc, given.as_slice(), &mut files, &mut out, &mut outsides);
        assert_eq!(rt; (finish.status, finish.verdict), (2, None));
        assert!(rt; is_blank(&finish.journal));
        assert_eq!(rt; out.written(), b"refused: words\n".as_slice());
    }
    Ok(())
}

#[test]
fn a_failing_sink_gives_5_and_leaves_a_refusal(rt: HostRuntime) -> Result<(), Fail> {
    let alloc = rt.alloc();
    let mut files = store(alloc, Vec::new(alloc))?;
    for (name, status, fails, zeros) in [
        ("first", 5, vec![in alloc; 0u64]?, Vec::new(alloc)),
        ("first", 5, Vec::new(alloc), vec![in alloc; 0u64]?),
        ("none", 4, vec![in alloc; 0u64]?, Vec::new(alloc)),
    ] {
        let mut out = MemSink::new(alloc, 100, 100, fails, zeros)?;
        let given = words(alloc, &["run", name])?;
        let mut outsides = sixteen(alloc)?;
        assert_eq!(rt; outsides.len(), 16);
        let finish = lunatic(alloc, given.as_slice(), &mut files, &mut out, &mut outsides);
        assert_eq!(rt; finish.status, status, "of {name}");
        assert_eq!(rt; is_first_journal(&finish.journal), status == 5, "of {name}");
        assert_eq!(rt; out.written(), b"".as_slice(), "of {name}");
    }
    Ok(())
}

/// How process 1 starts, with this fuel.
fn first_start(alloc: Global, fuel: u64) -> Result<Start, AllocError>
    ensures { IfOk result (λ start. (start.pid ≡ 1) × (start.module ≡ 0)) }
{
    Ok(Start {
        pid: 1,
        module: 0,
        entry: Bytes::from_vec(b"_start".to_vec(alloc)?),
        params: Params::new(alloc),
        limits: Limits::new(64, fuel, 1000),
    })
}

/// An ask of this call with these first arguments.
fn ask(call: u8, first: u64, second: u64, third: u64) -> Ask
    ensures { result.call ≡ call }
{
    Ask {
        call,
        args: [first, second, third, 0, 0, 0, 0, 0],
    }
}

/// A node whose process 1 asks these, and returns.
fn script_node<O: Outside>(alloc: Global, asks: Vec<Ask>) -> Result<Node<ScriptEngine, O>, Fail>
    requires { IsTrue (are_served asks.items) }
    ensures blank { IfOk result (λ node. node.book.entries ≡ []) }
    ensures idle { IfOk result (λ node. 1 ≤ node.idle) }
{
    let mut programs = Vec::new(alloc);
    programs.push(Arc::new(alloc, Script { asks, end: None })?)?;
    match Node::new(alloc, programs, first_start(alloc, 1000)?, 10, 100) {
        Ok(node) => Ok(node),
        Err(_) => Err("start")?,
    }
}

/// The text of the run of a script by one worker.
fn script_text(alloc: Global, asks: Vec<Ask>) -> Result<Vec<u8>, Fail>
    requires { IsTrue (are_served asks.items) }
{
    let mut outside = MemOutside::with_nothing(alloc);
    let node = script_node(alloc, asks)?;
    let Ran { journal, closed: _ } = run_alone(alloc, node, &mut outside);
    Ok(text_of(alloc, &journal)?)
}

fn text_of(alloc: Global, journal: &Journal) -> Result<Vec<u8>, Fail>
    requires { IsReportable journal.now }
{
    Ok(report(alloc, journal).ok().ok_or("report")?)
}

#[test]
fn one_worker_runs_a_script_to_its_end(rt: HostRuntime) -> Result<(), Fail> {
    let alloc = rt.alloc();
    let asks = vec![in alloc;
        ask(10, 0, 0, 0),
        ask(0, 5, 0, 0),
        ask(8, 1, 0, 0),
        ask(9, 0, 0, u64::MAX),
    ]?;
    let text = script_text(alloc, asks)?;
    assert_eq!(rt;
        text.as_slice(),
        b"process 1 done fuel 4 pages 0 mark 0\ntotal processes 1 messages 1 streams 0\n".as_slice()
    );
    let waits = vec![in alloc; ask(9, 0, 0, u64::MAX)]?;
    let text = script_text(alloc, waits)?;
    assert_eq!(rt;
        text.as_slice(),
        b"process 1 stalled fuel 1 pages 0 mark 0\ntotal processes 1 messages 0 streams 0\n".as_slice()
    );
    Ok(())
}

/// An outside that records the first processes that are entered, and how many rests there were.
#[derive(Drop)]
struct Recorder {
    entered: [u64; 8],
    count: usize,
    rests: u64,
}

impl Outside for Recorder {
    type Stream = BlankStream;

    type Listener = BlankListener;

    ghost use Rattle.std.specs.Prelude.{None};

    ghost faults = { λ _. 0 };

    ghost waits = { λ _. 0 };

    ghost rests = { λ o. o.rests };

    ghost clock = { λ _. None };

    ghost entered = { λ _. None };

    fn now(&mut self) -> u64 {
        0
    }

    fn bind(&mut self, _ip: u32, _port: u16) -> MakeStep<BlankListener> {
        MakeStep::NoMemory
    }

    fn accept(&mut self, _listener: &mut BlankListener) -> AcceptStep<BlankStream> {
        AcceptStep::NoMemory
    }

    fn connect(&mut self, _ip: u32, _port: u16) -> MakeStep<BlankStream> {
        MakeStep::NoMemory
    }

    fn enter(&mut self, pid: u64) {
        if self.count < 8 {
            self.entered[self.count] = pid;
            self.count += 1;
        }
    }

    fn rest(&mut self) {
        raise(&mut self.rests);
    }
}

/// The processes that were entered in the run of a script by one worker, where there are eight at most, and the rests.
fn recorded(alloc: Global, asks: Vec<Ask>) -> Result<Recorder, Fail>
    requires { IsTrue (are_served asks.items) }
{
    let mut outside = Recorder {
        entered: [0; 8],
        count: 0,
        rests: 0,
    };
    let node = script_node(alloc, asks)?;
    run_alone(alloc, node, &mut outside);
    Ok(outside)
}

// A round rests where nothing could be taken after a Tick, and a wait without an end has none.
#[test]
fn the_process_of_each_turn_is_entered_and_no_round_rests(rt: HostRuntime) -> Result<(), Fail> {
    let alloc = rt.alloc();
    let asks = vec![in alloc;
        ask(10, 0, 0, 0),
        ask(0, 5, 0, 0),
        ask(8, 1, 0, 0),
        ask(9, 0, 0, u64::MAX),
    ]?;
    let sends = recorded(alloc, asks)?;
    assert_eq!(rt; sends.entered, [1, 1, 1, 0, 0, 0, 0, 0]);
    assert_eq!(rt; sends.rests, 0);
    let waits = recorded(alloc, vec![in alloc; ask(9, 0, 0, u64::MAX)]?)?;
    assert_eq!(rt; waits.entered, [1, 0, 0, 0, 0, 0, 0, 0]);
    assert_eq!(rt; waits.rests, 0);
    Ok(())
}
