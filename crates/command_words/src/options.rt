ghost use Rattle.clap.specs.Words.{first_value, found_of};
ghost use Rattle.std.specs.Prelude.{◌≡◌, IfOk};
ghost use Rattle.command_words.specs.Table.{shown, measured};
ghost use Rattle.command_words.specs.Meaning.{Tells, default_options, entry_in, options_by, text_of};

use crate::table::{ENTRY, FUEL, IDLE, LIVE, OptionRow, PAGES, TRAFFIC, WORKERS};
use crate::words::WordsFault;
use clap::ArgMatches;
use host_port::{Bytes, Limits};
use memory_refusal::NoMemory;
use std::alloc::Global;

/// The options of a run.
#[derive(Debug, Drop)]
pub struct Options {
    /// How many workers go round the processes: 1 to 16.
    pub workers: u8,
    /// The name of the function that process 1 enters: 1 to 255 bytes.
    pub entry: Bytes,
    /// What process 1 may use: 0 to 1,024 pages, 1 to 10^15 of fuel, and 0 to 2^40 of traffic, which is a cost, 64 for
    /// each call plus the lengths of its areas.
    pub limits: Limits,
    /// The most processes that have not ended, at once: 1 to 4,096.
    pub live: u32,
    /// How long a run may be idle: so many Pending gives and early Ticks in a row, Takes left aside; 1 to 10^12.
    pub idle: u64,
}

impl Options {
    /// The options of a run whose words name none.
    ///
    /// `NoMemory` comes for want of memory: the entry's name is copied.
    pub fn defaults(alloc: Global) -> Result<Options, NoMemory>
        ensures { IfOk result (λ options. options ≡ default_options) }
    {
        let entry = Bytes::from_vec(ENTRY.preset.as_bytes().to_vec(alloc)?);
        Ok(Options {
            workers: 1,
            entry,
            limits: Limits::new(64, 1_000_000_000, 67_108_864),
            live: 1_024,
            idle: 100_000,
        })
    }
}

/// The options of a run that a parse found.
///
/// `Words` comes where a value is no fit for its row. `NoMemory` comes for want of memory.
pub fn options_of(alloc: Global, matches: &ArgMatches<'_>) -> Result<Options, WordsFault>
    ensures { Tells (options_by (first_value (found_of matches.now))) result }
{
    let workers = number(&WORKERS, matches)?;
    let name = entry(alloc, matches)?;
    let pages = number(&PAGES, matches)?;
    let fuel = number(&FUEL, matches)?;
    let traffic = number(&TRAFFIC, matches)?;
    let live = number(&LIVE, matches)?;
    let idle = number(&IDLE, matches)?;
    Ok(Options {
        workers: workers as u8,
        entry: name,
        limits: Limits::new(pages as u32, fuel, traffic),
        live: live as u32,
        idle,
    })
}

/// The value of the row's option: the one that was given, or else the row's own.
fn text<'a>(row: &OptionRow, matches: &ArgMatches<'a>) -> &'a str
    ensures { result.now ≡ text_of (first_value (found_of matches.now)) (shown row.now) }
{
    match matches.get_str(row.name) {
        Some(given) => given,
        None => row.preset,
    }
}

/// The measure of the value of the row's option, where it is fit for the row.
fn number(row: &OptionRow, matches: &ArgMatches<'_>) -> Result<u64, WordsFault>
    ensures { Tells (measured (shown row.now) (text_of (first_value (found_of matches.now)) (shown row.now))) result }
{
    match row.measured(text(row, matches)) {
        Some(n) => Ok(n),
        None => Err(WordsFault::Words),
    }
}

/// The name of the entry function.
fn entry(alloc: Global, matches: &ArgMatches<'_>) -> Result<Bytes, WordsFault>
    ensures { Tells (entry_in (first_value (found_of matches.now))) result }
{
    number(&ENTRY, matches)?;
    match text(&ENTRY, matches).as_bytes().to_vec(alloc) {
        Ok(bytes) => Ok(Bytes::from_vec(bytes)),
        Err(_) => Err(WordsFault::NoMemory),
    }
}
