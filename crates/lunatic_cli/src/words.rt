ghost use Rattle.std.specs.Prelude.{IfOk, map, string_bytes};
ghost use Rattle.command_words.specs.Meaning.{Tells};
ghost use Rattle.lunatic_cli.specs.Words.{asked_by, run_of};
ghost use Rattle.lunatic_cli.specs.Ranges.{IsInRange};

use crate::Options;
use command_words::{Command, Name, Names, WordsFault, command};
use std::alloc::Global;

/// What the words ask for.
#[derive(Debug, Drop)]
pub enum Asked {
    /// To run a file.
    Run {
        /// The file, which has a name.
        name: Name,
        /// The options of the run: each in its range, and one worker.
        options: Options,
    },
    /// To check a file.
    Check {
        /// The file, which has a name.
        name: Name,
    },
}

/// What the words ask for.
///
/// `Words` comes exactly where they ask for nothing that is served: they have no meaning, or they ask to generate, to
/// run one process by itself, to run several files, or for another number of workers than one. `NoMemory` comes for
/// want of memory.
pub fn read_words(alloc: Global, words: &[String]) -> Result<Asked, WordsFault>
    ensures told { Tells (asked_by (map string_bytes words.now)) result }
    ensures in_range { IfOk result IsInRange }
{
    match command(alloc, words)? {
        Command::Run { names, options } => one_file(alloc, &names, options),
        Command::Check { name } => Ok(Asked::Check { name }),
        Command::Gen { .. } | Command::Solo { .. } => Err(WordsFault::Words),
    }
}

/// The run of the only one of these files by one worker.
fn one_file(alloc: Global, names: &Names, options: Options) -> Result<Asked, WordsFault>
    ensures { Tells (run_of names.now options) result }
{
    match names.as_slice() {
        [only] if options.workers == 1 => Ok(Asked::Run {
            name: Name::copied(alloc, only.as_str())?,
            options,
        }),
        _ => Err(WordsFault::Words),
    }
}
