ghost use Rattle.std.specs.Prelude.{◌≡◌, ◌≢◌, [], IfOk, map, false, option_map, string_bytes, unwrap_or};
ghost use Rattle.clap.specs.Words.{app_of, kind_of};
ghost use Rattle.command_words.specs.Table.{shown, names_in};
ghost use Rattle.command_words.specs.Said.{is_among, understood};
ghost use Rattle.command_words.specs.Grammar.{app_with, positionals_id, raw_rules};
ghost use Rattle.command_words.specs.Found.{Finds, positionals_of};

use crate::table::OptionRow;
use crate::words::WordsFault;
use clap::error::ErrorKind;
use clap::{Arg, ArgAction, ArgMatches, Command, Error};
use memory_refusal::NoMemory;
use std::alloc::{AllocError, Global};

/// The id of the positionals in a parse.
const POSITIONALS: &str = "words";

/// What `clap` finds in the words of a command that has these options and any number of positionals.
///
/// `Words` comes exactly where the words say nothing to it, or name an option twice. `NoMemory` comes for want of
/// memory.
pub fn split<'a>(
    alloc: Global,
    name: &'a str,
    rows: &'a [OptionRow],
    words: &'a [String],
) -> Result<ArgMatches<'a>, WordsFault>
    requires { is_among (names_in (map shown rows.now)) positionals_id ≡ false }
    ensures { Finds (understood (names_in (map shown rows.now)) (map string_bytes words.now)) result }
{
    match grammar(alloc, name, rows) {
        Ok(command) => match command.try_get_matches_from(words) {
            Ok(matches) => Ok(matches),
            Err(error) => Err(fault_of(&error)),
        },
        Err(_) => Err(WordsFault::NoMemory),
    }
}

/// The positionals that a parse found, if it found any.
pub fn positionals<'m, 'a>(matches: &'m ArgMatches<'a>) -> Option<&'m [&'a str]>
    ensures { unwrap_or (option_map (λ texts. map (λ text. text.now) texts.now) result) []
        ≡ positionals_of matches.now }
{
    matches.get_strs(POSITIONALS)
}

/// The command of this name that has these options, and positionals.
fn grammar<'a>(
    alloc: Global,
    name: &'a str,
    rows: &'a [OptionRow],
) -> Result<Command<'a>, AllocError>
    ensures { IfOk result (λ command. app_of command ≡ app_with name.now (raw_rules (names_in (map shown rows.now)))) }
{
    let mut command = Command::new(alloc, name)
        .no_binary_name(true)
        .disable_help_flag(true)
        .disable_version_flag(true);
    for row in rows {
        command = command.arg(Arg::new(alloc, row.name).long(row.name))?;
    }
    command.arg(Arg::new(alloc, POSITIONALS).action(ArgAction::Append))
}

/// Why a parse failed: of all kinds want of memory alone is no fault of the words.
fn fault_of(error: &Error) -> WordsFault
    ensures { result ≡ WordsFault.Words → kind_of error.now ≢ ErrorKind.OutOfMemory }
{
    match error.kind() {
        ErrorKind::OutOfMemory => WordsFault::NoMemory,
        _ => WordsFault::Words,
    }
}
