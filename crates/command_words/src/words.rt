ghost use Rattle.std.specs.Prelude.{◌≡◌, [], IfOk, map, string_bytes, option_and_then};
ghost use Rattle.std.specs.List.{list_all};
ghost use Rattle.command_words.specs.Table.{names_in, solo_table, table};
ghost use Rattle.command_words.specs.Said.{understood};
ghost use Rattle.command_words.specs.Meaning.{IsSound, Tells, are_names, check_of, command_of, gen_of, is_name, names_of, run_of, solo_by};

use crate::asked::Command;
use crate::names::{Name, Names};
use crate::options::options_of;
use crate::split::{positionals, split};
use crate::table::{number_between, rows, solo_rows};
use memory_refusal::NoMemory;
use std::alloc::Global;
use thiserror::Error;

/// Why words were not read.
#[derive(Clone, Copy, Debug, PartialEq, Eq, Error)]
pub enum WordsFault {
    /// The words have no meaning.
    #[error("the words have no meaning")]
    Words,
    /// The machine refused memory.
    #[error("out of memory")]
    NoMemory,
}

impl From<NoMemory> for WordsFault {
    ghost use Rattle.std.specs.Prelude.{◌≡◌};
    ghost use Rattle.command_words.specs.declared.words.WordsFault.TheVariants as Fault;

    ghost from_gives = { λ _ fault. fault ≡ Fault.NoMemory };

    fn from(_refused: NoMemory) -> WordsFault {
        WordsFault::NoMemory
    }
}

/// What the words after the program's name ask for.
///
/// The first word is `run`, `check`, `gen` or `solo`. `Words` comes exactly where the words have no meaning; `NoMemory`
/// comes for want of memory.
pub fn command(alloc: Global, words: &[String]) -> Result<Command, WordsFault>
    ensures told { Tells (command_of (map string_bytes words.now)) result }
    ensures sound { IfOk result IsSound }
{
    let Some((first, rest)) = words.split_first() else {
        return Err(WordsFault::Words);
    };
    match first.as_str() {
        "run" => run(alloc, rest),
        "check" => check(alloc, rest),
        "gen" => generate(alloc, rest),
        "solo" => solo(alloc, rest),
        _ => Err(WordsFault::Words),
    }
}

/// What the words after `run` ask for.
fn run(alloc: Global, words: &[String]) -> Result<Command, WordsFault>
    ensures { Tells (option_and_then run_of (understood (names_in table) (map string_bytes words.now))) result }
{
    let matches = split(alloc, "run", rows(), words)?;
    match positionals(&matches) {
        Some(texts) => {
            let names = names_of(alloc, texts)?;
            let options = options_of(alloc, &matches)?;
            Ok(Command::Run { names, options })
        }
        None => Err(WordsFault::Words),
    }
}

/// What the words after `check` ask for.
fn check(alloc: Global, words: &[String]) -> Result<Command, WordsFault>
    ensures { Tells (option_and_then (λ said. check_of said.positionals)
        (understood [] (map string_bytes words.now))) result }
{
    let matches = split(alloc, "check", &[], words)?;
    let Some(texts) = positionals(&matches) else {
        return Err(WordsFault::Words);
    };
    let [text] = texts else {
        return Err(WordsFault::Words);
    };
    if text.is_empty() {
        return Err(WordsFault::Words);
    }
    let name = Name::copied(alloc, *text)?;
    Ok(Command::Check { name })
}

/// What the words after `gen` ask for.
fn generate(alloc: Global, words: &[String]) -> Result<Command, WordsFault>
    ensures { Tells (option_and_then (λ said. gen_of said.positionals)
        (understood [] (map string_bytes words.now))) result }
{
    let matches = split(alloc, "gen", &[], words)?;
    let Some(texts) = positionals(&matches) else {
        return Err(WordsFault::Words);
    };
    let [text] = texts else {
        return Err(WordsFault::Words);
    };
    match number_between(*text, 2, 1_000) {
        Some(n) => Ok(Command::Gen { n }),
        None => Err(WordsFault::Words),
    }
}

/// What the words after `solo` ask for.
fn solo(alloc: Global, words: &[String]) -> Result<Command, WordsFault>
    ensures { Tells (option_and_then (λ said. solo_by said said.positionals)
        (understood (names_in solo_table) (map string_bytes words.now))) result }
{
    let matches = split(alloc, "solo", solo_rows(), words)?;
    let Some(texts) = positionals(&matches) else {
        return Err(WordsFault::Words);
    };
    let [first, rest @ ..] = texts else {
        return Err(WordsFault::Words);
    };
    let Some(pid) = number_between(*first, 1, 1_000_000) else {
        return Err(WordsFault::Words);
    };
    let names = names_of(alloc, rest)?;
    let options = options_of(alloc, &matches)?;
    Ok(Command::Solo {
        pid,
        names,
        options,
    })
}

/// These texts as names of files: 1 to 16, none empty.
fn names_of(alloc: Global, texts: &[&str]) -> Result<Names, WordsFault>
    ensures { Tells (names_of (map (λ text. text.now) texts.now)) result }
{
    if !are_names(texts) {
        return Err(WordsFault::Words);
    }
    let mut names = Names::new(alloc);
    for text in texts {
        names.push(Name::copied(alloc, *text)?)?;
    }
    Ok(names)
}

/// Whether these texts name 1 to 16 files.
fn are_names(texts: &[&str]) -> bool
    ensures { result ≡ are_names (map (λ text. text.now) texts.now) }
{
    1 <= texts.len() && texts.len() <= 16 && all_named(texts)
}

/// Whether no text is empty.
fn all_named(texts: &[&str]) -> bool
    ensures { result ≡ list_all is_name (map (λ text. text.now) texts.now) }
{
    texts.iter().all(|text| !text.is_empty())
}
