//! The words of the command line, read.
//!
//! [`command`] tells what the words after the program's name ask for: to run files, to check one, to generate, or to
//! run one process of a run by itself. Its model is the list of the words' bytes; its theorem is that a list of words
//! is read exactly where it has a meaning, and as that meaning. The table of the options stands once, in `table`.
#![tactic(auto)]

mod asked;
mod names;
mod options;
mod split;
mod table;
#[cfg(test)]
mod tests;
mod words;

pub use asked::Command;
pub use names::{Name, Names};
pub use options::Options;
pub use words::{WordsFault, command};
