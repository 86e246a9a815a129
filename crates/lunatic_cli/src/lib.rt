//! The command line: reads the words, reads and judges the module file, and tells the verdict, or runs the module and
//! writes the report.
//!
//! The top call is [`lunatic`], which does all that the program does over the store of files, the sink and the outsides
//! that it is given. Its contract is the theorem of the whole: from the bytes of the file to the bytes of the report,
//! which is that of one journal, with the cause of each status. [`run_call`] runs a file with given [`Options`],
//! [`check_call`] tells the verdict on it, and [`run_alone`] is the run of a node by one worker.
#![tactic(auto)]

mod alone;
mod check;
mod finish;
mod judge;
mod laws;
mod run;
mod run_file;
mod start;
mod status;
mod telling;
mod top_call;
mod words;
mod writing;

pub use alone::{Ran, run_alone};
pub use check::check_call;
pub use command_words::Options;
pub use finish::{Checked, Finish};
pub use module_validator::{Place, Verdict};
pub use run_file::run_call;
pub use top_call::lunatic;

#[cfg(test)]
mod check_tests;
#[cfg(test)]
mod data_tests;
#[cfg(test)]
mod row_tests;
#[cfg(test)]
mod stream_tests;
#[cfg(test)]
mod tests;
