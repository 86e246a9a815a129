//! What happened in a run, entry by entry, kept for whoever asks later.
//!
//! A [`Journal`] is three lists: the entries, the births and the ends. `world_rules` folds them into the world of one
//! thread and says which text they determine; here stand the lists themselves, with the room that is reserved in them,
//! and `report`, which writes exactly that text.
#![tactic(auto)]

mod book;
mod entry_line;
mod laws;
mod report_text;
#[cfg(test)]
mod tests;
mod words;

pub use book::Journal;
pub use entry_line::entry_text;
pub use laws::{a_legal_journal_tells, a_run_can_be_reported, told_goes_on};
pub use report_text::report;
