//! The plain, slow program of the whole world: many processes and all host calls, one entry after another.
//!
//! A [`PlainWorld`] shows the world of the rules, by `shown_world`, and each function computes the definition of its
//! name in `world_rules`: what an entry makes of the world, which entries are allowed, and the text that a journal
//! determines.
#![tactic(auto)]

mod advance;
mod allowed;
mod allowed_answers;
mod allowed_births;
mod allowed_sides;
mod allowed_turns;
mod arrival;
mod changes;
mod child_start;
mod ends;
mod entry_by_entry;
mod exit;
mod falls;
mod give;
mod given;
mod link_list;
mod links;
mod mailbox;
mod moves;
mod name_list;
mod numbers;
mod outside;
mod performed;
#[cfg(test)]
mod plays;
mod population;
mod process;
mod processes;
mod queued;
mod receive;
mod recorded;
mod registry;
mod replies;
mod report_lines;
mod report_words;
mod run;
mod send;
mod spawn;
mod stage;
mod streamed;
mod streams;
#[cfg(test)]
mod tests;
mod time;
mod told;
mod wanted;
mod whole_report;
mod world;

pub use arrival::{Arrival, PlainWhat};
pub use entry_by_entry::apply;
pub use exit::Exit;
pub use falls::Fall;
pub(crate) use give::PlainGive;
pub use mailbox::Mailbox;
pub use moves::{Move, PlainMove};
pub use numbers::Numbers;
pub use population::Population;
pub use process::PlainProcess;
pub use run::PlainRun;
pub use stage::PlainStage;
pub use streamed::Streamed;
pub use told::Told;
pub use whole_report::report;
pub use world::{PlainLink, PlainName, PlainWorld};
