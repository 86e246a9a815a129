//! What a process keeps for itself, as the plain program of the world keeps it.
//!
//! A [`PlainPart`] shows the `Part` of the rules, by `shown_part`; a [`Message`], a [`Scratch`] and a [`MailItem`] show
//! theirs. Each function computes the definition of its name in `world_rules`: how a request is judged, what a local
//! call answers and makes of the part, what another call does to the caller's part, and whether a reply has the form of
//! its call.
#![tactic(auto)]

mod answers;
mod calls;
mod configs;
mod form;
mod judge;
mod kinds;
mod local;
mod mail_item;
mod message;
mod numbers;
mod part;
mod scratch;
mod settle;
#[cfg(test)]
mod tests;

pub use answers::{is_empty_reply, is_number_reply};
pub use calls::{HostCall, argument, call_numbered, call_of};
pub use form::has_row_form;
pub use judge::Judgement;
pub use kinds::{area_bytes, cost_of, is_local, is_refusable, may_come};
pub use mail_item::MailItem;
pub use message::Message;
pub use numbers::{handles_in, is_among, push_handles_in, with_number, without_number};
pub use part::PlainPart;
pub use scratch::Scratch;
