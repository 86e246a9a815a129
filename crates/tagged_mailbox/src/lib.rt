//! A mailbox from which an item is received by its tag.
//!
//! It is seen as one list of items in the order of their arrival, beside it the places that are
//! reserved for coming items, by tag. `pick` takes out the first item of the list whose tag is
//! wanted, and the mailbox is full exactly where 1,024 of its items count.
#![tactic(auto)]

mod mailbox;
mod places;
mod refused;
mod tagged;
#[cfg(test)]
mod tests;
mod wanted;

pub use mailbox::Mailbox;
pub use refused::PutRefused;
pub use tagged::Tagged;
pub use wanted::is_wanted;
