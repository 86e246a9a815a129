//! Streams that a process owns, by their numbers, and those that were shut on their way out.
//!
//! An `Owned` is a stream with its number, which can be neither copied nor lost. A table is seen as its handles by
//! rising number, a shed as its handles in the order of closing. What goes in comes out as the very stream: only a
//! read, a write and the closing change one, and they do what the trait of streams says.
#![tactic(auto)]

mod owned;
mod resources;
mod shed;
#[cfg(test)]
mod tests;

pub use owned::Owned;
pub use resources::Resources;
pub use shed::Shed;
