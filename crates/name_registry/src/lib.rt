//! The processes that stand under names.
//!
//! It is seen as a finite map from names, which are lists of bytes, to process numbers.
#![tactic(auto)]

mod counts;
mod registry;
#[cfg(test)]
mod tests;

pub use registry::Registry;
