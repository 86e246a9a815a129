//! What a spawn is given: the child's limits, and the parameters of its entry function.
//!
//! The parameters are a text of seventeen bytes each, and decoding inverts its grammar. The configs
//! of a process are seen as a map from numbers to limits beside the next number, which only grows.
#![tactic(auto)]

mod configs;
mod laws;
mod limits;
mod params;
#[cfg(test)]
mod tests;

pub use configs::Configs;
pub use laws::one_spelling;
pub use limits::lower;
pub use params::{ParamFault, decode_params};
