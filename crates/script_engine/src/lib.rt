//! An engine that follows a script: what it asks is written down, and nothing is computed.
//!
//! A run is the place in the script. The engine serves the tests of what stands on `Engine`.
#![tactic(auto)]

mod engine;
mod script;

pub use engine::ScriptEngine;
pub use script::Script;

#[cfg(test)]
mod tests;
