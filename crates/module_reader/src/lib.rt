//! Reads a module from its bytes.
//!
//! [`read_module`] answers the one module that the bytes spell by the standard's grammar,
//! as `wasm_form` defines it; the bytes are malformed exactly where they spell none.
#![tactic(auto)]

mod bounds;
mod kind;
mod module;
mod section;
mod sections;

pub use module::read_module;

#[cfg(test)]
mod tests;
