//! Writes a module as bytes: as few as spell it.
//!
//! [`write_module`] gives the shortest bytes that spell a module by the standard's grammar, as
//! `wasm_form` defines it: each number as short as it can be, only sections that hold something, by
//! rising id, and no custom section. Whoever reads them has the module again.
#![tactic(auto)]

mod code;
mod entries;
mod fault;
mod immediates;
mod laws;
mod lengths;
mod module;
mod numbers;
mod part;
mod sections;
mod types;

pub use fault::WriteFault;
pub use laws::written_is_read;
pub use module::write_module;

#[cfg(test)]
mod tests;
