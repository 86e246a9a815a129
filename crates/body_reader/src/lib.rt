//! Reads bodies of functions, and the other things that the sections of a module are vectors of,
//! from their bytes.
//!
//! A [`Cursor`](leb_read::Cursor) is seen as a place in bytes and the bytes left. What is read is
//! what the definitions of `wasm_form` say that the bytes passed over spell; `Malformed` comes only
//! where no front of the bytes left spells anything of the kind.
#![tactic(auto)]

mod body;
mod entries;
mod expr;
mod external_types;
mod fault;
mod immediates;
mod instr;
mod names;
mod numbers;
mod part;
mod types;

pub use body::read_body;
pub use expr::expr_at;
pub use external_types::{limits_at, table_type_at};
pub use fault::ReadFault;
pub use names::bytes_at;
pub use numbers::{byte_at, u32_at};
pub use part::{Part, read_vector};

#[cfg(test)]
mod tests;
