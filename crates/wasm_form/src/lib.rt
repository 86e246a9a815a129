//! WebAssembly modules as values, and the grammar: which bytes spell which module.
//!
//! The [`Parts`] of a module are seen as a record of lists. The grammar is the standard's, by cases,
//! with lists of instructions as trees; an [`Expr`] is such a tree in the order of its bytes. The
//! law of this crate is that the same bytes spell one module at most.
//!
//! A [`Module`] has parts that some bytes spell; [`Module::from_parts`] makes one exactly where some
//! do; [`start_module`] makes the one whose only function has the given code.
#![tactic(auto)]

mod body;
mod expr;
mod fault;
mod immediates;
mod instr;
mod laws;
mod least;
mod least_length;
mod lengths;
mod matched;
mod matching;
mod module;
mod name;
mod parts;
mod sizes;
mod sort;
mod start;
mod types;
mod value_type;
mod vector;

pub use body::{Bodies, Body, LocalRun, Runs};
pub use expr::{Expr, Indexes, Instrs, Match, Matches, Octets};
pub use fault::PartsFault;
pub use immediates::Immediates;
pub use instr::{Imm, Instr};
pub use laws::{one_expression, one_module};
pub use least::{least_contents, least_lengths};
pub use least_length::{LeastLength, items_length, vector_length};
pub use matching::match_blocks;
pub use module::Module;
pub use name::Name;
pub use parts::{
    Element, Elements, Export, ExportKind, Exports, GlobalDef, Globals, Import, Imported, Imports,
    Parts, Segment, Segments,
};
pub use sizes::are_few;
pub use sort::Sort;
pub use start::start_module;
pub use types::{Bounds, FuncType, FuncTypes, GlobalType, Limits, ValTypes};
pub use value_type::ValType;
pub use vector::Vector;

#[cfg(test)]
mod tests;
