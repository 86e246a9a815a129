//! The map of a module's code, made once: where each branch leads, and what each call enters.
//!
//! A [`CodeMap`] is made of a module by one pass over each body. The theorem: each branch has the
//! target of its label, over the trees of the bodies and the heights that the typing gives, in all
//! code that is gone on to; and each function index has its body or its host call.
#![tactic(auto)]

mod body;
mod body_map;
mod callee;
mod callees;
mod classes;
mod counts;
mod functions;
mod map;
mod opens;
mod pass;
mod signatures;
mod target;

pub use body_map::BodyMap;
pub use callee::Callee;
use counts::Counts;
pub use map::CodeMap;
use opens::{Open, Opens};
use pass::Pass;
use signatures::Signatures;
pub use target::Target;

#[cfg(test)]
mod tests;
