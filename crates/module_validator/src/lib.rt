//! The verdict on a module: whether it is inside the profile, and whether it is valid.
//!
//! A [`Valid`] is seen as the parts of its module, which are accepted, and the map of its code, which
//! is made once, when the module is accepted. The theorem: [`accept`] gives the verdict that the
//! definitions give. The profile is judged first, then the rules of modules, then the functions; the
//! least rule or function that is broken is named.
#![tactic(auto)]

mod acceptance;
mod answer;
mod calls;
mod constant;
mod exports;
mod floats;
mod functions;
mod imports;
mod limits;
mod profile;
mod rules;
mod segments;
mod sharing;
mod sizes;
mod start;
mod types;
mod valid;

pub use acceptance::accept;
pub use answer::{Place, Refused, Verdict};
pub use valid::Valid;

#[cfg(test)]
mod tests;
