//! The instructions of WebAssembly 1.0 as one table, and what its integer instructions compute.
//!
//! The model of a row is what the standard's lists say of its code; that of an operation is arithmetic on numbers from 0 up
//! to 2 to the power 32 or 64. `table::row` finds the row of each code, and `unary` and `binary` give the value of the
//! operation with a code, or its trap. Nothing takes memory.
#![tactic(auto)]

mod arithmetic;
mod bitwise;
mod comparisons;
mod instruction;
mod integer;
mod num;
mod operations;
pub mod table;
mod trap;

pub use instruction::{Kind, Row};
pub use integer::Int;
pub use num::Num;
pub use operations::{binary, unary};
pub use trap::Trap;
