//! Whether a function's body is typed: exactly where the standard's typing has it, over the trees of
//! its blocks and stacks of value types (Core 1.0, 3.3 and 3.4.1).
//!
//! No float instruction has a type here: a body with one is answered as not typed. The profile, which
//! refuses floats, is judged before any body.
//!
//! [`check_body`] and [`ModuleContext`] answer for one function of a module. The code goes once over
//! the flat list of instructions, with what is known of the operands, some of it unknown in code
//! that a branch leaves behind, and with the lists that have begun. The theorem of one step: as
//! much of the body is typed after it as before it, or none is, and then the step is refused.
#![tactic(auto)]

mod branches;
mod calls;
mod checker;
mod code;
mod frame;
mod function;
mod imported;
mod laws;
mod locals;
mod lookup;
mod memory;
mod module_context;
mod numeric;
mod operand_types;
mod parametric;
mod plain;
mod rule;
mod variables;

use checker::Checker;
use frame::{Closing, Frame, Frames};
use function::Function;
pub use laws::{one_verdict, typing_examples};
use locals::Locals;
pub use module_context::{ModuleContext, check_body};
use operand_types::OperandTypes;
use rule::Rule;

#[cfg(test)]
mod tests;
