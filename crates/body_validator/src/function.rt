use crate::Locals;
use wasm_form::{FuncType, GlobalType, ValType};

/// What the instructions of a function's body may name, but for its labels.
#[derive(Debug, Drop)]
pub struct Function<'a> {
    /// The module's types.
    pub types: &'a [FuncType],
    /// The module's functions, the imported ones first, by the indexes of their types.
    pub functions: &'a [u32],
    /// Whether there is a table.
    pub has_table: bool,
    /// Whether there is a memory.
    pub has_memory: bool,
    /// The types of the module's globals, the imported ones first.
    pub globals: &'a [GlobalType],
    /// The function's parameters and locals.
    pub locals: &'a Locals<'a>,
    /// What the function gives.
    pub results: Option<ValType>,
}
