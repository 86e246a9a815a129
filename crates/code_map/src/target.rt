use wasm_form::Vector;

/// Targets, in order.
pub type Targets = Vector<Target>;

/// Where a branch leads.
#[derive(Clone, Copy, Debug, PartialEq, Eq)]
pub struct Target {
    /// The place of the next instruction: behind the end of a block, an if or the body, or the loop
    /// itself.
    pub to: u32,
    /// How many values of the function, its locals among them, stay below what is carried.
    pub height: usize,
    /// How many blocks, loops and ifs are open there; the body is none of these.
    pub opens: u32,
    /// Whether the branch carries a value.
    pub carries: bool,
}
