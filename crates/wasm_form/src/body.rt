use crate::{Expr, ValType, Vector};

/// Runs of locals, in order.
pub type Runs = Vector<LocalRun>;

/// The bodies of a module, in order.
pub type Bodies = Vector<Body>;

/// So many locals of one type (Core 1.0, 5.5.13).
#[derive(Clone, Copy, Debug, PartialEq, Eq)]
pub struct LocalRun {
    pub count: u32,
    pub ty: ValType,
}

/// A function's body: its locals and its expression.
#[derive(Debug, Drop)]
pub struct Body {
    pub locals: Runs,
    pub expr: Expr,
}
