use crate::{ValType, Vector};

/// Value types, in order.
pub type ValTypes = Vector<ValType>;

/// The types of a module, in order.
pub type FuncTypes = Vector<FuncType>;

/// Tables or memories, in order.
pub type Limits = Vector<Bounds>;

/// What a function takes and gives (Core 1.0, 2.3.3).
#[derive(Debug, Drop)]
pub struct FuncType {
    pub params: ValTypes,
    pub results: ValTypes,
}

/// The limits of a table, in elements, or of a memory, in pages (Core 1.0, 2.3.4).
#[derive(Clone, Copy, Debug, PartialEq, Eq)]
pub struct Bounds {
    pub min: u32,
    pub max: Option<u32>,
}

/// The type of a global, and whether it may be written (Core 1.0, 2.3.7).
#[derive(Clone, Copy, Debug, PartialEq, Eq)]
pub struct GlobalType {
    pub ty: ValType,
    pub mutable: bool,
}
