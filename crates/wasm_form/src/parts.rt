use crate::{Bodies, Bounds, Expr, FuncTypes, GlobalType, Indexes, Limits, Name, Octets, Vector};

/// The imports of a module, in order.
pub type Imports = Vector<Import>;

/// The globals that a module defines, in order.
pub type Globals = Vector<GlobalDef>;

/// The exports of a module, in order.
pub type Exports = Vector<Export>;

/// The element segments of a module, in order.
pub type Elements = Vector<Element>;

/// The data segments of a module, in order.
pub type Segments = Vector<Segment>;

/// What is imported; a function by the index of its type (Core 1.0, 2.5.11).
#[derive(Clone, Copy, Debug, PartialEq, Eq)]
pub enum Imported {
    Function(u32),
    Table(Bounds),
    Memory(Bounds),
    Global(GlobalType),
}

/// An import: the module's name, the name in it, and what it is (Core 1.0, 2.5.11).
#[derive(Debug, Drop)]
pub struct Import {
    pub module: Name,
    pub name: Name,
    pub what: Imported,
}

/// A global and the expression of its first value (Core 1.0, 2.5.6).
#[derive(Debug, Drop)]
pub struct GlobalDef {
    pub ty: GlobalType,
    pub init: Expr,
}

/// What an export's index counts.
#[derive(Clone, Copy, Debug, PartialEq, Eq)]
pub enum ExportKind {
    Function,
    Table,
    Memory,
    Global,
}

/// An export (Core 1.0, 2.5.10).
#[derive(Debug, Drop)]
pub struct Export {
    pub name: Name,
    pub kind: ExportKind,
    pub index: u32,
}

/// An element segment: functions for a table from an offset on (Core 1.0, 2.5.7).
#[derive(Debug, Drop)]
pub struct Element {
    pub table: u32,
    pub offset: Expr,
    pub functions: Indexes,
}

/// A data segment: bytes for a memory from an offset on (Core 1.0, 2.5.8).
#[derive(Debug, Drop)]
pub struct Segment {
    pub memory: u32,
    pub offset: Expr,
    pub bytes: Octets,
}

/// The parts of a module (Core 1.0, 2.5). `functions` are the indexes of the types of the
/// functions whose bodies are `bodies`.
#[derive(Debug, Drop)]
pub struct Parts {
    pub types: FuncTypes,
    pub imports: Imports,
    pub functions: Indexes,
    pub tables: Limits,
    pub memories: Limits,
    pub globals: Globals,
    pub exports: Exports,
    pub start: Option<u32>,
    pub elements: Elements,
    pub segments: Segments,
    pub bodies: Bodies,
}
