ghost use Rattle.std.specs.Prelude.{◌≡◌};

/// Why an instruction trapped (Core 1.0, 4.4).
#[derive(Clone, Copy, Debug, PartialEq, Eq)]
pub enum Trap {
    /// `unreachable` was executed.
    Unreachable,
    /// A division or remainder by zero.
    DivideByZero,
    /// The signed quotient does not fit its type.
    Overflow,
    /// An access past the end of the memory.
    Bounds,
    /// `call_indirect` with an index past the end of the table.
    TableBounds,
    /// `call_indirect` of a table element that is not set.
    NoElement,
    /// `call_indirect` of a function of another type.
    WrongType,
}

impl Trap {
    ghost use Rattle.wasm_ops.specs.Trap.{word_of};

    /// The word that a report has for this trap.
    pub fn word(self) -> &'static str
        ensures { result.now ≡ word_of self }
    {
        match self {
            Trap::Unreachable => "unreachable",
            Trap::DivideByZero => "divide",
            Trap::Overflow => "overflow",
            Trap::Bounds => "bounds",
            Trap::TableBounds => "table",
            Trap::NoElement => "element",
            Trap::WrongType => "type",
        }
    }
}
