/// The type of an integer operand, parameter or result (Core 1.0, 2.3.1).
#[derive(Clone, Copy, Debug, PartialEq, Eq)]
pub enum Num {
    I32,
    I64,
}
