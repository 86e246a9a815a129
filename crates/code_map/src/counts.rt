/// How many operands an instruction takes and gives; what it takes and gives again may be left out.
#[derive(Clone, Copy, Debug, PartialEq, Eq)]
pub struct Counts {
    pub takes: usize,
    pub gives: usize,
}
