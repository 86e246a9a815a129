ghost use Rattle.std.specs.Prelude.{◌≡◌};
ghost use Rattle.body_validator.specs.Rules.{control_rule};

/// The rule of typing that an instruction has which opens and closes no block (Core 1.0, 3.3.1 to
/// 3.3.5), but for br_table.
#[derive(Clone, Copy, Debug, PartialEq, Eq)]
pub enum Rule {
    /// A constant.
    Constant,
    /// An integer operation.
    Operation,
    /// drop, select.
    Parametric,
    /// local.get, local.set, local.tee.
    Local,
    /// global.get, global.set.
    Global,
    /// A load or a store of an integer.
    Access,
    /// memory.size, memory.grow.
    MemorySize,
    Nop,
    BranchIf,
    Call,
    CallIndirect,
    /// unreachable, br, return.
    Leaves,
    /// None: floats, the instructions that open and close blocks, br_table.
    Untyped,
}

impl Rule {
    /// The rule of the instruction with this code, which is of no kind but Control.
    #[tactic(auto, unfolding(crate::specs::Rules::control_rule))]
    pub fn of_control(code: u8) -> Rule
        ensures { result ≡ control_rule code }
    {
        if code <= 0x00 {
            Rule::Leaves
        } else if code <= 0x01 {
            Rule::Nop
        } else if code <= 0x0B {
            Rule::Untyped
        } else if code <= 0x0C {
            Rule::Leaves
        } else if code <= 0x0D {
            Rule::BranchIf
        } else if code <= 0x0E {
            Rule::Untyped
        } else if code <= 0x0F {
            Rule::Leaves
        } else if code <= 0x10 {
            Rule::Call
        } else if code <= 0x11 {
            Rule::CallIndirect
        } else if code <= 0x19 {
            Rule::Untyped
        } else if code <= 0x1B {
            Rule::Parametric
        } else if code <= 0x1F {
            Rule::Untyped
        } else if code <= 0x22 {
            Rule::Local
        } else if code <= 0x24 {
            Rule::Global
        } else if code <= 0x3E {
            Rule::Untyped
        } else if code <= 0x40 {
            Rule::MemorySize
        } else if code <= 0x42 {
            Rule::Constant
        } else {
            Rule::Untyped
        }
    }
}
