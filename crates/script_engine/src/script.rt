use host_port::Ask;
use wasm_ops::Trap;

/// What a process does: it asks these calls one after another, each by one instruction. Then it
/// traps by one more instruction, or its entry function returns.
#[derive(Debug, Drop)]
pub struct Script {
    /// The calls that it asks.
    pub asks: Vec<Ask>,
    /// The trap that ends it, if one does.
    pub end: Option<Trap>,
}
