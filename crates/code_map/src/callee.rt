use wasm_form::Vector;

/// What the functions of a module are, by their indexes, the imported ones first.
pub type Callees = Vector<Callee>;

/// What a call enters. Two function types are equal exactly where their classes are.
#[derive(Clone, Copy, Debug, PartialEq, Eq)]
pub enum Callee {
    /// A function that the module defines: the place of its body, how many parameters and how many
    /// other locals it has, whether it gives a value, and the class of its type.
    Own {
        body: u32,
        params: u32,
        locals: u32,
        gives: bool,
        class: u32,
    },
    /// A call of the host: its number, how many parameters it has, whether it gives a value, and the
    /// class of its type.
    Host {
        call: u8,
        params: u32,
        gives: bool,
        class: u32,
    },
}
