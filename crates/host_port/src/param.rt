ghost use Rattle.std.specs.Prelude.{◌≡◌, [], ◌∷◌, ◌++◌, ◌↔◌, length, IfOk, IsTrue, OnErr, OnOk};
ghost use Rattle.host_port.specs.TypedValue.{IsInRange};

use memory_refusal::NoMemory;
use std::alloc::Global;
use std::marker::Model;
use wasm_ops::Num;

/// A parameter that an entry function is given: its type, and the number that its bits spell.
#[derive(Clone, Copy, Debug)]
pub struct Param {
    num: Num,
    value: u64,
}

impl Model for Param {
    ghost use Rattle.host_port.specs.TypedValue.{TypedValue, IsInRange};

    ghost Value = { TypedValue };

    ghost view = { λ a. record { num = a.num; value = a.value } };

    ghost invariant = { λ a. IsInRange a.num a.value };

    ghost inverse = { λ b. record { num = b.num; value = b.value } };
}

impl Param {
    /// A parameter of this type; an I32 is below 2^32.
    pub fn new(num: Num, value: u64) -> Param
        requires { IsInRange num value }
        ensures { result ≡ record { num = num; value = value } }
    {
        Param { num, value }
    }

    /// Its type.
    pub fn num(&self) -> Num
        ensures { result ≡ self.now.num }
    {
        self.num
    }

    /// The number that its bits spell.
    pub fn value(&self) -> u64
        ensures value { result ≡ self.now.value }
        ensures in_range { IsInRange self.now.num result }
    {
        self.value
    }
}

/// The parameters of an entry function in their order.
#[derive(Debug, Drop)]
pub struct Params {
    items: Vec<Param>,
}

impl Model for Params {
    ghost use Rattle.std.specs.Prelude.{List};
    ghost use Rattle.host_port.specs.TypedValue.{TypedValue};

    ghost Value = { List TypedValue };

    ghost view = { λ a. a.items.items };
}

impl Params {
    /// No parameters. It takes no memory before the first push.
    pub fn new(alloc: Global) -> Params
        ensures { result ≡ [] }
    {
        Params {
            items: Vec::new(alloc),
        }
    }

    /// These parameters, without a copy.
    pub fn from_vec(items: Vec<Param>) -> Params
        ensures { result ≡ items.items }
    {
        Params { items }
    }

    /// The parameters as a `Vec`, without a copy.
    pub fn into_vec(self) -> Vec<Param>
        ensures { result.items ≡ self }
    {
        self.items
    }

    /// Puts one parameter at the end. NoMemory leaves the parameters as they were.
    pub fn push(&mut self, param: Param) -> Result<(), NoMemory>
        ensures ok { OnOk result (self.new ≡ self.old ++ param ∷ []) }
        ensures err { OnErr result (self.new ≡ self.old) }
    {
        self.items.push(param)?;
        Ok(())
    }

    /// The parameters in their order.
    pub fn as_slice(&self) -> &[Param]
        ensures { result.now ≡ self.now }
    {
        self.items.as_slice()
    }

    /// How many parameters there are.
    pub fn len(&self) -> usize
        ensures { result ≡ length self.now }
    {
        self.items.len()
    }

    /// There is no parameter.
    pub fn is_empty(&self) -> bool
        ensures { IsTrue result ↔ (self.now ≡ []) }
    {
        self.items.is_empty()
    }

    /// The same parameters once more.
    pub fn try_clone(&self) -> Result<Params, NoMemory>
        ensures { IfOk result (λ copy. copy ≡ self.now) }
    {
        Ok(Params {
            items: self.items.clone()?,
        })
    }
}
