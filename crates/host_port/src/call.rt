ghost use Rattle.std.specs.Prelude.{◌≡◌, [], ◌∷◌, ◌++◌, length, ◌↔◌, IfOk, IsTrue, OnErr, OnOk};

use crate::{Reply, Request};
use memory_refusal::NoMemory;
use std::alloc::Global;
use std::marker::Model;

/// A host call that was answered.
#[derive(Debug, Drop)]
pub struct Call {
    /// What was asked.
    pub request: Request,
    /// What was answered.
    pub reply: Reply,
}

impl Call {
    /// The same call once more.
    pub fn try_clone(&self) -> Result<Call, NoMemory>
        ensures { IfOk result (λ copy. copy ≡ self.now) }
    {
        Ok(Call {
            request: self.request.try_clone()?,
            reply: self.reply.try_clone()?,
        })
    }
}

/// Answered calls in their order.
#[derive(Debug, Drop)]
pub struct Calls {
    items: Vec<Call>,
}

impl Model for Calls {
    ghost use Rattle.std.specs.Prelude.{List};
    ghost use Rattle.host_port.specs.declared.call.Call.{Call};

    ghost Value = { List Call };

    ghost view = { λ a. a.items.items };
}

impl Calls {
    /// No calls. It takes no memory before the first push.
    pub fn new(alloc: Global) -> Calls
        ensures { result ≡ [] }
    {
        Calls {
            items: Vec::new(alloc),
        }
    }

    /// These calls, without a copy.
    pub fn from_vec(items: Vec<Call>) -> Calls
        ensures { result ≡ items.items }
    {
        Calls { items }
    }

    /// The calls as a `Vec`, without a copy.
    pub fn into_vec(self) -> Vec<Call>
        ensures { result.items ≡ self }
    {
        self.items
    }

    /// Puts one call at the end. NoMemory leaves the calls as they were, and drops this one.
    pub fn push(&mut self, call: Call) -> Result<(), NoMemory>
        ensures ok { OnOk result (self.new ≡ self.old ++ call ∷ []) }
        ensures err { OnErr result (self.new ≡ self.old) }
    {
        self.items.push(call)?;
        Ok(())
    }

    /// The calls in their order.
    pub fn as_slice(&self) -> &[Call]
        ensures { result.now ≡ self.now }
    {
        self.items.as_slice()
    }

    /// How many calls there are.
    pub fn len(&self) -> usize
        ensures { result ≡ length self.now }
    {
        self.items.len()
    }

    /// There is no call.
    pub fn is_empty(&self) -> bool
        ensures { IsTrue result ↔ (self.now ≡ []) }
    {
        self.items.is_empty()
    }

    /// The same calls once more.
    pub fn try_clone(&self) -> Result<Calls, NoMemory>
        ensures { IfOk result (λ copy. copy ≡ self.now) }
    {
        let mut items = Vec::new(*self.items.allocator());
        for call in &self.items {
            items.push(call.try_clone()?)?;
        }
        Ok(Calls { items })
    }
}
