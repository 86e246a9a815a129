//! A module that is instantiated.
ghost use Rattle.std.specs.Prelude.{◌≡◌, option_copied};
ghost use Rattle.instance_store.specs.Instance.{Instance};

use crate::Invocation;
use linear_memory::Memory;
use std::marker::Model;

/// What a module that starts has before its first instruction (Core 1.0, 4.5.4): its globals, its table, its memory,
/// and the functions that are still to be entered. Values are the numbers that their bits spell.
#[derive(Debug, Drop)]
pub struct Store {
    globals: Vec<u64>,
    table: Vec<Option<u32>>,
    memory: Option<Memory>,
    invocations: Vec<Invocation>,
}

impl Model for Store {
    ghost use Rattle.instance_store.specs.Instance.{Instance};

    ghost Value = { Instance };

    ghost view = { λ s. record {
      globals = s.globals.items;
      table = s.table.items;
      memory = s.memory;
      invocations = s.invocations.items;
    } };
}

impl Store {
    /// A store of these.
    pub(crate) fn of(
        globals: Vec<u64>,
        table: Vec<Option<u32>>,
        memory: Option<Memory>,
        invocations: Vec<Invocation>,
    ) -> Store
        ensures { result ≡ record {
          globals = globals.items;
          table = table.items;
          memory = memory;
          invocations = invocations.items;
        } }
    {
        Store {
            globals,
            table,
            memory,
            invocations,
        }
    }

    /// The values of the globals, by their indexes.
    pub fn globals(&self) -> &[u64]
        ensures { result.now ≡ self.now.globals }
    {
        self.globals.as_slice()
    }

    /// The elements of the table, each the index of a function or unset; none without a table.
    pub fn table(&self) -> &[Option<u32>]
        ensures { result.now ≡ self.now.table }
    {
        self.table.as_slice()
    }

    /// The memory, if there is one.
    pub fn memory(&self) -> Option<&Memory>
        ensures { option_copied result ≡ self.now.memory }
    {
        self.memory.as_ref()
    }

    /// The functions to be entered, in their order.
    pub fn invocations(&self) -> &[Invocation]
        ensures { result.now ≡ self.now.invocations }
    {
        self.invocations.as_slice()
    }

    /// All of it, taken out: the globals, the table, the memory and the functions to be entered.
    pub fn into_parts(self) -> (Vec<u64>, Vec<Option<u32>>, Option<Memory>, Vec<Invocation>)
        ensures globals { result.0.items ≡ self.globals }
        ensures table { result.1.items ≡ self.table }
        ensures memory { result.2 ≡ self.memory }
        ensures invocations { result.3.items ≡ self.invocations }
    {
        (self.globals, self.table, self.memory, self.invocations)
    }
}
