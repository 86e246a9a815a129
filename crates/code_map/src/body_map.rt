ghost use Rattle.std.specs.Prelude.{◌≡◌, ◌<◌, ◌^◌, ◌∷◌, [], ◌++◌, length, OnOk};
ghost use Rattle.code_map.specs.Marks.{Marks, MarksTable, target_at};
ghost use Rattle.code_map.specs.Left.{labels_in};

use crate::target::Targets;
use crate::{Opens, Target};
use memory_refusal::NoMemory;
use std::alloc::Global;
use wasm_form::Indexes;

/// Where the branches of a body lead. It stands beside the flat list of the body's instructions.
#[derive(Debug, Drop)]
pub struct BodyMap {
    /// For each place of the flat list: at br, br_if, return, if and else the place of its target in
    /// `targets`; at br_table that of its first label's in `tables`; elsewhere a number that says
    /// nothing.
    pub slots: Indexes,
    /// The targets of all branches but those of br_table.
    pub targets: Targets,
    /// For each br_table the targets of its labels, in order, and then that of its default label.
    pub tables: Targets,
}

impl BodyMap {
    /// Of no instruction.
    pub(crate) fn new(alloc: Global) -> BodyMap
        ensures slots { result.slots ≡ [] }
        ensures targets { result.targets ≡ [] }
        ensures tables { result.tables ≡ [] }
    {
        BodyMap {
            slots: Indexes::new(alloc),
            targets: Targets::new(alloc),
            tables: Targets::new(alloc),
        }
    }

    /// One instruction more, with this target or none. For want of memory the map is of no further use.
    pub(crate) fn mark(&mut self, target: Option<Target>) -> Result<(), NoMemory>
        requires { length self.old.targets < 2 ^ 32 }
        ensures { OnOk result (Marks target self.old self.new) }
    {
        self.slots.push(self.targets.len() as u32)?;
        if let Some(target) = target {
            self.targets.push(target)?;
        }
        Ok(())
    }

    /// One br_table more, with these labels. For want of memory the map is of no further use.
    pub(crate) fn mark_table(
        &mut self,
        opens: &Opens,
        labels: &[u32],
        last: u32,
    ) -> Result<(), NoMemory>
        requires { length self.old.tables < 2 ^ 32 }
        ensures { OnOk result (MarksTable (labels_in opens.now) (labels.now ++ last ∷ []) self.old self.new) }
    {
        self.slots.push(self.tables.len() as u32)?;
        for label in labels {
            self.tables.push(opens.target(*label))?;
        }
        self.tables.push(opens.target(last))?;
        Ok(())
    }
}
