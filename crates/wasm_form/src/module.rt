ghost use Rattle.std.specs.Prelude.{◌≡◌, ℕ, List, IfOk, Err};
ghost use Rattle.wasm_form.specs.Modules.{Spells, IsSpelled};
ghost use Rattle.wasm_form.specs.Spellable.{without_matches};
ghost use Rattle.wasm_form.specs.declared.parts.Parts.{Parts};

use crate::matched::with_matches;
use crate::sizes::{have_few_locals, have_sizes};
use crate::{
    Body, Bounds, Element, Export, FuncType, GlobalDef, Import, Parts, PartsFault, Segment,
};
use std::alloc::Global;
use std::marker::Model;

/// A module that some bytes spell, seen as its parts (Core 1.0, 2.5).
#[derive(Debug, Drop)]
pub struct Module {
    parts: Parts,
}

impl Model for Module {
    ghost use Rattle.wasm_form.specs.declared.parts.Parts.{Parts};
    ghost use Rattle.wasm_form.specs.Modules.{IsSpelled};

    ghost Value = { Parts };

    ghost view = { λ m. m.parts };

    ghost invariant = { λ m. IsSpelled m.parts };
}

impl Module {
    /// The module with these parts, which some bytes spell.
    pub fn of_spelled(parts: Parts) -> Module
        requires spelled { IsSpelled parts }
        ensures is { result ≡ parts }
    {
        Module { parts }
    }

    /// The module with these parts. Their matching places don't count, and are made anew. `Unmatched`
    /// exactly where no bytes spell the parts whatever their matching places are, as where an end is
    /// lacking or a size has more than 32 bits; `NoMemory` where the machine has no memory. The parts
    /// are gone then.
    pub fn from_parts(alloc: Global, parts: Parts) -> Result<Module, PartsFault>
        ensures ok { IfOk result (λ m. (without_matches m ≡ without_matches parts) × IsSpelled m) }
        ensures unmatched { result ≡ Err PartsFault.Unmatched → (m : Parts)
            → without_matches m ≡ without_matches parts → (bytes : List ℕ) → Spells bytes m → ⊥ }
    {
        if parts.functions.len() != parts.bodies.len() {
            return Err(PartsFault::Unmatched);
        }
        if !have_few_locals(parts.bodies.as_slice()) {
            return Err(PartsFault::Unmatched);
        }
        if !have_sizes(&parts) {
            return Err(PartsFault::Unmatched);
        }
        let made = with_matches(alloc, parts)?;
        Ok(Module::of_spelled(made))
    }

    /// All the parts.
    pub fn parts(&self) -> &Parts
        ensures is { result.now ≡ self.now }
        ensures spelled { IsSpelled self.now }
    {
        &self.parts
    }

    /// The types of functions, by their indexes.
    pub fn types(&self) -> &[FuncType]
        ensures { result.now ≡ self.now.types }
    {
        self.parts.types.as_slice()
    }

    /// What is imported, in order.
    pub fn imports(&self) -> &[Import]
        ensures { result.now ≡ self.now.imports }
    {
        self.parts.imports.as_slice()
    }

    /// For each of the module's own functions the index of its type.
    pub fn functions(&self) -> &[u32]
        ensures { result.now ≡ self.now.functions }
    {
        self.parts.functions.as_slice()
    }

    /// The limits of the module's own tables, in elements.
    pub fn tables(&self) -> &[Bounds]
        ensures { result.now ≡ self.now.tables }
    {
        self.parts.tables.as_slice()
    }

    /// The limits of the module's own memories, in pages.
    pub fn memories(&self) -> &[Bounds]
        ensures { result.now ≡ self.now.memories }
    {
        self.parts.memories.as_slice()
    }

    /// The module's own globals.
    pub fn globals(&self) -> &[GlobalDef]
        ensures { result.now ≡ self.now.globals }
    {
        self.parts.globals.as_slice()
    }

    /// What is exported, in order.
    pub fn exports(&self) -> &[Export]
        ensures { result.now ≡ self.now.exports }
    {
        self.parts.exports.as_slice()
    }

    /// The function that is called first, where there is one.
    pub fn start(&self) -> Option<u32>
        ensures { result ≡ self.now.start }
    {
        self.parts.start
    }

    /// The element segments, in order.
    pub fn elements(&self) -> &[Element]
        ensures { result.now ≡ self.now.elements }
    {
        self.parts.elements.as_slice()
    }

    /// The data segments, in order.
    pub fn segments(&self) -> &[Segment]
        ensures { result.now ≡ self.now.segments }
    {
        self.parts.segments.as_slice()
    }

    /// The bodies of the module's own functions, in order.
    pub fn bodies(&self) -> &[Body]
        ensures { result.now ≡ self.now.bodies }
    {
        self.parts.bodies.as_slice()
    }
}
