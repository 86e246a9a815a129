ghost use Rattle.std.specs.Prelude.{◌≡◌, ◌<◌, length, IfOk};
ghost use Rattle.wasm_form.specs.Validity.{KeepsRules};
ghost use Rattle.wasm_form.specs.Profile.{HasFewLocals, HasFewParameters};
ghost use Rattle.code_map.specs.Callees.{imported_of};
ghost use Rattle.code_map.specs.Counts.{AreSignatures};
ghost use Rattle.code_map.specs.Maps.{IsMapOf, IsBodyMap, AreBodyMaps};
ghost use Rattle.code_map.specs.Ready.{IsReady};

use crate::body::map_body;
use crate::callee::Callees;
use crate::callees::{Calling, local_count};
use crate::classes::classes_of;
use crate::functions::imported_functions;
use crate::{BodyMap, Signatures};
use memory_refusal::NoMemory;
use std::alloc::Global;
use wasm_form::{Indexes, Module, Parts, Vector};

/// The maps of bodies, in order.
pub type BodyMaps = Vector<BodyMap>;

/// The map of a module's code.
#[derive(Debug, Drop)]
pub struct CodeMap {
    /// For each function that the module defines, in order, where its branches lead.
    pub bodies: BodyMaps,
    /// For each function index what a call of it enters.
    pub callees: Callees,
    /// For each type its class: the least index of a type that is equal.
    pub classes: Indexes,
}

impl CodeMap {
    /// The map of a module that is valid and inside the profile, whose imported functions are these
    /// calls of the host, in order. One pass over each body, and memory as there are instructions,
    /// labels, functions and types; types are compared with those before them.
    ///
    /// `NoMemory` comes for want of memory alone.
    pub fn of(alloc: Global, module: &Module, calls: &[u8]) -> Result<CodeMap, NoMemory>
        requires rules { KeepsRules «module».now }
        requires locals { HasFewLocals «module».now }
        requires parameters { HasFewParameters «module».now }
        requires calls { length calls.now ≡ length (imported_of «module».now) }
        ensures { IfOk result (λ map. IsMapOf «module».now calls.now map) }
    {
        let parts = module.parts();
        let mut functions = imported_functions(alloc, parts.imports.as_slice())?;
        let imported = functions.len();
        functions.extend_from_slice(parts.functions.as_slice())?;
        let classes = classes_of(alloc, parts.types.as_slice())?;
        let calling = Calling {
            parts,
            calls,
            imported,
            functions: functions.as_slice(),
            classes: classes.as_slice(),
        };
        let callees = calling.callees(alloc)?;
        let signatures = Signatures {
            types: parts.types.as_slice(),
            functions: functions.as_slice(),
        };
        let bodies = map_bodies(alloc, parts, &signatures)?;
        Ok(CodeMap {
            bodies,
            callees,
            classes,
        })
    }
}

/// The maps of the bodies of a module.
fn map_bodies(
    alloc: Global,
    parts: &Parts,
    signatures: &Signatures<'_>,
) -> Result<BodyMaps, NoMemory>
    requires ready { IsReady parts.now }
    requires signatures { AreSignatures parts.now signatures.now }
    ensures { IfOk result (λ maps. AreBodyMaps parts.now maps) }
{
    let mut maps = BodyMaps::new(alloc);
    for place in 0..parts.bodies.len() {
        let map = map_function(alloc, parts, signatures, place)?;
        maps.push(map)?;
    }
    Ok(maps)
}

/// The map of the body of the function at this place among the module's own.
fn map_function(
    alloc: Global,
    parts: &Parts,
    signatures: &Signatures<'_>,
    place: usize,
) -> Result<BodyMap, NoMemory>
    requires ready { IsReady parts.now }
    requires signatures { AreSignatures parts.now signatures.now }
    requires there { place < length parts.now.bodies }
    ensures { IfOk result (λ map. IsBodyMap parts.now place map) }
{
    let index = parts.functions.as_slice()[place];
    let ty = &parts.types.as_slice()[index as usize];
    let body = &parts.bodies.as_slice()[place];
    let locals = ty.params.len() + local_count(body.locals.as_slice()) as usize;
    map_body(
        alloc,
        signatures,
        locals,
        !ty.results.is_empty(),
        &body.expr,
    )
}
