ghost use Rattle.std.specs.Prelude.{◌≡◌, ◌<◌, ◌≤◌, ◌^◌, ◌+◌, All, length, IfOk};
ghost use Rattle.wasm_form.specs.declared.parts.Parts.{Parts};
ghost use Rattle.wasm_form.specs.Matching.{IsTree};
ghost use Rattle.code_map.specs.Counts.{AreSignatures, IsNarrow};
ghost use Rattle.code_map.specs.Maps.{IsMapped};
ghost use Rattle.code_map.specs.Steps.{IsBegun};

use crate::{BodyMap, Open, Opens, Pass, Signatures, Target};
use memory_refusal::NoMemory;
use std::alloc::Global;
use wasm_form::Expr;

/// The map of a body over so many parameters and other locals, which gives a value or not.
///
/// `NoMemory` comes for want of memory alone.
pub fn map_body(
    alloc: Global,
    signatures: &Signatures<'_>,
    locals: usize,
    gives: bool,
    expr: &Expr,
) -> Result<BodyMap, NoMemory>
    requires narrow { All IsNarrow signatures.now.types.now }
    requires of_module { (m : Parts) × AreSignatures m signatures.now }
    requires tree { IsTree expr.now }
    requires short { length expr.now.code + length expr.now.labels < 2 ^ 32 }
    requires few { locals < 2 ^ 32 }
    ensures { IfOk result (λ map. (m : Parts) → AreSignatures m signatures.now → IsMapped m locals gives expr.now map) }
{
    let mut pass = begin(alloc, locals, gives, expr.code.len() as u32)?;
    let mut left = expr.code.as_slice();
    while let Some((instr, rest)) = left.split_first() {
        pass.step(
            signatures,
            expr.labels.as_slice(),
            expr.matches.as_slice(),
            *instr,
        )?;
        left = rest;
    }
    Ok(pass.map)
}

/// A pass before the first of so many instructions, the end among them.
fn begin(alloc: Global, locals: usize, gives: bool, length: u32) -> Result<Pass, NoMemory>
    ensures { IfOk result (λ pass. IsBegun locals gives length pass) }
{
    let mut opens = Opens::new(alloc);
    let label = Target {
        to: length,
        height: locals,
        opens: 0,
        carries: gives,
    };
    opens.push(Open { label, gives })?;
    Ok(Pass {
        map: BodyMap::new(alloc),
        opens,
        height: locals,
        matched: 0,
    })
}
