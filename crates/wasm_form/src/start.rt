ghost use Rattle.std.specs.Prelude.{◌≡◌, IfOk};
ghost use Rattle.wasm_form.specs.Start.{start_parts};
ghost use Rattle.wasm_form.specs.Modules.{IsSpelled};

use crate::{
    Bodies, Body, Elements, Export, ExportKind, Exports, Expr, FuncType, FuncTypes, Globals,
    Imports, Indexes, Instrs, Limits, Matches, Module, Name, Parts, Runs, Segments, ValTypes,
};
use memory_refusal::NoMemory;
use std::alloc::Global;

/// The module whose one function, exported as `_start`, has this code with its end.
pub fn start_module(alloc: Global, code: Instrs) -> Result<Module, NoMemory>
    requires spelled { IsSpelled (start_parts code) }
    ensures { IfOk result (λ m. m ≡ start_parts code) }
{
    let mut types = FuncTypes::new(alloc);
    types.push(FuncType {
        params: ValTypes::new(alloc),
        results: ValTypes::new(alloc),
    })?;
    let mut functions = Indexes::new(alloc);
    functions.push(0)?;
    let mut exports = Exports::new(alloc);
    exports.push(Export {
        name: Name::new(String::from_str(alloc, "_start")?),
        kind: ExportKind::Function,
        index: 0,
    })?;
    let mut bodies = Bodies::new(alloc);
    bodies.push(Body {
        locals: Runs::new(alloc),
        expr: Expr {
            code,
            labels: Indexes::new(alloc),
            matches: Matches::new(alloc),
        },
    })?;
    Ok(Module::of_spelled(Parts {
        types,
        imports: Imports::new(alloc),
        functions,
        tables: Limits::new(alloc),
        memories: Limits::new(alloc),
        globals: Globals::new(alloc),
        exports,
        start: None,
        elements: Elements::new(alloc),
        segments: Segments::new(alloc),
        bodies,
    }))
}
