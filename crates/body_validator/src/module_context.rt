ghost use Rattle.std.specs.Prelude.{◌≡◌, ◌↔◌, ◌<◌, ◌≤◌, ◌^◌, [], length, true, false, Ok, IfOk, IsTrue, option_to_list};
ghost use Rattle.wasm_form.specs.Trees.{Code, IsFlat};
ghost use Rattle.wasm_form.specs.Matching.{HasPlain};
ghost use Rattle.wasm_form.specs.Typing.{Types};
ghost use Rattle.body_validator.specs.Locals.{count_of};
ghost use Rattle.wasm_form.specs.Context.{context_of, tables_of, memories_of, globals_of};
ghost use Rattle.wasm_form.specs.Validity.{HasSingleResults, IsValidFunction};

use crate::code::check_code;
use crate::imported::{imported_functions, imported_globals, imports_memory, imports_table};
use crate::lookup::{body_at, function_at, type_at};
use crate::{Function, Locals};
use memory_refusal::NoMemory;
use std::alloc::Global;
use std::marker::Model;
use wasm_form::{Body, FuncType, GlobalType, Module, ValType};

/// What the bodies of a module may name, made once for all of them. It is seen as the module.
#[derive(Debug, Drop)]
pub struct ModuleContext<'m> {
    module: &'m Module,
    /// The imported ones first, by the indexes of their types.
    functions: Vec<u32>,
    has_table: bool,
    has_memory: bool,
    /// The imported ones first.
    globals: Vec<GlobalType>,
}

impl<'m> Model for ModuleContext<'m> {
    ghost use Rattle.wasm_form.specs.declared.parts.Parts.{Parts};
    ghost use Rattle.body_validator.specs.Modules.{IsMade};

    ghost Value = { Parts };

    ghost view = { λ c. c.«module».now };

    ghost invariant = { λ c. IsMade c.«module».now c.functions.items c.has_table c.has_memory c.globals.items };
}

impl<'m> ModuleContext<'m> {
    /// Of this module, in time and memory as it has imports, functions and globals.
    pub fn new(alloc: Global, module: &'m Module) -> Result<ModuleContext<'m>, NoMemory>
        ensures { IfOk result (λ context. context ≡ «module».now) }
    {
        let mut functions = imported_functions(alloc, module.imports())?;
        functions.extend_from_slice(module.functions())?;
        let globals = all_globals(alloc, module)?;
        let has_table = any_table(module);
        let has_memory = any_memory(module);
        Ok(ModuleContext {
            module,
            functions,
            has_table,
            has_memory,
            globals,
        })
    }

    /// Whether the module's own function at this place is typed, where each type has at most one
    /// result. A body with a float instruction isn't, nor is one that isn't there.
    ///
    /// `NoMemory` comes for want of memory alone.
    pub fn check(&self, alloc: Global, place: usize) -> Result<bool, NoMemory>
        requires { HasSingleResults self.now }
        ensures yes { result ≡ Ok true → IsValidFunction self.now place }
        ensures no { result ≡ Ok false → ¬ IsValidFunction self.now place }
    {
        let parts = self.module.parts();
        let Some(index) = function_at(parts.functions.as_slice(), place) else {
            return Ok(false);
        };
        let Some(ty) = type_at(parts.types.as_slice(), index) else {
            return Ok(false);
        };
        let Some(body) = body_at(parts.bodies.as_slice(), place) else {
            return Ok(false);
        };
        self.is_typed(alloc, ty, body)
    }

    /// Whether this body is typed as one of a function of this type.
    fn is_typed(&self, alloc: Global, ty: &FuncType, body: &Body) -> Result<bool, NoMemory>
        requires single { length ty.now.results ≤ 1 }
        requires few { count_of body.now.locals < 2 ^ 32 }
        ensures yes { result ≡ Ok true → (tree : Code) → HasPlain tree → IsFlat body.now.expr tree
            → Types (context_of self.now ty.now body.now.locals) tree [] ty.now.results }
        ensures no { result ≡ Ok false → (tree : Code) → HasPlain tree → IsFlat body.now.expr tree
            → ¬ Types (context_of self.now ty.now body.now.locals) tree [] ty.now.results }
    {
        let locals = Locals::new(alloc, ty.params.as_slice(), body.locals.as_slice())?;
        let function = Function {
            types: self.module.types(),
            functions: self.functions.as_slice(),
            has_table: self.has_table,
            has_memory: self.has_memory,
            globals: self.globals.as_slice(),
            locals: &locals,
            results: single(ty.results.as_slice()),
        };
        check_code(alloc, &function, &body.expr)
    }
}

/// Whether there is a table.
fn any_table(module: &Module) -> bool
    ensures { IsTrue result ↔ 0 < length (tables_of «module».now) }
{
    if imports_table(module.imports()) {
        return true;
    }
    !module.tables().is_empty()
}

/// Whether there is a memory.
fn any_memory(module: &Module) -> bool
    ensures { IsTrue result ↔ 0 < length (memories_of «module».now) }
{
    if imports_memory(module.imports()) {
        return true;
    }
    !module.memories().is_empty()
}

/// The one type, or none.
fn single(types: &[ValType]) -> Option<ValType>
    requires { length types.now ≤ 1 }
    ensures { types.now ≡ option_to_list result }
{
    match types {
        [] => None,
        [first, ..] => Some(*first),
    }
}

/// The types of all globals, the imported ones first.
fn all_globals(alloc: Global, module: &Module) -> Result<Vec<GlobalType>, NoMemory>
    ensures { IfOk result (λ v. v.items ≡ globals_of «module».now) }
{
    let mut globals = imported_globals(alloc, module.imports())?;
    let own = module.globals();
    for global in own {
        globals.push(global.ty)?;
    }
    Ok(globals)
}

/// Whether the module's own function at this place is typed, where each type has at most one
/// result. A body with a float instruction isn't, nor is one that isn't there. For many functions of a
/// module make a [`ModuleContext`].
///
/// `NoMemory` comes for want of memory alone.
pub fn check_body(alloc: Global, module: &Module, place: usize) -> Result<bool, NoMemory>
    requires { HasSingleResults «module».now }
    ensures yes { result ≡ Ok true → IsValidFunction «module».now place }
    ensures no { result ≡ Ok false → ¬ IsValidFunction «module».now place }
{
    ModuleContext::new(alloc, module)?.check(alloc, place)
}
