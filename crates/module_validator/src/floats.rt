//! The first rule of the profile: no floats.
ghost use Rattle.std.specs.Prelude.{◌≡◌, ◌↔◌, IsTrue, All};
ghost use Rattle.wasm_form.specs.declared.value_type.ValType.{ValType};
ghost use Rattle.wasm_form.specs.declared.types.FuncType.{FuncType};
ghost use Rattle.wasm_form.specs.declared.expr.Expr.{Expr};
ghost use Rattle.wasm_form.specs.declared.parts.Import.{Import};
ghost use Rattle.wasm_form.specs.declared.parts.GlobalDef.{GlobalDef};
ghost use Rattle.wasm_form.specs.declared.parts.Element.{Element};
ghost use Rattle.wasm_form.specs.declared.parts.Segment.{Segment};
ghost use Rattle.wasm_form.specs.declared.body.Body.{Body};
ghost use Rattle.wasm_form.specs.declared.body.LocalRun.{LocalRun};
ghost use Rattle.wasm_form.specs.Profile.{IsInteger, HasIntegerResult, IsIntegerImport, IsFloatless};
ghost use Rattle.wasm_form.specs.Profile.{HasNoFloat, expressions_of};
ghost use Rattle.wasm_ops.specs.Table.{is_float};

use wasm_form::{
    Body, Element, Expr, FuncType, GlobalDef, Imm, Import, Imported, Instr, LocalRun, Module,
    Segment, ValType,
};
use wasm_ops::{Kind, table};

/// No float stands as a value type anywhere, and no instruction is a float one.
pub(crate) fn has_no_float(module: &Module) -> bool
    ensures { IsTrue result ↔ HasNoFloat «module».now }
{
    has_integer_params(module.types())
        && has_integer_results(module.types())
        && has_integer_imports(module.imports())
        && has_integer_globals(module.globals())
        && has_integer_locals(module.bodies())
        && has_floatless_code(module)
}

fn is_integer(ty: ValType) -> bool
    ensures { IsTrue result ↔ IsInteger ty }
{
    match ty {
        ValType::I32 | ValType::I64 => true,
        ValType::F32 | ValType::F64 => false,
    }
}

fn are_integers(types: &[ValType]) -> bool
    ensures { IsTrue result ↔ All IsInteger types.now }
{
    types.iter().all(|ty| is_integer(*ty))
}

fn has_integer_params(types: &[FuncType]) -> bool
    ensures { IsTrue result ↔ All (λ (ty : FuncType). All IsInteger ty.params) types.now }
{
    types.iter().all(|ty| are_integers(ty.params.as_slice()))
}

fn has_integer_results(types: &[FuncType]) -> bool
    ensures { IsTrue result ↔ All (λ (ty : FuncType). All IsInteger ty.results) types.now }
{
    types.iter().all(|ty| are_integers(ty.results.as_slice()))
}

fn is_integer_import(what: Imported) -> bool
    ensures { IsTrue result ↔ IsIntegerImport what }
{
    match what {
        Imported::Global(global) => is_integer(global.ty),
        _ => true,
    }
}

fn has_integer_imports(imports: &[Import]) -> bool
    ensures { IsTrue result ↔ All (λ (i : Import). IsIntegerImport i.what) imports.now }
{
    imports.iter().all(|import| is_integer_import(import.what))
}

fn has_integer_globals(globals: &[GlobalDef]) -> bool
    ensures { IsTrue result ↔ All (λ (g : GlobalDef). IsInteger g.ty.ty) globals.now }
{
    globals.iter().all(|global| is_integer(global.ty.ty))
}

fn are_integer_runs(runs: &[LocalRun]) -> bool
    ensures { IsTrue result ↔ All (λ (run : LocalRun). IsInteger run.ty) runs.now }
{
    runs.iter().all(|run| is_integer(run.ty))
}

fn has_integer_locals(bodies: &[Body]) -> bool
    ensures { IsTrue result ↔ All (λ (b : Body). All (λ (run : LocalRun). IsInteger run.ty) b.locals) bodies.now }
{
    bodies
        .iter()
        .all(|body| are_integer_runs(body.locals.as_slice()))
}

fn has_integer_result(imm: Imm) -> bool
    ensures { IsTrue result ↔ HasIntegerResult imm }
{
    match imm {
        Imm::Block(Some(ty)) => is_integer(ty),
        _ => true,
    }
}

fn is_float(code: u8) -> bool
    ensures { result ≡ is_float code }
{
    match table::row(code) {
        Some(row) => matches!(row.kind, Kind::Float),
        None => false,
    }
}

fn is_floatless(instr: Instr) -> bool
    ensures { IsTrue result ↔ IsFloatless instr }
{
    !is_float(instr.code) && has_integer_result(instr.imm)
}

fn is_floatless_expr(expr: &Expr) -> bool
    ensures { IsTrue result ↔ All IsFloatless expr.now.code }
{
    expr.code
        .as_slice()
        .iter()
        .all(|instr| is_floatless(*instr))
}

fn has_floatless_code(module: &Module) -> bool
    ensures { IsTrue result ↔ All (λ (e : Expr). All IsFloatless e.code) (expressions_of «module».now) }
{
    are_floatless(
        module.globals(),
        module.elements(),
        module.segments(),
        module.bodies(),
    )
}

fn are_floatless(
    globals: &[GlobalDef],
    elements: &[Element],
    segments: &[Segment],
    bodies: &[Body],
) -> bool
    ensures { IsTrue result
        ↔ (All (λ (g : GlobalDef). All IsFloatless g.init.code) globals.now
        × All (λ (e : Element). All IsFloatless e.offset.code) elements.now
        × All (λ (s : Segment). All IsFloatless s.offset.code) segments.now
        × All (λ (b : Body). All IsFloatless b.expr.code) bodies.now) }
{
    has_floatless_globals(globals)
        && has_floatless_elements(elements)
        && has_floatless_segments(segments)
        && has_floatless_bodies(bodies)
}

fn has_floatless_globals(globals: &[GlobalDef]) -> bool
    ensures { IsTrue result ↔ All (λ (g : GlobalDef). All IsFloatless g.init.code) globals.now }
{
    globals.iter().all(|global| is_floatless_expr(&global.init))
}

fn has_floatless_elements(elements: &[Element]) -> bool
    ensures { IsTrue result ↔ All (λ (e : Element). All IsFloatless e.offset.code) elements.now }
{
    elements
        .iter()
        .all(|element| is_floatless_expr(&element.offset))
}

fn has_floatless_segments(segments: &[Segment]) -> bool
    ensures { IsTrue result ↔ All (λ (s : Segment). All IsFloatless s.offset.code) segments.now }
{
    segments
        .iter()
        .all(|segment| is_floatless_expr(&segment.offset))
}

fn has_floatless_bodies(bodies: &[Body]) -> bool
    ensures { IsTrue result ↔ All (λ (b : Body). All IsFloatless b.expr.code) bodies.now }
{
    bodies.iter().all(|body| is_floatless_expr(&body.expr))
}
