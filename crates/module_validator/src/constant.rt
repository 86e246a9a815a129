//! Constant expressions, and the rule of modules on globals.
ghost use Rattle.std.specs.Prelude.{◌≡◌, ◌↔◌, IsTrue, MatchOption, All};
ghost use Rattle.wasm_form.specs.declared.instr.Instr.{Instr};
ghost use Rattle.wasm_form.specs.Trees.{Then, Empty, IsFlat, end_instr};
ghost use Rattle.wasm_form.specs.Typing.{IsConstant};
ghost use Rattle.wasm_form.specs.Profile.{ImportsFunctions};
ghost use Rattle.wasm_form.specs.Validity.{IsConstantExpr, HasConstantGlobals};
ghost use Rattle.module_validator.specs.Constants.{IsConstantGlobal};

use wasm_form::{Expr, GlobalDef, Imm, Instr, Module, ValType};

/// Each global's expression is constant and of the global's type.
pub(crate) fn has_constant_globals(module: &Module) -> bool
    requires { ImportsFunctions «module».now }
    ensures { IsTrue result ↔ HasConstantGlobals «module».now }
{
    are_constant_globals(module)
}

fn are_constant_globals(module: &Module) -> bool
    requires { ImportsFunctions «module».now }
    ensures { IsTrue result ↔ All (IsConstantGlobal «module».now) «module».now.globals }
{
    module
        .globals()
        .iter()
        .all(|global| is_constant_global(module, global))
}

/// The global's expression is constant and of the global's type.
fn is_constant_global(module: &Module, global: &GlobalDef) -> bool
    requires { ImportsFunctions «module».now }
    ensures { IsTrue result ↔ IsConstantGlobal «module».now global.now }
{
    is_constant_expr(module, &global.init, global.ty.ty)
}

/// The expression is one constant of this type and its end. A global.get is none, since no global
/// is imported.
pub(crate) fn is_constant_expr(module: &Module, expr: &Expr, ty: ValType) -> bool
    requires { ImportsFunctions «module».now }
    ensures { IsTrue result ↔ IsConstantExpr «module».now expr.now ty }
{
    match lone_instr(expr) {
        Some(instr) => is_constant(instr, ty),
        None => false,
    }
}

/// The instruction of an expression that is one instruction and its end, and no block.
fn lone_instr(expr: &Expr) -> Option<Instr>
    ensures { MatchOption result ((i : Instr) → ¬ IsFlat expr.now (Then i Empty))
        (λ i. IsFlat expr.now (Then i Empty)) }
{
    let [instr, end] = expr.code.as_slice() else {
        return None;
    };
    if !is_end(*end) {
        return None;
    }
    if !expr.labels.is_empty() {
        return None;
    }
    if !expr.matches.is_empty() {
        return None;
    }
    Some(*instr)
}

/// A constant of this type.
fn is_constant(instr: Instr, ty: ValType) -> bool
    ensures { IsTrue result ↔ IsConstant instr ty }
{
    match instr.code {
        0x41 => ty == ValType::I32,
        0x42 => ty == ValType::I64,
        _ => false,
    }
}

fn is_end(instr: Instr) -> bool
    ensures { IsTrue result ↔ (instr ≡ end_instr) }
{
    instr.code == 0x0B && instr.imm == Imm::None
}
