//! Matching places made anew.

ghost use Rattle.std.specs.Prelude.{◌≡◌, ◌<◌, ◌^◌, All, IfOk, List, Err, length, map};
ghost use Rattle.wasm_form.specs.Matching.{IsTree};
ghost use Rattle.wasm_form.specs.Spellable.{bare_expr, without_matches, HasSizes, HasTrees};
ghost use Rattle.wasm_form.specs.declared.expr.Expr.{Expr};
ghost use Rattle.wasm_form.specs.declared.parts.Parts.{Parts};

use crate::{Body, Element, Expr, GlobalDef, Parts, PartsFault, Segment, Vector, match_blocks};
use std::alloc::Global;

/// What has an expression.
pub trait HasExpr {
    ghost expr_of: { Self → Expr };

    /// The same without matching places.
    ghost bare: { Self → Self };

    /// Makes the matching places of the expression anew. `Unmatched` where it is no tree whatever
    /// they are, `NoMemory` where the machine has no memory.
    fn match_anew(&mut self, alloc: Global) -> Result<(), PartsFault>
        requires { length (expr_of self.old).code < 2 ^ 32 }
        ensures ok { IfOk result (λ _. (bare self.new ≡ bare self.old) × IsTree (expr_of self.new)) }
        ensures unmatched { result ≡ Err PartsFault.Unmatched → (x : Self) → bare x ≡ bare self.old
            → IsTree (expr_of x) → ⊥ };
}

impl HasExpr for Expr {
    ghost use Rattle.wasm_form.specs.Spellable.{bare_expr};

    ghost expr_of = { λ e. e };

    ghost bare = { bare_expr };

    fn match_anew(&mut self, alloc: Global) -> Result<(), PartsFault> {
        let matches = match_blocks(alloc, self.code.as_slice(), self.labels.as_slice())?;
        self.matches = matches;
        Ok(())
    }
}

impl HasExpr for Body {
    ghost use Rattle.wasm_form.specs.Spellable.{bare_body};

    ghost expr_of = { λ body. body.expr };

    ghost bare = { bare_body };

    fn match_anew(&mut self, alloc: Global) -> Result<(), PartsFault> {
        self.expr.match_anew(alloc)
    }
}

impl HasExpr for GlobalDef {
    ghost use Rattle.wasm_form.specs.Spellable.{bare_global};

    ghost expr_of = { λ global. global.init };

    ghost bare = { bare_global };

    fn match_anew(&mut self, alloc: Global) -> Result<(), PartsFault> {
        self.init.match_anew(alloc)
    }
}

impl HasExpr for Element {
    ghost use Rattle.wasm_form.specs.Spellable.{bare_element};

    ghost expr_of = { λ e. e.offset };

    ghost bare = { bare_element };

    fn match_anew(&mut self, alloc: Global) -> Result<(), PartsFault> {
        self.offset.match_anew(alloc)
    }
}

impl HasExpr for Segment {
    ghost use Rattle.wasm_form.specs.Spellable.{bare_segment};

    ghost expr_of = { λ s. s.offset };

    ghost bare = { bare_segment };

    fn match_anew(&mut self, alloc: Global) -> Result<(), PartsFault> {
        self.offset.match_anew(alloc)
    }
}

/// Makes the matching places of each item anew.
fn match_each<T: HasExpr>(alloc: Global, items: &mut [T]) -> Result<(), PartsFault>
    requires { All (λ x. length (T.expr_of x).code < 2 ^ 32) items.old }
    ensures ok { IfOk result (λ _. (map T.bare items.new ≡ map T.bare items.old)
        × All (λ x. IsTree (T.expr_of x)) items.new) }
    ensures unmatched { result ≡ Err PartsFault.Unmatched → (xs : List T) → map T.bare xs ≡ map T.bare items.old
        → All (λ x. IsTree (T.expr_of x)) xs → ⊥ }
{
    for i in 0..items.len() {
        items[i].match_anew(alloc)?;
    }
    Ok(())
}

/// These items with their matching places made anew.
fn matched<T: HasExpr + Drop>(alloc: Global, items: Vector<T>) -> Result<Vector<T>, PartsFault>
    requires { All (λ x. length (T.expr_of x).code < 2 ^ 32) items }
    ensures ok { IfOk result (λ made. (map T.bare made ≡ map T.bare items) × All (λ x. IsTree (T.expr_of x)) made) }
    ensures unmatched { result ≡ Err PartsFault.Unmatched → (xs : List T) → map T.bare xs ≡ map T.bare items
        → All (λ x. IsTree (T.expr_of x)) xs → ⊥ }
{
    let mut items = items.into_vec();
    match_each(alloc, items.as_mut_slice())?;
    Ok(Vector::from_vec(items))
}

/// These parts with their matching places made anew.
pub fn with_matches(alloc: Global, parts: Parts) -> Result<Parts, PartsFault>
    requires { HasSizes parts }
    ensures ok { IfOk result (λ made. (without_matches made ≡ without_matches parts) × HasTrees made) }
    ensures unmatched { result ≡ Err PartsFault.Unmatched → (m : Parts)
        → without_matches m ≡ without_matches parts → HasTrees m → ⊥ }
{
    let globals = matched(alloc, parts.globals)?;
    let elements = matched(alloc, parts.elements)?;
    let segments = matched(alloc, parts.segments)?;
    let bodies = matched(alloc, parts.bodies)?;
    Ok(Parts {
        types: parts.types,
        imports: parts.imports,
        functions: parts.functions,
        tables: parts.tables,
        memories: parts.memories,
        globals,
        exports: parts.exports,
        start: parts.start,
        elements,
        segments,
        bodies,
    })
}
