ghost use Rattle.std.specs.Prelude.{◌≡◌, ℕ, List, ◌++◌};
ghost use Rattle.wasm_form.specs.Trees.{SpellsExpr};
ghost use Rattle.wasm_form.specs.Modules.{Spells};
ghost use Rattle.wasm_form.specs.declared.expr.Expr.{Expr};
ghost use Rattle.wasm_form.specs.declared.parts.Parts.{Parts};

/// At most one front of the bytes spells an expression, and it spells one. It computes nothing.
pub fn one_expression()
    ensures { (a b x y : List ℕ) (v w : Expr) → SpellsExpr a v → SpellsExpr b w
        → a ++ x ≡ b ++ y → (a ≡ b) × (v ≡ w) }
{
    leb_read::one_spelling();
}

/// The same bytes spell one module at most. It computes nothing.
pub fn one_module()
    ensures { (bytes : List ℕ) (m n : Parts) → Spells bytes m → Spells bytes n → m ≡ n }
{
    leb_read::one_spelling();
}
