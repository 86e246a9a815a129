//! How many bytes the parts of a module take, at least.

ghost use Rattle.std.specs.Prelude.{ℕ, List, ◌≤◌, length};
ghost use Rattle.wasm_form.specs.Values.{SpellsU32};
ghost use Rattle.wasm_form.specs.Trees.{SpellsExpr};
ghost use Rattle.wasm_form.specs.Sections.{SpellsFunction, SpellsBody};
ghost use Rattle.wasm_form.specs.Sections.{SpellsTypes, SpellsImports, SpellsFunctions, SpellsTables};
ghost use Rattle.wasm_form.specs.Sections.{SpellsMemories, SpellsGlobals, SpellsExports};
ghost use Rattle.wasm_form.specs.Sections.{SpellsElements, SpellsBodies, SpellsSegments};
ghost use Rattle.wasm_form.specs.Modules.{Spells};
ghost use Rattle.wasm_form.specs.Spellable.{HasSizes};
ghost use Rattle.wasm_form.specs.Least.{least_unsigned, least_expr, least_function, least_vector};
ghost use Rattle.wasm_form.specs.Least.{least_func_type, least_import, least_table_type, least_limits};
ghost use Rattle.wasm_form.specs.Least.{least_global, least_export, least_element, least_body};
ghost use Rattle.wasm_form.specs.Least.{least_segment, least_module};
ghost use Rattle.wasm_form.specs.declared.types.FuncType.{FuncType};
ghost use Rattle.wasm_form.specs.declared.types.Bounds.{Bounds};
ghost use Rattle.wasm_form.specs.declared.expr.Expr.{Expr};
ghost use Rattle.wasm_form.specs.declared.body.Body.{Body};
ghost use Rattle.wasm_form.specs.declared.parts.Import.{Import};
ghost use Rattle.wasm_form.specs.declared.parts.GlobalDef.{GlobalDef};
ghost use Rattle.wasm_form.specs.declared.parts.Export.{Export};
ghost use Rattle.wasm_form.specs.declared.parts.Element.{Element};
ghost use Rattle.wasm_form.specs.declared.parts.Segment.{Segment};
ghost use Rattle.wasm_form.specs.declared.parts.Parts.{Parts};

/// No spelling is shorter than the least length. It computes nothing.
pub fn least_lengths()
    ensures number { (n : ℕ) (s : List ℕ) → SpellsU32 s n → least_unsigned n ≤ length s }
    ensures expr { (e : Expr) (s : List ℕ) → SpellsExpr s e → least_expr e ≤ length s }
    ensures function { (b : Body) (s : List ℕ) → SpellsFunction s b → least_function b ≤ length s }
    ensures body { (b : Body) (s : List ℕ) → SpellsBody s b → least_body b ≤ length s }
    ensures whole { (m : Parts) (s : List ℕ) → Spells s m → least_module m ≤ length s }
{}

/// No spelling of a section's contents is shorter than the least length, which has 32 bits where
/// some bytes spell the module. It computes nothing.
pub fn least_contents()
    ensures types { (x : List FuncType) (s : List ℕ) → SpellsTypes s x
        → least_vector least_func_type x ≤ length s }
    ensures imports { (x : List Import) (s : List ℕ) → SpellsImports s x
        → least_vector least_import x ≤ length s }
    ensures functions { (x : List ℕ) (s : List ℕ) → SpellsFunctions s x
        → least_vector least_unsigned x ≤ length s }
    ensures tables { (x : List Bounds) (s : List ℕ) → SpellsTables s x
        → least_vector least_table_type x ≤ length s }
    ensures memories { (x : List Bounds) (s : List ℕ) → SpellsMemories s x
        → least_vector least_limits x ≤ length s }
    ensures globals { (x : List GlobalDef) (s : List ℕ) → SpellsGlobals s x
        → least_vector least_global x ≤ length s }
    ensures exports { (x : List Export) (s : List ℕ) → SpellsExports s x
        → least_vector least_export x ≤ length s }
    ensures elements { (x : List Element) (s : List ℕ) → SpellsElements s x
        → least_vector least_element x ≤ length s }
    ensures bodies { (x : List Body) (s : List ℕ) → SpellsBodies s x
        → least_vector least_body x ≤ length s }
    ensures segments { (x : List Segment) (s : List ℕ) → SpellsSegments s x
        → least_vector least_segment x ≤ length s }
    ensures sizes { (m : Parts) (s : List ℕ) → Spells s m → HasSizes m }
{}
