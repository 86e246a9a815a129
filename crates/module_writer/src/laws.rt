ghost use Rattle.std.specs.Prelude.{◌≡◌, ℕ, List};
ghost use Rattle.wasm_form.specs.Modules.{Spells};
ghost use Rattle.wasm_form.specs.declared.parts.Parts.{Parts};
ghost use Rattle.module_writer.specs.Shortest.{IsShortest};

/// Whatever module the bytes spell that a module was written as, it is that module. It computes
/// nothing.
pub fn written_is_read()
    ensures { (bytes : List ℕ) (m n : Parts) → IsShortest bytes m → Spells bytes n → m ≡ n }
{
    wasm_form::one_module();
}
