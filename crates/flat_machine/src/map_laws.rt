ghost use Rattle.std.specs.Prelude.{◌≡◌, ℕ, Some};
ghost use Rattle.code_map.specs.declared.map.CodeMap.{CodeMap};
ghost use Rattle.code_map.specs.Maps.{IsMapOf};
ghost use Rattle.wasm_form.specs.declared.types.FuncType.{FuncType};
ghost use Rattle.wasm_form.specs.declared.parts.Parts.{Parts};
ghost use Rattle.wasm_form.specs.Modules.{IsSpelled};
ghost use Rattle.wasm_form.specs.Profile.{Host as Offer};
ghost use Rattle.wasm_form.specs.Verdict.{IsAccepted};
ghost use Rattle.tree_machine.specs.Functions.{Function, Host, own_function, callee_of};
ghost use Rattle.tree_machine.specs.Typed.{Offers};
ghost use Rattle.flat_machine.specs.MappedModule.{imported_calls, IsMappedModule, HasOwnCallee, HasHostCallee};

/// The map of an accepted module gives each function what the other laws ask. It computes nothing.
pub fn modules_are_mapped()
    // An accepted module that bytes spell, over the host's table, with the map that `code_map` makes of it.
    ensures accepted { (host : Offer) (m : Parts) (map : CodeMap) → Offers host → IsAccepted host m → IsSpelled m →
        IsMapOf m (imported_calls m) map → IsMappedModule m map }
    // A function of the module's own.
    ensures own { (m : Parts) (map : CodeMap) (index : ℕ) (function : Function) →
        IsMappedModule m map → own_function m index ≡ Some function → HasOwnCallee m map index function }
    // A call of the host.
    ensures host { (m : Parts) (map : CodeMap) (index : ℕ) (ty : FuncType) (call : ℕ) →
        IsMappedModule m map → callee_of m index ≡ Some (Host ty call) → HasHostCallee m map index ty call }
{}
