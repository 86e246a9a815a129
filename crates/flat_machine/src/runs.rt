ghost use Rattle.std.specs.Prelude.{◌≡◌, ℕ, ◌+◌};
ghost use Rattle.wasm_form.specs.declared.parts.Parts.{Parts};
ghost use Rattle.code_map.specs.declared.map.CodeMap.{CodeMap};
ghost use Rattle.flat_machine.specs.Flat.{Flat};
ghost use Rattle.flat_machine.specs.Moves.{Executes, Passes, move};
ghost use Rattle.flat_machine.specs.Runs.{IsSafe, Runs};

/// Where a machine is safe it is safe wherever it comes. It computes nothing.
pub fn runs_are_safe()
    ensures { (m : Parts) (map : CodeMap) (executed : ℕ) (from to : Flat) →
        IsSafe m map from → Runs m map executed from to → IsSafe m map to }
{}

/// How runs are put together. It computes nothing.
pub fn runs_compose()
    // No move.
    ensures nothing { (m : Parts) (map : CodeMap) (flat : Flat) → Runs m map 0 flat flat }
    // One move, that executes an instruction, or costs nothing.
    ensures executes { (m : Parts) (map : CodeMap) (from to : Flat) →
        move m map from ≡ Executes to → Runs m map 1 from to }
    ensures passes { (m : Parts) (map : CodeMap) (from to : Flat) →
        move m map from ≡ Passes to → Runs m map 0 from to }
    // One run, and then another.
    ensures joined { (m : Parts) (map : CodeMap) (first second : ℕ) (from mid to : Flat) →
        Runs m map first from mid → Runs m map second mid to → Runs m map (first + second) from to }
{}
