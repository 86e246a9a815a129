ghost use Rattle.std.specs.Prelude.{◌≡◌, ℕ, List, [], ◌∷◌, slice_get, Some, None};
ghost use Rattle.code_map.specs.declared.map.CodeMap.{CodeMap};
ghost use Rattle.host_port.specs.Standing.{Finished};
ghost use Rattle.host_port.specs.declared.start.Start.{Start};
ghost use Rattle.wasm_form.specs.declared.body.Body.{Body};
ghost use Rattle.wasm_form.specs.declared.parts.Parts.{Parts};
ghost use Rattle.wasm_form.specs.Modules.{IsSpelled};
ghost use Rattle.wasm_form.specs.Profile.{Host as Offer};
ghost use Rattle.wasm_form.specs.Verdict.{IsAccepted};
ghost use Rattle.tree_machine.specs.Config.{Invocation, Config};
ghost use Rattle.tree_machine.specs.Point.{settle};
ghost use Rattle.tree_machine.specs.Begin.{begin, begun};
ghost use Rattle.tree_machine.specs.Typed.{IsTyped, IsTypedModule, IsTypedStart, Offers};
ghost use Rattle.flat_machine.specs.Flat.{Flat};
ghost use Rattle.flat_machine.specs.Tells.{IsOver};
ghost use Rattle.flat_machine.specs.Mapping.{HasResults, Follows};
ghost use Rattle.flat_machine.specs.MappedModule.{IsMappedModule};
ghost use Rattle.flat_machine.specs.Entering.{EntersNext, StandsIn, Begins, StandsFor};

/// Behind the end of a body, where there is no caller, the next function is entered, or the run is over. It computes
/// nothing.
pub fn functions_follow()
    // Where one is left: it is entered, or its locals are more than may be.
    ensures next { (m : Parts) (map : CodeMap) (flat : Flat) (c : Config) (i : Invocation) (rest : List Invocation) →
        IsTypedModule m → IsMappedModule m map → Follows m map.bodies flat c → IsTyped m [] c → IsOver m flat.place →
        flat.callers ≡ [] → flat.invocations ≡ i ∷ rest → EntersNext m map flat c i rest }
    // Where none is left.
    ensures finished { (m : Parts) (map : CodeMap) (flat : Flat) (c : Config) →
        Follows m map.bodies flat c → IsTyped m [] c → IsOver m flat.place → flat.callers ≡ [] →
        flat.invocations ≡ [] → StandsIn Finished flat.memory (settle m c) }
{}

/// The machine of an instance that begins stands where its run begins. It computes nothing.
pub fn runs_begin()
    // A module that begins has a first body, behind which the machine can stand.
    ensures first { (m : Parts) (map : CodeMap) (start : Start) → IsMappedModule m map → begin m start ≡ None →
        (body : Body) × (count : ℕ) × (slice_get m.bodies 0 ≡ Some body) × HasResults m 0 count }
    ensures over { (m : Parts) (start : Start) (flat : Flat) → Begins m start flat → IsOver m flat.place }
    // The machine stands for a typed configuration at the begin of the run.
    ensures begins { (host : Offer) (m : Parts) (map : CodeMap) (start : Start) (flat : Flat) →
        Offers host → IsAccepted host m → IsSpelled m → IsMappedModule m map → IsTypedStart start →
        begin m start ≡ None → Begins m start flat → StandsFor m map.bodies flat (begun m start) }
{}
