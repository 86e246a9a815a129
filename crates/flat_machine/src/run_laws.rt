ghost use Rattle.std.specs.Prelude.{◌≡◌, ℕ, ◌+◌, ◌-◌, ◌<◌, ◌≤◌, List, [], ◌∷◌, ◌++◌, length, slice_get, Bool, Some, None, IsTrue};
ghost use Rattle.code_map.specs.declared.callee.Callee.TheVariants as callee;
ghost use Rattle.code_map.specs.declared.map.CodeMap.{CodeMap};
ghost use Rattle.code_map.specs.Targets.{count_if};
ghost use Rattle.host_port.specs.Areas.{areas_fit, request_of};
ghost use Rattle.host_port.specs.Forms.{HasForm};
ghost use Rattle.host_port.specs.Standing.{Ready};
ghost use Rattle.host_port.specs.declared.ask.Ask.{Ask};
ghost use Rattle.host_port.specs.declared.call.Call.{Call};
ghost use Rattle.host_port.specs.declared.reply.Reply.{Reply};
ghost use Rattle.host_port.specs.declared.start.Start.{Start};
ghost use Rattle.wasm_form.specs.declared.parts.Parts.{Parts};
ghost use Rattle.wasm_form.specs.Modules.{IsSpelled};
ghost use Rattle.wasm_form.specs.Profile.{Host as Offer};
ghost use Rattle.wasm_form.specs.Verdict.{IsAccepted};
ghost use Rattle.tree_machine.specs.Config.{Config, bytes_of};
ghost use Rattle.tree_machine.specs.Begin.{begin};
ghost use Rattle.tree_machine.specs.Point.{point, settle};
ghost use Rattle.tree_machine.specs.Typed.{IsTyped, IsTypedModule, IsTypedStart, Offers};
ghost use Rattle.flat_machine.specs.declared.halt.Halt.{Halt};
ghost use Rattle.flat_machine.specs.Flat.{Flat};
ghost use Rattle.flat_machine.specs.Mapping.{HasResults, Follows};
ghost use Rattle.flat_machine.specs.MappedModule.{IsMappedModule};
ghost use Rattle.flat_machine.specs.Moves.{move};
ghost use Rattle.flat_machine.specs.MovesAgree.{MoveAgrees};
ghost use Rattle.flat_machine.specs.Runs.{IsSafe, IsReady};
ghost use Rattle.flat_machine.specs.Halts.{HaltsSo, replied_to};
ghost use Rattle.flat_machine.specs.Stands.{Stands, Awaits, IsReadyAt, HaltStands, ReplyFits, first_flat};

/// What the flat machine does next is the step of the configuration that it stands for, so that it is never stuck. It
/// computes nothing.
pub fn moves_agree()
    ensures step { (m : Parts) (map : CodeMap) (flat : Flat) (c : Config) → IsTypedModule m → IsMappedModule m map →
        Follows m map.bodies flat c → IsTyped m [] c → MoveAgrees m map flat c (move m map flat) }
    // Where an instruction is to come, one is to come in the run.
    ensures ready { (m : Parts) (map : CodeMap) (flat : Flat) (c : Config) →
        Follows m map.bodies flat c → IsTyped m [] c → IsReady m flat → settle m c ≡ point Ready c }
{}

/// A run of the flat machine is the run of its module. It computes nothing.
pub fn runs_agree()
    // It is never stuck.
    ensures safe { (m : Parts) (map : CodeMap) (start : Start) (calls : List Call) (fuel : ℕ) (flat : Flat) →
        IsTypedModule m → IsMappedModule m map → Stands m map start calls fuel flat → IsSafe m map flat }
    // Where it halts, the module's run stands so.
    ensures halts { (m : Parts) (map : CodeMap) (start : Start) (calls : List Call) (fuel budget executed : ℕ)
        (reason : Halt) (from to : Flat) → IsTypedModule m → IsMappedModule m map →
        Stands m map start calls fuel from → HaltsSo m map reason budget executed from to →
        fuel + executed ≤ start.limits.fuel → HaltStands m map start calls (fuel + executed) reason to }
    // On the way an instruction was to come.
    ensures ready { (m : Parts) (map : CodeMap) (start : Start) (calls : List Call) (fuel budget executed k : ℕ)
        (reason : Halt) (from to : Flat) → IsTypedModule m → IsMappedModule m map →
        Stands m map start calls fuel from → HaltsSo m map reason budget executed from to →
        fuel + executed ≤ start.limits.fuel → k < executed → IsReadyAt m start calls (fuel + k) }
{}

/// The machine that waits can be given any reply of its call's form, whose areas fit, and goes on as the module's run
/// does. It computes nothing.
pub fn replies_stand()
    ensures fits { (m : Parts) (map : CodeMap) (start : Start) (calls : List Call) (fuel : ℕ) (ask : Ask) (flat : Flat)
        (reply : Reply) → IsMappedModule m map → Awaits m map start calls fuel ask flat →
        IsTrue (areas_fit (bytes_of flat.memory) ask) → HasForm ask reply → ReplyFits reply flat }
    ensures goes_on { (m : Parts) (map : CodeMap) (start : Start) (calls : List Call) (fuel : ℕ) (ask : Ask)
        (flat : Flat) (reply : Reply) → IsMappedModule m map → Awaits m map start calls fuel ask flat →
        IsTrue (areas_fit (bytes_of flat.memory) ask) → HasForm ask reply →
        let answered : Call = record { request = request_of (bytes_of flat.memory) ask; reply = reply } in
        Stands m map start (calls ++ answered ∷ []) fuel (replied_to reply flat) }
{}

/// The machine before its first function is entered stands where the module's run begins. It computes nothing.
pub fn first_machines_stand()
    ensures begins { (host : Offer) (m : Parts) (map : CodeMap) (start : Start) (results : ℕ) →
        Offers host → IsAccepted host m → IsSpelled m → IsMappedModule m map → IsTypedStart start →
        begin m start ≡ None → HasResults m 0 results → Stands m map start [] 0 (first_flat m start results) }
    // The first body is there; its callee, which stands behind those of the imported functions, tells how many results
    // it has.
    ensures results { (m : Parts) (map : CodeMap) (start : Start) → IsMappedModule m map → begin m start ≡ None →
        (params : ℕ) × (locals : ℕ) × (gives : Bool) × (class : ℕ)
        × (slice_get map.callees (length map.callees - length m.bodies)
        ≡ Some (callee.Own 0 params locals gives class)) × (0 < length m.bodies) × HasResults m 0 (count_if gives) }
{}
