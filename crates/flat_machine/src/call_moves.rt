ghost use Rattle.std.specs.Prelude.{◌≡◌, ℕ, [], Some, IsTrue};
ghost use Rattle.code_map.specs.declared.map.CodeMap.{CodeMap};
ghost use Rattle.host_port.specs.Areas.{areas_fit};
ghost use Rattle.host_port.specs.Forms.{HasForm};
ghost use Rattle.host_port.specs.declared.ask.Ask.{Ask};
ghost use Rattle.host_port.specs.declared.reply.Reply.{Reply};
ghost use Rattle.wasm_form.specs.declared.instr.Instr.{Instr};
ghost use Rattle.wasm_form.specs.declared.instr.Imm.TheVariants as imm;
ghost use Rattle.wasm_form.specs.declared.parts.Parts.{Parts};
ghost use Rattle.tree_machine.specs.Config.{Config, bytes_of};
ghost use Rattle.tree_machine.specs.Typed.{IsTyped, IsTypedModule};
ghost use Rattle.flat_machine.specs.Flat.{Flat};
ghost use Rattle.flat_machine.specs.Tells.{IsInstrAt, IsOver};
ghost use Rattle.flat_machine.specs.Mapping.{Follows};
ghost use Rattle.flat_machine.specs.MappedModule.{IsMappedModule};
ghost use Rattle.flat_machine.specs.Moves.{call_function, call_indirect, leave};
ghost use Rattle.flat_machine.specs.MovesAgree.{MoveAgrees, WaitsFor, TakesReply};

/// The moves of calls are the steps of the trees' machine. It computes nothing.
pub fn calls_are_steps()
    // call
    ensures index { (m : Parts) (map : CodeMap) (flat : Flat) (c : Config) (i : Instr) (index : ℕ) →
        IsTypedModule m → IsMappedModule m map → Follows m map.bodies flat c → IsTyped m [] c →
        IsInstrAt m flat.place i → i.code ≡ 0x10 → i.imm ≡ imm.Index index →
        MoveAgrees m map flat c (call_function m map (Some index) flat) }
    // call_indirect
    ensures through { (m : Parts) (map : CodeMap) (flat : Flat) (c : Config) (i : Instr) (ty : ℕ) →
        IsTypedModule m → IsMappedModule m map → Follows m map.bodies flat c → IsTyped m [] c →
        IsInstrAt m flat.place i → i.code ≡ 0x11 → i.imm ≡ imm.Index ty →
        MoveAgrees m map flat c (call_indirect m map (Some ty) flat) }
{}

/// Behind the end of a body the machine returns to the caller, enters the next function or is at its end, as the trees'
/// machine is. It computes nothing.
pub fn leaving_agrees()
    ensures { (m : Parts) (map : CodeMap) (flat : Flat) (c : Config) →
        IsTypedModule m → IsMappedModule m map → Follows m map.bodies flat c → IsTyped m [] c → IsOver m flat.place →
        MoveAgrees m map flat c (leave m map flat.callers flat) }
{}

/// A reply of its call's form, whose areas fit, can be given to the machine that waits, and the run goes on from it. It
/// computes nothing.
pub fn replies_are_taken()
    ensures { (m : Parts) (map : CodeMap) (ask : Ask) (results : ℕ) (waits : Flat) (c : Config) (reply : Reply) →
        IsMappedModule m map → WaitsFor m map.bodies ask results waits c →
        IsTrue (areas_fit (bytes_of waits.memory) ask) → HasForm ask reply →
        TakesReply m map.bodies results waits c reply }
{}
