ghost use Rattle.std.specs.Prelude.{◌≡◌, ℕ, List, [], length, option_to_list, IsTrue};
ghost use Rattle.code_map.specs.declared.body_map.BodyMap.{BodyMap};
ghost use Rattle.code_map.specs.declared.map.CodeMap.{CodeMap};
ghost use Rattle.host_port.specs.Areas.{areas_fit};
ghost use Rattle.host_port.specs.Forms.{HasForm};
ghost use Rattle.host_port.specs.declared.ask.Ask.{Ask};
ghost use Rattle.host_port.specs.declared.reply.Reply.{Reply};
ghost use Rattle.wasm_form.specs.declared.value_type.ValType.{ValType};
ghost use Rattle.wasm_form.specs.declared.instr.Instr.{Instr};
ghost use Rattle.wasm_form.specs.declared.instr.Imm.TheVariants as imm;
ghost use Rattle.wasm_form.specs.declared.parts.Parts.{Parts};
ghost use Rattle.tree_machine.specs.Config.{Config, bytes_of};
ghost use Rattle.tree_machine.specs.Step.{next};
ghost use Rattle.tree_machine.specs.Typed.{AreValues, IsTyped, IsTypedModule};
ghost use Rattle.flat_machine.specs.Flat.{Flat};
ghost use Rattle.flat_machine.specs.Tells.{IsInstrAt};
ghost use Rattle.flat_machine.specs.Mapping.{Follows};
ghost use Rattle.flat_machine.specs.MappedModule.{IsMappedModule};
ghost use Rattle.flat_machine.specs.Called.{CallsIndex, CallsThrough};
ghost use Rattle.flat_machine.specs.Waiting.{FollowsGiven, Resumes};

/// A call finds its callee in the map of the module: it enters the function, or asks the host. It computes nothing.
pub fn calls_find_their_callees()
    // call
    ensures index { (m : Parts) (map : CodeMap) (flat : Flat) (c : Config) (i : Instr) (index : ℕ) →
        IsTypedModule m → IsMappedModule m map → Follows m map.bodies flat c → IsTyped m [] c →
        i.code ≡ 0x10 → i.imm ≡ imm.Index index → IsInstrAt m flat.place i →
        CallsIndex m map flat (next m c) index }
    // call_indirect
    ensures through { (m : Parts) (map : CodeMap) (flat : Flat) (c : Config) (i : Instr) (ty : ℕ) →
        IsTypedModule m → IsMappedModule m map → Follows m map.bodies flat c → IsTyped m [] c →
        i.code ≡ 0x11 → i.imm ≡ imm.Index ty → IsInstrAt m flat.place i →
        CallsThrough m map flat (next m c) ty flat.values }
{}

/// A reply of its call's form, whose areas fit, goes on in the flat machine as in the configuration that waits. It
/// computes nothing.
pub fn replies_go_on()
    ensures { (m : Parts) (maps : List BodyMap) (flat : Flat) (c : Config) (ask : Ask) (given : List ValType)
        (results : ℕ) (reply : Reply) →
        FollowsGiven m maps results flat c → IsTyped m given c → results ≡ length given →
        IsTrue (areas_fit (bytes_of flat.memory) ask) → HasForm ask reply →
        AreValues given (option_to_list reply.result) → Resumes m maps flat c reply }
{}
