ghost use Rattle.std.specs.Prelude.{◌≡◌, ◌≢◌, ◌<◌, ◌≤◌, ◌+◌, ℕ, ◌∷◌, ◌++◌, length, List, [], Option, Some};
ghost use Rattle.code_map.specs.declared.body_map.BodyMap.{BodyMap};
ghost use Rattle.code_map.specs.declared.target.Target.{Target};
ghost use Rattle.wasm_form.specs.declared.value_type.ValType.{ValType};
ghost use Rattle.wasm_form.specs.declared.expr.Expr.{Expr};
ghost use Rattle.wasm_form.specs.declared.instr.Instr.{Instr};
ghost use Rattle.wasm_form.specs.declared.instr.Imm.TheVariants as imm;
ghost use Rattle.wasm_form.specs.declared.parts.Parts.{Parts};
ghost use Rattle.wasm_form.specs.Trees.{Code, Empty, IsFlat, block_instr, loop_instr, if_instr, end_instr, else_instr, table_instr};
ghost use Rattle.tree_machine.specs.Config.{Cont, Frame, Config, with_frames};
ghost use Rattle.tree_machine.specs.Instructions.{Plain, plain_of};
ghost use Rattle.tree_machine.specs.Limits.{most_frames, places};
ghost use Rattle.tree_machine.specs.Functions.{Function, Own, callee_of};
ghost use Rattle.flat_machine.specs.Calls.{enter_body, IsMappedFunction};
ghost use Rattle.tree_machine.specs.Outcomes.{Gives, Exceeds, Stuck};
ghost use Rattle.tree_machine.specs.Point.{settle};
ghost use Rattle.tree_machine.specs.Step.{next};
ghost use Rattle.tree_machine.specs.Typed.{IsTyped, IsTypedAt, IsTypedModule};
ghost use Rattle.host_port.specs.Standing.{Ready};
ghost use Rattle.host_port.specs.declared.stop.Spent.TheVariants as limit;
ghost use Rattle.flat_machine.specs.Flat.{Place, Flat};
ghost use Rattle.flat_machine.specs.Text.{BodyStands};
ghost use Rattle.flat_machine.specs.Ends.{frame_with, given};
ghost use Rattle.flat_machine.specs.Tells.{Tells, IsInstrAt, IsOver, Agrees};
ghost use Rattle.flat_machine.specs.Straight.{straight, IsStraight};
ghost use Rattle.flat_machine.specs.Control.{jump, begin_list, begin_chosen, end_list, skip_other, end_body, return_to};
ghost use Rattle.flat_machine.specs.Mapping.{HasResults, Follows, HasTargetAt, StandsOn};
ghost use Rattle.flat_machine.specs.Branches.{BranchesIf, BranchesBy};

/// The code of an expression is the flat text of its tree, by places, and an end. It computes nothing.
pub fn bodies_stand()
    ensures { (e : Expr) (tree : Code) → IsFlat e tree → BodyStands e tree }
{}

/// Where a run stands is not changed by an end. It computes nothing.
pub fn ends_cost_nothing()
    // By leaving the innermost list, which is over.
    ensures list { (m : Parts) (c : Config) (f : Frame) (operands : List ℕ) (k : Cont) (ks : List Cont)
        (below : List Frame) → k.rest ≡ Empty →
        settle m (with_frames (frame_with operands (k ∷ ks) f ∷ below) c)
        ≡ settle m (with_frames (frame_with (operands ++ k.under) ks f ∷ below) c) }
    // By returning from a function none of whose lists is left.
    ensures function { (m : Parts) (c : Config) (f : Frame) (operands : List ℕ) (below : List Frame) →
        settle m (with_frames (frame_with operands [] f ∷ below) c) ≡ settle m (with_frames (given operands below) c) }
{}

/// Straight code does to the flat machine what it does to the configuration that the machine stands for: it has the
/// same trap, or the machine stands for what the configuration becomes. It computes nothing.
pub fn straight_code_agrees()
    // Without regard to the map.
    ensures alone { (m : Parts) (flat : Flat) (c : Config) (i : Instr) (p : Plain) →
        Tells m flat c → IsInstrAt m flat.place i → plain_of i ≡ Some p → IsStraight p → next m c ≢ Stuck →
        Agrees (Tells m) (straight p flat) (next m c) }
    // Along the map: the machine stands in it where it says.
    ensures mapped { (m : Parts) (maps : List BodyMap) (flat : Flat) (c : Config) (i : Instr) (p : Plain) →
        Follows m maps flat c → IsTyped m [] c → IsInstrAt m flat.place i → plain_of i ≡ Some p → IsStraight p →
        next m c ≢ Stuck → Agrees (Follows m maps) (straight p flat) (next m c) }
{}

/// Blocks, loops and ifs begin in the flat machine as in the configuration that it stands for; an if finds its target
/// in the map. It computes nothing.
pub fn lists_begin()
    ensures block { (m : Parts) (maps : List BodyMap) (flat : Flat) (c : Config) (result : Option ValType) →
        Follows m maps flat c → IsTyped m [] c → IsInstrAt m flat.place (block_instr result) →
        Agrees (Follows m maps) (Gives (begin_list flat.values flat)) (next m c) }
    ensures again { (m : Parts) (maps : List BodyMap) (flat : Flat) (c : Config) (result : Option ValType) →
        Follows m maps flat c → IsTyped m [] c → IsInstrAt m flat.place (loop_instr result) →
        Agrees (Follows m maps) (Gives (begin_list flat.values flat)) (next m c) }
    ensures chosen { (m : Parts) (maps : List BodyMap) (flat : Flat) (c : Config) (result : Option ValType) →
        Follows m maps flat c → IsTyped m [] c → IsInstrAt m flat.place (if_instr result) → next m c ≢ Stuck →
        (t : Target) × HasTargetAt maps flat.place t
        × Agrees (Follows m maps) (begin_chosen t flat.values flat) (next m c) }
{}

/// The flat machine passes the ends of blocks, loops and ifs, and stands at the same point of the run. It computes
/// nothing.
pub fn lists_end()
    // An end that is not the body's.
    ensures end { (m : Parts) (maps : List BodyMap) (flat : Flat) (c : Config) →
        Follows m maps flat c → IsTyped m [] c → (at : IsInstrAt m flat.place end_instr) →
        flat.place.pc + 1 < length at.0.expr.code → StandsOn m maps (end_list flat) c }
    // An else, which finds its target in the map.
    ensures other { (m : Parts) (maps : List BodyMap) (flat : Flat) (c : Config) →
        Follows m maps flat c → IsTyped m [] c → IsInstrAt m flat.place else_instr →
        (t : Target) × HasTargetAt maps flat.place t × StandsOn m maps (skip_other t flat) c }
{}

/// A branch finds its target in the map, and goes where the configuration goes that the flat machine stands for. It
/// computes nothing.
pub fn branches_agree()
    // br
    ensures label { (m : Parts) (maps : List BodyMap) (flat : Flat) (c : Config) (i : Instr) (label : ℕ) →
        Follows m maps flat c → IsTyped m [] c → i.code ≡ 0x0C → i.imm ≡ imm.Index label →
        IsInstrAt m flat.place i → next m c ≢ Stuck →
        (t : Target) × HasTargetAt maps flat.place t
        × Agrees (Follows m maps) (Gives (jump t flat.values flat)) (next m c) }
    // return
    ensures outermost { (m : Parts) (maps : List BodyMap) (flat : Flat) (c : Config) (i : Instr) →
        Follows m maps flat c → IsTyped m [] c → i.code ≡ 0x0F → IsInstrAt m flat.place i → next m c ≢ Stuck →
        (t : Target) × HasTargetAt maps flat.place t
        × Agrees (Follows m maps) (Gives (jump t flat.values flat)) (next m c) }
    // br_if
    ensures number { (m : Parts) (maps : List BodyMap) (flat : Flat) (c : Config) (i : Instr) (label : ℕ) →
        Follows m maps flat c → IsTyped m [] c → i.code ≡ 0x0D → i.imm ≡ imm.Index label →
        IsInstrAt m flat.place i → next m c ≢ Stuck → BranchesIf m maps flat (next m c) flat.values }
    // br_table
    ensures table { (m : Parts) (maps : List BodyMap) (flat : Flat) (c : Config) (first count last : ℕ) →
        Follows m maps flat c → IsTyped m [] c → IsInstrAt m flat.place (table_instr first count last) →
        next m c ≢ Stuck → BranchesBy m maps flat (next m c) count flat.values }
{}

/// What the laws above ask of the next instruction: in a typed module, of a typed configuration, a rule applies to it.
/// A map has one target at a place. It computes nothing.
pub fn rules_apply()
    ensures rule { (m : Parts) (c : Config) → IsTypedModule m → IsTypedAt m Ready c → next m c ≢ Stuck }
    ensures target { (maps : List BodyMap) (place : Place) (t u : Target) →
        HasTargetAt maps place t → HasTargetAt maps place u → t ≡ u }
{}

/// The limit of value places is that of the values in use and the open blocks. It computes nothing.
pub fn places_are_counted()
    ensures { (m : Parts) (flat : Flat) (c : Config) →
        Tells m flat c → length flat.values + flat.place.opens ≡ places c.frames }
{}

/// The end of a body, and the return to the caller, which takes the number of the function's results. The machine
/// stands at the same point of the run. It computes nothing.
pub fn functions_end()
    // The end of a body.
    ensures end { (m : Parts) (maps : List BodyMap) (flat : Flat) (c : Config) →
        Follows m maps flat c → IsTyped m [] c → (at : IsInstrAt m flat.place end_instr) →
        flat.place.pc + 1 ≡ length at.0.expr.code → StandsOn m maps (end_body flat) c }
    // Behind it, where there is a caller.
    ensures caller { (m : Parts) (maps : List BodyMap) (flat : Flat) (c : Config) (caller : Place)
        (callers : List Place) →
        Follows m maps flat c → IsTyped m [] c → flat.callers ≡ caller ∷ callers → IsOver m flat.place →
        (count : ℕ) × HasResults m flat.place.body count × StandsOn m maps (return_to count caller callers flat) c }
{}

/// A call of a function of the module: it enters the function, where a frame is left, and the caller goes on behind the
/// call. It computes nothing.
pub fn calls_agree()
    ensures enters { (m : Parts) (maps : List BodyMap) (flat : Flat) (c : Config) (i : Instr) (index body : ℕ)
        (function : Function) →
        IsTypedModule m → Follows m maps flat c → IsTyped m [] c → callee_of m index ≡ Some (Own function) →
        IsMappedFunction m maps function body → i.code ≡ 0x10 → i.imm ≡ imm.Index index →
        IsInstrAt m flat.place i → length flat.callers + 2 ≤ most_frames →
        Agrees (Follows m maps) (Gives (enter_body body (length function.ty.params) function.locals flat)) (next m c) }
    // Where none is left.
    ensures exceeds { (m : Parts) (maps : List BodyMap) (flat : Flat) (c : Config) (i : Instr) (index body : ℕ)
        (function : Function) →
        IsTypedModule m → Follows m maps flat c → IsTyped m [] c → callee_of m index ≡ Some (Own function) →
        IsMappedFunction m maps function body → i.code ≡ 0x10 → i.imm ≡ imm.Index index →
        IsInstrAt m flat.place i → most_frames < length flat.callers + 2 → next m c ≡ Exceeds limit.Frames }
{}
