ghost use Rattle.std.specs.Prelude.{◌≡◌, ◌≢◌, ℕ, ◌+◌, ◌<◌, ◌≤◌, List, [], ◌∷◌, ◌++◌, Some, None, IsSome, option_to_list, IsTrue};
ghost use Rattle.host_port.specs.Areas.{areas_fit, request_of};
ghost use Rattle.host_port.specs.Forms.{HasForm};
ghost use Rattle.host_port.specs.Standing.{Ready, Asking, state_of};
ghost use Rattle.host_port.specs.declared.ask.Ask.{Ask};
ghost use Rattle.host_port.specs.declared.call.Call.{Call};
ghost use Rattle.host_port.specs.declared.reply.Reply.{Reply};
ghost use Rattle.host_port.specs.declared.start.Start.{Start};
ghost use Rattle.host_port.specs.declared.start.StartRefusal.{StartRefusal};
ghost use Rattle.host_port.specs.declared.start.StartRefusal.TheVariants.{NoMemory};
ghost use Rattle.wasm_form.specs.declared.expr.Expr.{Expr};
ghost use Rattle.wasm_form.specs.declared.value_type.ValType.{ValType};
ghost use Rattle.wasm_form.specs.declared.parts.Parts.{Parts};
ghost use Rattle.wasm_form.specs.Trees.{Code, IsFlat};
ghost use Rattle.wasm_form.specs.Modules.{IsSpelled};
ghost use Rattle.wasm_form.specs.Profile.{Host};
ghost use Rattle.wasm_form.specs.Verdict.{IsAccepted};
ghost use Rattle.wasm_form.specs.Matching.{HasPlain};
ghost use Rattle.tree_machine.specs.Trees.{tree_of};
ghost use Rattle.tree_machine.specs.Config.{Config, bytes_of};
ghost use Rattle.tree_machine.specs.Point.{Point, point};
ghost use Rattle.tree_machine.specs.Step.{step};
ghost use Rattle.tree_machine.specs.Replies.{replied};
ghost use Rattle.tree_machine.specs.Begin.{begin, begun};
ghost use Rattle.tree_machine.specs.Run.{point_at, at, may_ask};
ghost use Rattle.tree_machine.specs.CallLaws.{WasReady};
ghost use Rattle.tree_machine.specs.Typed.{AreValues, IsTyped, IsTypedAt, StandsTyped, IsTypedModule, IsTypedStart, HasForms, Offers};

/// The tree that is executed for an expression is the one whose flat list it is. It computes nothing.
pub fn one_tree()
    ensures { (e : Expr) (tree : Code) → HasPlain tree → IsFlat e tree → tree_of e ≡ tree }
{}

/// A run begins as its start says, keeps to its fuel, and asks what its module may ask. It computes nothing.
pub fn runs_keep_to_their_start()
    // Want of memory is no refusal of the begin.
    ensures unwanted { (m : Parts) (start : Start) → begin m start ≢ Some NoMemory }
    // What is not refused has a run.
    ensures begun { (m : Parts) (start : Start) → begin m start ≡ None → IsSome (at m start [] 0) }
    // What is refused has none.
    ensures refused { (m : Parts) (start : Start) (why : StartRefusal) (calls : List Call) (n : ℕ) →
        begin m start ≡ Some why → at m start calls n ≡ None }
    // A run has executed no more instructions than it may.
    ensures fueled { (m : Parts) (start : Start) (calls : List Call) (n : ℕ) →
        IsSome (at m start calls n) → n ≤ start.limits.fuel }
    // A run asks only what its module may ask.
    ensures asks { (m : Parts) (start : Start) (calls : List Call) (n : ℕ) (ask : Ask) →
        state_of (at m start calls n) ≡ Some (Asking ask) → may_ask m ask.call }
{}

/// How a run goes on. It computes nothing.
pub fn runs_go_on()
    // Where it is ready and has fuel left, by one instruction.
    ensures steps { (m : Parts) (start : Start) (calls : List Call) (n : ℕ) (c : Config) →
        point_at m start calls n ≡ Some (point Ready c) → n < start.limits.fuel →
        point_at m start calls (n + 1) ≡ step m c }
    // Where it is at an ask, by the reply.
    ensures replies { (m : Parts) (start : Start) (calls : List Call) (n : ℕ) (ask : Ask) (c : Config) (reply : Reply) →
        point_at m start calls n ≡ Some (point (Asking ask) c) →
        let answered : Call = record { request = request_of (bytes_of c.memory) ask; reply = reply } in
        point_at m start (calls ++ answered ∷ []) n ≡ replied m c reply }
{}

/// Where a run stands it has come by a way that was ready at each smaller number of instructions, with the first of its
/// calls. It computes nothing.
pub fn runs_began_so()
    ensures { (m : Parts) (start : Start) (calls : List Call) (n k : ℕ) (p : Point) →
        point_at m start calls n ≡ Some p → k < n → WasReady m start calls k }
{}

/// In a typed module a typed configuration is never stuck: it goes on, and what it comes to is typed again. It computes
/// nothing.
pub fn typed_runs_go_on()
    // By each instruction.
    ensures steps { (m : Parts) (c : Config) → IsTypedModule m → IsTypedAt m Ready c → StandsTyped m (step m c) }
    // By a reply of the call's form, where the call's areas fit, whose result has the types that the configuration waits for.
    ensures replies { (m : Parts) (ask : Ask) (given : List ValType) (c : Config) (reply : Reply) →
        IsTypedModule m → IsTyped m given c → IsTrue (areas_fit (bytes_of c.memory) ask) → HasForm ask reply →
        AreValues given (option_to_list reply.result) → StandsTyped m (replied m c reply) }
{}

/// A run of an accepted module that bytes spell, over the host's table, is never stuck where the replies have the forms of
/// their calls. It computes nothing.
pub fn accepted_runs_are_never_stuck()
    // Such a module is a typed one.
    ensures typed { (host : Host) (m : Parts) → Offers host → IsAccepted host m → IsSpelled m → IsTypedModule m }
    // Its run begins at a typed configuration.
    ensures begins { (host : Host) (m : Parts) (start : Start) → Offers host → IsAccepted host m → IsSpelled m →
        IsTypedStart start → begin m start ≡ None → IsTypedAt m (begun m start).state (begun m start).config }
    // Wherever it stands it is typed.
    ensures stands { (host : Host) (m : Parts) (start : Start) (calls : List Call) (n : ℕ) (p : Point) →
        Offers host → IsAccepted host m → IsSpelled m → IsTypedStart start → HasForms calls →
        point_at m start calls n ≡ Some p → IsTypedAt m p.state p.config }
    // Where it is ready and has fuel left it goes on.
    ensures goes_on { (host : Host) (m : Parts) (start : Start) (calls : List Call) (n : ℕ) (c : Config) →
        Offers host → IsAccepted host m → IsSpelled m → IsTypedStart start → HasForms calls →
        point_at m start calls n ≡ Some (point Ready c) → n < start.limits.fuel →
        IsSome (point_at m start calls (n + 1)) }
{}
