ghost use Rattle.std.specs.Prelude.{ℕ, List, Option, Bool};
ghost use Rattle.host_port.specs.declared.start.Start.{Start};
ghost use Rattle.host_port.specs.declared.request.Request.{Request};
ghost use Rattle.host_port.specs.declared.reply.Reply.{Reply};
ghost use Rattle.world_rules.specs.declared.entry.Side.{Side};
ghost use Rattle.world_rules.specs.declared.halt.End.{End};
ghost use Rattle.world_rules.specs.declared.life.Birth.{Birth};
ghost use Rattle.world_rules.specs.Arrivals.{What};
ghost use Rattle.world_rules.specs.Calls.{HostCall};
ghost use Rattle.world_rules.specs.Mail.{MailItem};
ghost use Rattle.world_rules.specs.Changes.{with_arrival, answered, pended, waiting, posted};
ghost use Rattle.world_rules.specs.Ends.{ended, doomed, struck, all_struck, all_end, closed_with_first};
ghost use Rattle.world_rules.specs.Receive.{held, delivered, receive_performed, arrived, send_performed};
ghost use Rattle.world_rules.specs.Time.{sleep_performed, ticked};
ghost use Rattle.world_rules.specs.Links.{with_link, ended_by_halt, kill_performed};
ghost use Rattle.world_rules.specs.Registry.{with_name};
ghost use Rattle.world_rules.specs.Spawn.{born};
ghost use Rattle.world_rules.specs.Outside.{opened, opened_and_shut};
ghost use Rattle.world_rules.specs.Rules.{call_performed, taken};
ghost use Rattle.kept_world.specs.Kept.{ReadsKept, ReadsKeptAtHome};

/// The changes of which the rules are made read nothing but what is kept. It computes nothing.
pub fn changes_unread()
    ensures takes { (worker pid : ℕ) → ReadsKept (λ w. taken w worker pid) }
    ensures arrives { (pid : ℕ) (what : What) → ReadsKept (λ w. with_arrival w pid what) }
    ensures answers { (pid : ℕ) (request : Request) (reply : Reply) (what : What) →
        ReadsKept (λ w. answered w pid request reply what) }
    ensures posts { (to : ℕ) (item : MailItem) → ReadsKept (λ w. posted w to item) }
    ensures holds { (pid : ℕ) (item : MailItem) → ReadsKept (λ w. held w pid item) }
    ensures delivers { (pid : ℕ) (request : Request) (item : MailItem) → ReadsKept (λ w. delivered w pid request item) }
    ensures wakes { (to : ℕ) (item : MailItem) → ReadsKept (λ w. arrived w to item) }
    ensures ticks { (now : ℕ) → ReadsKept (λ w. ticked w now) }
    ensures dooms { (pid worker : ℕ) (end : End) → ReadsKept (λ w. doomed w pid worker end) }
    ensures strikes { (pid : ℕ) (end : End) → ReadsKept (λ w. struck (w.process pid).stage w pid end) }
    ensures strikes_all { (pids : List ℕ) (end : End) → ReadsKept (λ w. all_struck w pids end) }
    ensures ends_all { (end : End) → ReadsKept (λ w. all_end w end) }
    ensures closes { ReadsKept (λ w. closed_with_first w) }
    ensures kills { (pid : ℕ) (request : Request) → ReadsKept (λ w. kill_performed w pid request) }
    ensures bears { (pid : ℕ) (request : Request) (start : Start) → ReadsKept (λ w. born w pid request start) }
    ensures links { (a b : ℕ) (tag : Option ℕ) → ReadsKept (λ w. with_link w a b tag) }
    ensures names { (name : List ℕ) (pid : Option ℕ) → ReadsKept (λ w. with_name w name pid) }
    ensures opens { (call : HostCall) (pid : ℕ) (request : Request) → ReadsKept (λ w. opened call w pid request) }
    ensures shuts { (pid : ℕ) → ReadsKept (λ w. opened_and_shut w pid) }
{}

/// What is performed for a process at home reads nothing but what is kept: its end, its waits, and each call of the world
/// and of the outside. It computes nothing.
pub fn calls_unread()
    ensures ends { (pid : ℕ) (end : End) → ReadsKeptAtHome pid (λ w. ended w pid end) }
    ensures falls { (pid : ℕ) (end : End) → ReadsKeptAtHome pid (λ w. ended_by_halt w pid end) }
    ensures pends { (pid : ℕ) (request : Request) → ReadsKeptAtHome pid (λ w. pended w pid request) }
    ensures waits { (pid : ℕ) (request : Request) (deadline : Option ℕ) →
        ReadsKeptAtHome pid (λ w. waiting w pid request deadline) }
    ensures sleeps { (pid : ℕ) (request : Request) → ReadsKeptAtHome pid (λ w. sleep_performed w pid request) }
    ensures receives { (pid : ℕ) (request : Request) → ReadsKeptAtHome pid (λ w. receive_performed w pid request) }
    ensures sends { (pid : ℕ) (request : Request) (refused : Bool) →
        ReadsKeptAtHome pid (λ w. send_performed w pid request refused) }
    ensures calls { (births : List Birth) (call : HostCall) (pid : ℕ) (request : Request) (side : Side) →
        ReadsKeptAtHome pid (λ w. call_performed births call w pid request side) }
{}
