ghost use Rattle.std.specs.Prelude.{◌≡◌, ℕ, [], Some, false};
ghost use Rattle.resource_table.specs.Steps.{told};
ghost use Rattle.world_rules.specs.Calls.{call_of};
ghost use Rattle.world_rules.specs.Calls as CallIs;
ghost use Rattle.node_state.specs.Seats.{meaning};
ghost use Rattle.process_store.specs.Keeps.{StoreKeeps};
ghost use Rattle.process_store.specs.PassOn.{PassesOn};
ghost use Rattle.process_store.specs.Performing.{IsPerformed, MayBeWoken, Performs, PerformsAt};
ghost use Rattle.process_store.specs.Holds.{kept_of, place_at};

use crate::Store;
use crate::replies::{empty_reply, number_reply, post_code};
use crate::times::deadline_of;
use host_port::{Engine, Request};
use node_state::Post;
use outside::Outside;
use plain_part::{HostCall, call_numbered};

/// Performs a send: where it is answered 0, the scratch message arrives. The result is whether it was refused for want of
/// memory.
fn perform_send<E: Engine, O: Outside>(store: &mut Store<E, O>, pid: u64, request: &Request) -> bool
    requires keeps { StoreKeeps store.old }
    requires call { call_of request.now ≡ Some CallIs.Send }
    requires giver { store.old.giver ≡ Some pid }
    requires performs { PerformsAt E.phase E.memory (place_at store.old pid) request.now }
    requires others { (other : ℕ) → MayBeWoken E.phase E.memory (place_at store.old other) }
    ensures keeps { StoreKeeps store.new }
    ensures performs { Performs (meaning E.stands E.phase E.memory) store.old store.new pid request.now result }
    ensures streams { PassesOn
        (told O.Stream.taken O.Stream.put O.Stream.faults O.Stream.waits O.Stream.empties O.Stream.down)
        (kept_of store.old) (kept_of store.new) [] [] }
{
    let to = request.ask.args[0];
    let tag = store.tag_in_hand(pid);
    match store.prepare_post(to, tag) {
        Post::Put => {
            let item = store.send_off(pid);
            store.arrive(to, item);
            false
        }
        other => {
            let code = post_code(other);
            store.answer(pid, &number_reply(code));
            code == 12
        }
    }
}

/// Performs a receive: an item that is wanted is delivered; else a limit of 0 milliseconds is over at once, and any other
/// waits.
fn perform_receive<E: Engine, O: Outside>(store: &mut Store<E, O>, pid: u64, request: &Request)
    requires keeps { StoreKeeps store.old }
    requires call { call_of request.now ≡ Some CallIs.Receive }
    requires giver { store.old.giver ≡ Some pid }
    requires performs { PerformsAt E.phase E.memory (place_at store.old pid) request.now }
    ensures keeps { StoreKeeps store.new }
    ensures performs { Performs (meaning E.stands E.phase E.memory) store.old store.new pid request.now false }
    ensures streams { PassesOn
        (told O.Stream.taken O.Stream.put O.Stream.faults O.Stream.waits O.Stream.empties O.Stream.down)
        (kept_of store.old) (kept_of store.new) [] [] }
{
    let ms = request.ask.args[2];
    if store.receive(pid, request.first.as_slice()) {
        return;
    }
    if ms == 0 {
        return store.answer(pid, &number_reply(9027));
    }
    store.wait(pid, deadline_of(store.time(), ms));
}

/// Performs a sleep: a positive number of milliseconds waits, any other is over at once.
fn perform_sleep<E: Engine, O: Outside>(store: &mut Store<E, O>, pid: u64, request: &Request)
    requires keeps { StoreKeeps store.old }
    requires call { call_of request.now ≡ Some CallIs.SleepMs }
    requires giver { store.old.giver ≡ Some pid }
    requires performs { PerformsAt E.phase E.memory (place_at store.old pid) request.now }
    ensures keeps { StoreKeeps store.new }
    ensures performs { Performs (meaning E.stands E.phase E.memory) store.old store.new pid request.now false }
    ensures streams { PassesOn
        (told O.Stream.taken O.Stream.put O.Stream.faults O.Stream.waits O.Stream.empties O.Stream.down)
        (kept_of store.old) (kept_of store.new) [] [] }
{
    match deadline_of(store.time(), request.ask.args[0]) {
        Some(at) => store.wait(pid, Some(at)),
        None => store.answer(pid, &empty_reply()),
    }
}

/// Performs the call of the world that a process asks for whose Give is being performed. The result is whether it was
/// refused for want of memory.
pub fn perform<E: Engine, O: Outside>(store: &mut Store<E, O>, pid: u64, request: &Request) -> bool
    requires keeps { StoreKeeps store.old }
    requires call { IsPerformed (call_of request.now) }
    requires giver { store.old.giver ≡ Some pid }
    requires performs { PerformsAt E.phase E.memory (place_at store.old pid) request.now }
    requires others { (other : ℕ) → MayBeWoken E.phase E.memory (place_at store.old other) }
    ensures keeps { StoreKeeps store.new }
    ensures performs { Performs (meaning E.stands E.phase E.memory) store.old store.new pid request.now result }
    ensures streams { PassesOn
        (told O.Stream.taken O.Stream.put O.Stream.faults O.Stream.waits O.Stream.empties O.Stream.down)
        (kept_of store.old) (kept_of store.new) [] [] }
{
    let Some(call) = call_numbered(request.ask.call) else {
        unreachable!()
    };
    match call {
        HostCall::Send => perform_send(store, pid, request),
        HostCall::Receive => {
            perform_receive(store, pid, request);
            false
        }
        HostCall::SleepMs => {
            perform_sleep(store, pid, request);
            false
        }
        _ => unreachable!(),
    }
}
