ghost use Rattle.std.specs.Prelude.{◌≡◌, ◌+◌, ◌++◌, ◌≤◌, [], None, length, vec_capacity};
ghost use Rattle.std.specs.Option.{option_to_list};
ghost use Rattle.node_mirror.specs.Steps.{Requeued};
ghost use Rattle.process_store.specs.Keeps.{StoreKeeps};
ghost use Rattle.process_store.specs.Holds.{Becomes, held_of, kept_of};

use super::Store;
use host_port::Engine;
use outside::Outside;
use run_queue::Queue;

/// Puts these behind the others of the list, in their order.
fn push_all(queue: &mut Queue, came: &[u64])
    requires { length queue.old.ready + length came.now ≤ queue.old.room }
    ensures ready { queue.new.ready ≡ queue.old.ready ++ came.now }
    ensures deadlines { queue.new.deadlines ≡ queue.old.deadlines }
    ensures room { queue.new.room ≡ queue.old.room }
{
    for &pid in came {
        queue.push_reserved(pid);
    }
}

/// Puts this one behind the others, if there is one.
fn push_last(queue: &mut Queue, giver: Option<u64>)
    requires { length queue.old.ready + length (option_to_list giver) ≤ queue.old.room }
    ensures ready { queue.new.ready ≡ queue.old.ready ++ option_to_list giver }
    ensures deadlines { queue.new.deadlines ≡ queue.old.deadlines }
    ensures room { queue.new.room ≡ queue.old.room }
{
    if let Some(pid) = giver {
        queue.push_reserved(pid);
    }
}

impl<E: Engine, O: Outside> Store<E, O> {
    /// Queues who came home in this entry: those that came, by rising number, and the one that came back from its worker
    /// last.
    pub fn requeue(&mut self)
        requires keeps { StoreKeeps self.old }
        ensures keeps { StoreKeeps self.new }
        ensures held { Becomes self.new (held_of self.old) }
        ensures kept { kept_of self.new ≡ kept_of self.old }
        ensures ready { Requeued self.old.queue.ready (option_to_list self.old.giver) (held_of self.new) }
        ensures came { self.new.came.items ≡ [] }
        ensures giver { self.new.giver ≡ None }
        ensures same { self.new ≡ record self.old {
          queue = self.new.queue;
          came = self.new.came;
          giver = self.new.giver;
        } }
        ensures rooms { vec_capacity self.new.closed ≡ vec_capacity self.old.closed }
    {
        self.came.sort_unstable();
        push_all(&mut self.queue, &self.came);
        push_last(&mut self.queue, self.giver);
        self.came.clear();
        self.giver = None;
    }
}
