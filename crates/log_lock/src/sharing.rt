//! What may move to other threads, and what may be shared among them. Nothing calls these functions:
//! that they are proved shows the bounds.
use crate::logged::Logged;
use crate::pass::{Hold, LogLock, Pass, Passes};

fn is_send<T: Send>() {}

fn is_sync<T: Sync>() {}

// The lock is shared, and the passes and the holds move, whatever the value is.
fn cross_threads<V: Logged>() {
    is_send::<LogLock<V>>();
    is_sync::<LogLock<V>>();
    is_send::<Passes<V>>();
    is_send::<Pass<V>>();
    is_send::<Hold<V>>();
}
