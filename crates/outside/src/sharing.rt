//! What may move to other threads, and what may be shared among them. Nothing calls these functions:
//! that they are proved shows the bounds.
use crate::gate::Gate;

fn is_send<T: Send>() {}

fn is_sync<T: Sync>() {}

// Two outsides wait at one gate.
fn cross_threads() {
    is_send::<Gate>();
    is_sync::<Gate>();
}
