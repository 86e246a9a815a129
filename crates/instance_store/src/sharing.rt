//! What may move to other threads and be shared among them. Nothing calls these functions: that they are proved
//! shows the bounds.
use crate::{Invocation, Store};

fn is_send<T: Send>() {}

fn is_sync<T: Sync>() {}

// An instance is made on one thread, and others execute it.
fn cross_threads() {
    is_send::<Store>();
    is_sync::<Store>();
    is_send::<Invocation>();
    is_sync::<Invocation>();
}
