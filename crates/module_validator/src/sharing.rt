//! What may move to other threads and be shared among them. Nothing calls these functions: that they
//! are proved shows the bounds.
use crate::Valid;

fn is_send<T: Send>() {}

fn is_sync<T: Sync>() {}

// A module is accepted once, and any number of threads run it.
fn cross_threads() {
    is_send::<Valid>();
    is_sync::<Valid>();
}
