//! The processes of a node: by process number what stands at its place, and its mailbox; the queue, names, links, and the
//! closed streams.
//!
//! A [`Store`] is seen as what a node holds (`held_of`) and as its very streams (`kept_of`). Each call makes one of the
//! steps of `node_mirror` on what is held, passes the streams on, and keeps what a store keeps (`StoreKeeps`).
#![tactic(auto)]

mod closing;
mod delivery;
mod item;
mod node;
mod performing;
mod place;
mod replies;
mod store;
mod streaming;
mod taken;
mod times;
mod waking;

pub use closing::{close_all, close_mail, close_proc};
pub use delivery::deliver;
pub use item::{Item, Letter};
pub use node::Node;
pub use performing::perform;
pub use place::Place;
pub use store::Store;
pub use streaming::{streams_are_few, streams_pass_on, streams_stand_once};
pub use taken::Taken;
pub use waking::wakes;
