//! The machine's files, standard output, sockets and clock, as the traits of `outside` have them.
//!
//! [`RealFiles`], [`RealOut`], [`RealStream`], [`RealListener`] and [`RealOutside`] meet `Files`, `Sink`, `Stream`,
//! `Listener` and `Outside`: each answer that is no success raises a count. They tell no content, so no clause says
//! what a file, a socket or the clock holds. A count at its end rises no more; where it would have to, the answer is
//! want of memory, or no byte.
#![tactic(auto)]

mod real_files;
mod real_listener;
mod real_out;
mod real_outside;
mod real_stream;
#[cfg(test)]
mod tests;
mod watch;

pub use real_files::RealFiles;
pub use real_listener::RealListener;
pub use real_out::RealOut;
pub use real_outside::RealOutside;
pub use real_stream::RealStream;
