//! Joining passes, and the end of a lock.
ghost use Rattle.std.specs.Prelude.{◌≡◌, ◌<◌, Some};
ghost use Rattle.std.specs.List.{All};
ghost use Rattle.log_lock.specs.Knowledge.{ExtendsByOthers, HasAllNumbers, joined};
ghost use Rattle.log_lock.specs.Words.{IsPassOf, knowledge};

use crate::logged::Logged;
use crate::making::value_of;
use crate::pass::{LogLock, Pass};
use crate::steps::{CompareSources, JoinViews};

impl<V: Logged> LogLock<V> {
    /// Joins the second pass into the first, which keeps its number, the longer of what the two have
    /// seen, and the numbers that stand in either. What each has seen begins the longer one.
    pub fn join(&self, first: Pass<V>, second: Pass<V>) -> Pass<V>
        requires { IsPassOf self.now first × IsPassOf self.now second }
        ensures lock { IsPassOf self.now result }
        ensures knows { knowledge result ≡ joined (knowledge first) (knowledge second) }
        ensures this { ExtendsByOthers V.maker (knowledge first) (knowledge result).seen }
        ensures that { ExtendsByOthers V.maker (knowledge second) (knowledge result).seen }
    {
        let Pass { mut seat, number } = first;
        let Pass {
            seat: other,
            number: _,
        } = second;
        self.table.shared.join_seat::<JoinViews>(&mut seat, other);
        self.table.shared.load::<CompareSources<V>>(&mut seat, 0);
        Pass { seat, number }
    }

    /// Ends the lock, and gives its value back. Its entries are exactly those that the pass has seen,
    /// in which all n numbers stand.
    pub fn close(self, pass: Pass<V>) -> V
        requires lock { IsPassOf self pass }
        requires all { HasAllNumbers (knowledge pass) }
        ensures base { (knowledge pass).base ≡ Some (V.base result) }
        ensures log { V.entries result ≡ (knowledge pass).seen }
        ensures makers { All (λ e. V.maker e < (knowledge pass).count) (V.entries result) }
    {
        let Pass { seat, number: _ } = pass;
        let LogLock { table } = self;
        let mut closed = table.close_with(seat);
        let slot = closed.take(0);
        closed.free();
        value_of(slot)
    }
}
