//! Entering and leaving.
ghost use Rattle.std.specs.Prelude.{◌≡◌, ◌∷◌, [], Some, None};
ghost use Rattle.log_lock.specs.Knowledge.{ExtendsByOthers, ExtendsByOwn, with_seen};
ghost use Rattle.log_lock.specs.Steps.{IsWaiting, TakesValue};
ghost use Rattle.log_lock.specs.Words.{IsHoldOf, IsPassOf, hold_knowledge, knowledge};

use crate::logged::Logged;
use crate::pass::{Hold, LogLock, Pass};
use crate::rule::LogSeat;
use crate::steps::{AdvanceServing, DrawTicket, LoadServing};
use crossbeam_utils::Backoff;
use std::sync::Wait;

impl<V: Logged> LogLock<V> {
    /// Waits for its turn, and hands the value out. Its entries begin with all that the pass has
    /// seen, and the further ones are of no number that stands in the pass. It may wait without end.
    pub fn enter<R: Wait>(&self, rt: &R, pass: Pass<V>) -> (V, Hold<V>)
        requires { IsPassOf self.now pass }
        ensures lock { IsHoldOf self.now result.1 }
        ensures base { (knowledge pass).base ≡ Some (V.base result.0) }
        ensures log { ExtendsByOthers V.maker (knowledge pass) (V.entries result.0) }
        ensures knows { hold_knowledge result.1 ≡ with_seen (V.entries result.0) (knowledge pass) }
    {
        let Pass { mut seat, number } = pass;
        let shared = &self.table.shared;
        let ticket = shared.fetch_add::<DrawTicket>(&mut seat, 0, 1);
        self.wait_for_turn(rt, &mut seat, ticket);
        let taken = shared.exchange(&mut seat, 0, None);
        let Some(value) = taken else { unreachable!() };
        (value, Hold { seat, number })
    }

    /// Takes the value back, and lets the next one in. The value has the base that it had at `enter`,
    /// and its further entries are of this pass's number. The pass then knows all its entries.
    pub fn leave(&self, value: V, hold: Hold<V>) -> Pass<V>
        requires lock { IsHoldOf self.now hold }
        requires base { (hold_knowledge hold).base ≡ Some (V.base value) }
        requires own { ExtendsByOwn V.maker (hold_knowledge hold) (V.entries value) }
        ensures lock { IsPassOf self.now result }
        ensures knows { knowledge result ≡ with_seen (V.entries value) (hold_knowledge hold) }
    {
        let Hold { mut seat, number } = hold;
        let empty = self.table.shared.exchange(&mut seat, 0, Some(value));
        let None = empty else { unreachable!() };
        self.table
            .shared
            .fetch_add::<AdvanceServing<V>>(&mut seat, 1, 1);
        Pass { seat, number }
    }

    // Loads the serving number until it is the ticket. The load that finds it takes the value.
    fn wait_for_turn<R: Wait>(&self, rt: &R, seat: &mut LogSeat<V>, ticket: u64)
        requires lock { seat.old.table_id ≡ self.now.table.shared.table_id }
        requires waits { IsWaiting ticket seat.old.me }
        ensures lock { (seat.new.table_id ≡ seat.old.table_id) × (seat.new.id ≡ seat.old.id) }
        ensures taken { TakesValue V.entries V.maker V.base seat.old.me seat.new.me }
    {
        let backoff = Backoff::new();
        for _ in rt.forever() {
            if self.table.shared.load::<LoadServing<V>>(seat, 1) == ticket {
                return;
            }
            backoff.snooze();
        }
        unreachable!()
    }
}
