//! A new lock, and the handing out of its passes.
ghost use Rattle.std.specs.Prelude.{◌≡◌, ℕ, ◌<◌, ◌≤◌, List, [], ◌∷◌, length, reverse, vec_capacity, Some, IfOk, IfErr, MatchOption};
ghost use Rattle.log_lock.specs.Steps.{HasFirstNumbers, alone};
ghost use Rattle.log_lock.specs.Words.{EachFrom, IsNewPass, knowledge, passes_of};
ghost use Rattle.log_lock.specs.declared.knowledge.Turn.TheVariants.{Idle};

use crate::logged::Logged;
use crate::pass::{LogLock, Pass, Passes};
use crate::rule::{Key, LogSeat, LogTable};
use crate::steps::SplitLast;
use atomic_table::{Refused, Table};
use std::alloc::{AllocFailed, Global};
use std::snapshot::Snapshot;

impl<V: Logged> Passes<V> {
    /// Takes out the pass with the least number. It answers `None` exactly where none is left.
    pub fn next(&mut self) -> Option<Pass<V>>
        ensures { MatchOption result ((passes_of self.old ≡ []) × (passes_of self.new ≡ [])) (λ p. passes_of self.old ≡ p ∷ passes_of self.new) }
    {
        self.rest.pop()
    }
}

impl<V: Logged> Pass<V> {
    /// The pass's own number.
    pub fn number(&self) -> u8
        ensures { result ≡ (knowledge self.now).number }
    {
        self.number
    }

    fn at(seat: LogSeat<V>, number: u8) -> Pass<V>
        requires { (seat.me.1 ≡ []) × (seat.me.0.turn ≡ Idle) × (seat.me.0.knows.number ≡ number) × (0 < length seat.me.0.knows.numbers) }
        ensures { result.seat ≡ seat }
    {
        Pass { seat, number }
    }
}

impl<V: Logged> LogLock<V> {
    /// A lock over the value, and its n passes, numbered from 0 to n - 1. The only refusal is want of
    /// memory, and it hands the value back. Nothing else of the lock takes memory.
    pub fn new(alloc: Global, value: V, n: u8) -> Result<(LogLock<V>, Passes<V>), V>
        requires empty { V.entries value ≡ [] }
        requires count { (0 < n) × (n ≤ 64) }
        ensures count { IfOk result (λ r. length (passes_of r.1) ≡ n) }
        ensures each { IfOk result (λ r. EachFrom (IsNewPass r.0 (V.base value) n) 0 (passes_of r.1)) }
        ensures err { IfErr result (λ v. v ≡ value) }
    {
        let Ok(list) = Vec::with_capacity(alloc, usize::from(n)) else {
            return Err(value);
        };
        let key = Key {
            value: Snapshot::of(&value),
            count: n,
        };
        let slots = match slot_with(alloc, Some(value)) {
            Ok(slots) => slots,
            Err(slot) => return Err(value_of(slot)),
        };
        match Table::new(alloc, &[0, 0], slots, &key) {
            Ok((table, seat)) => {
                let lock = LogLock::over(table);
                let rest = lock.split(seat, n, list);
                Ok((lock, Passes { rest }))
            }
            Err(Refused { slots }) => Err(value_of(only_slot(slots))),
        }
    }

    fn over(table: LogTable<V>) -> LogLock<V>
        requires { (table.shared.table_id.words ≡ 2) × (table.shared.table_id.slots ≡ 1) }
        ensures { result.table ≡ table }
    {
        LogLock { table }
    }

    // Splits the first seat into n passes, which the list has in falling order of their numbers.
    fn split(&self, mut seat: LogSeat<V>, n: u8, mut list: Vec<Pass<V>>) -> Vec<Pass<V>>
        requires seat { (seat.table_id ≡ self.now.table.shared.table_id) × (seat.me.1 ≡ []) × HasFirstNumbers seat.me.0 n × (0 < n) }
        requires list { (list.items ≡ []) × (n ≤ vec_capacity list) }
        ensures count { length result.items ≡ n }
        ensures each { EachFrom (λ k p. (p.seat.table_id ≡ seat.table_id) × (p.seat.me.0 ≡ alone k seat.me.0)) 0 (reverse result.items) }
    {
        let mut k = n;
        while k > 1 {
            k -= 1;
            let other = self.table.shared.split_seat::<SplitLast>(&mut seat);
            list.push_reserved(Pass::at(other, k));
        }
        list.push_reserved(Pass::at(seat, 0));
        list
    }
}

// One slot with this value, which comes back where there is no memory.
fn slot_with<T>(alloc: Global, value: T) -> Result<Vec<T>, T>
    ensures ok { IfOk result (λ v. v.items ≡ value ∷ []) }
    ensures err { IfErr result (λ x. x ≡ value) }
{
    let mut slots = Vec::new(alloc);
    match slots.push(value) {
        Ok(()) => Ok(slots),
        Err(failed) => {
            let AllocFailed { value } = failed;
            slots.destroy_empty();
            Err(value)
        }
    }
}

fn only_slot<T>(mut slots: Vec<T>) -> T
    requires { (x : T) × (slots.items ≡ x ∷ []) }
    ensures { slots.items ≡ result ∷ [] }
{
    let x = slots.pop().unwrap();
    slots.destroy_empty();
    x
}

pub(crate) fn value_of<T>(slot: Option<T>) -> T
    requires { (x : T) × (slot ≡ Some x) }
    ensures { slot ≡ Some result }
{
    let Some(x) = slot else { unreachable!() };
    x
}
