//! The lock's table: two words, one slot, and the rule that they keep.
use crate::knowledge::View;
use crate::logged::Logged;
use atomic_table::{Seat, Table, TableRule};
use std::alloc::Global;
use std::marker::PhantomData;
use std::snapshot::Snapshot;

/// What the table is told when it is made: the value as it is then, and the number of passes.
#[derive(Drop)]
pub struct Key<V> {
    pub value: Snapshot<V>,
    pub count: u8,
}

/// Word 0 is the next ticket, word 1 the serving number, and slot 0 has the value.
pub struct LogRule<V> {
    of: PhantomData<V>,
}

impl<V: Logged> TableRule<Option<V>, View<V::Item, V::Base>, Key<V>> for LogRule<V> {
    ghost use Rattle.log_lock.specs.Rule.{IsKept, first_view};

    ghost holds = { λ key. IsKept V.entries V.maker V.base (V.base key.value.value) key.count };

    ghost first = { λ key. first_view (V.base key.value.value) key.count };
}

/// The table of a lock over a `V`.
pub type LogTable<V> = Table<
    Option<V>,
    View<<V as Logged>::Item, <V as Logged>::Base>,
    Key<V>,
    LogRule<V>,
    Global,
>;

/// A seat at it.
pub type LogSeat<V> = Seat<Option<V>, View<<V as Logged>::Item, <V as Logged>::Base>>;
