//! The kinds of step on the table, and what each tells the seat that makes it.
ghost use Rattle.log_lock.specs.Rule.{joined_view, spent_view};
ghost use Rattle.log_lock.specs.Steps.{ComparesSources, DrawsTicket, GivesBack, LooksForTurn, last_alone, without_last};

use crate::knowledge::View;
use crate::logged::Logged;
use atomic_table::{Join, Play, Split};
use std::marker::PhantomData;

/// Draws a ticket.
pub(crate) struct DrawTicket;

impl<S, I, B> Play<S, View<I, B>> for DrawTicket {
    ghost then = { DrawsTicket };
}

/// Loads the serving number, and takes the value where it is the seat's turn.
pub(crate) struct LoadServing<V> {
    of: PhantomData<V>,
}

impl<V: Logged> Play<Option<V>, View<V::Item, V::Base>> for LoadServing<V> {
    ghost then = { LooksForTurn V.entries V.maker V.base };
}

/// Advances the serving number, and gives the value back.
pub(crate) struct AdvanceServing<V> {
    of: PhantomData<V>,
}

impl<V: Logged> Play<Option<V>, View<V::Item, V::Base>> for AdvanceServing<V> {
    ghost then = { GivesBack V.entries };
}

/// Splits the greatest number off the first view.
pub(crate) struct SplitLast;

impl<I, B> Split<View<I, B>> for SplitLast {
    ghost left = { without_last };

    ghost right = { last_alone };
}

/// Joins two views without a ticket.
pub(crate) struct JoinViews;

impl<I, B> Join<View<I, B>> for JoinViews {
    ghost both = { joined_view };

    ghost spent = { spent_view };
}

/// Compares what the joined passes had seen with what is seen now: a join itself tells nothing.
pub(crate) struct CompareSources<V> {
    of: PhantomData<V>,
}

impl<V: Logged> Play<Option<V>, View<V::Item, V::Base>> for CompareSources<V> {
    ghost then = { ComparesSources V.maker };
}
