// The kinds of step on the lock's table.
ghost use Rattle.std.specs.Prelude.{List, []};
ghost use Rattle.vb_hist.specs.declared.entry.Entry.{Entry};
ghost use Rattle.vb_turn.specs.Steps.{drew, looked, opened, counted, posted, passed, glanced, handed_out, left_over, joined, spent_view};

use crate::Kept;
use crate::view::View;
use atomic_table::{Join, Play, Split};
use std::marker::{Brand, PhantomData};

/// A ticket is drawn.
pub(crate) struct Draw;

impl<V> Play<Option<V>, View<V>> for Draw {
    ghost then = { drew };
}

/// The ticket that is served is looked at.
pub(crate) struct Look;

impl<V: Kept> Play<Option<V>, View<V>> for Look {
    ghost then = { looked V.history V.stands V.published_after };
}

/// The first seat takes the empty slot.
pub(crate) struct Open;

impl<V> Play<Option<V>, View<V>> for Open {
    ghost then = { opened };
}

/// A history that a count is told.
pub(crate) trait Grown {
    ghost history: { List Entry };
}

/// Each call picks its own.
impl Grown for Brand {
    ghost history = { [] };
}

/// A turn's entries become part of the history.
pub(crate) struct Count<J> {
    grown: PhantomData<J>,
}

impl<V, J: Grown> Play<Option<V>, View<V>> for Count<J> {
    ghost then = { counted J.history };
}

/// The epoch is told to all.
pub(crate) struct Post;

impl<V> Play<Option<V>, View<V>> for Post {
    ghost then = { posted };
}

/// The next ticket is served.
pub(crate) struct Pass;

impl<V> Play<Option<V>, View<V>> for Pass {
    ghost then = { passed };
}

/// The epoch told to all is looked at.
pub(crate) struct Glance;

impl<V: Kept> Play<Option<V>, View<V>> for Glance {
    ghost then = { glanced V.published_after };
}

/// The first number goes to a seat of its own.
pub(crate) struct HandOut;

impl<V> Split<View<V>> for HandOut {
    ghost left = { left_over };

    ghost right = { handed_out };
}

/// A seat takes in another's numbers.
pub(crate) struct TakeIn;

impl<V> Join<View<V>> for TakeIn {
    ghost both = { joined };

    ghost spent = { spent_view };
}
