//! The steps on a lock's table, and what each tells its seat.

ghost use Rattle.turn_lock.specs.Seat.{after_split, newcomer, after_join};
ghost use Rattle.turn_lock.specs.Rule.{spent};
ghost use Rattle.turn_lock.specs.Steps.{AfterGrab, AfterBegin, AfterDraw, AfterLook};
ghost use Rattle.turn_lock.specs.Steps.{AfterCheck, AfterCount, AfterPass, AfterLearn};

use crate::counted::Counted;
use crate::known::Known;
use crate::named::Names;
use atomic_table::{Join, Play, Split};
use std::marker::PhantomData;

/// The first seat takes the empty slot.
pub(crate) struct Grab;

impl<V, E> Play<Option<V>, Known<E>> for Grab {
    ghost then = { AfterGrab };
}

/// It brings the slot home with the value, which stands for the named events.
pub(crate) struct Begin<K> {
    named: PhantomData<K>,
}

impl<V, E, K: Names<E>> Play<Option<V>, Known<E>> for Begin<K> {
    ghost then = { AfterBegin K.named };
}

/// A seat draws a ticket.
pub(crate) struct Draw;

impl<V, E> Play<Option<V>, Known<E>> for Draw {
    ghost then = { AfterDraw };
}

/// It looks which ticket is served, and takes the slot if that is its own.
pub(crate) struct Look;

impl<V: Counted> Play<Option<V>, Known<V::Event>> for Look {
    ghost then = { AfterLook V.stands V.actor };
}

/// It reads how many events there were.
pub(crate) struct Check;

impl<V, E> Play<Option<V>, Known<E>> for Check {
    ghost then = { AfterCheck };
}

/// It counts the named event.
pub(crate) struct Count<K> {
    named: PhantomData<K>,
}

impl<V, E, K: Names<E>> Play<Option<V>, Known<E>> for Count<K> {
    ghost then = { AfterCount K.named };
}

/// It brings the slot home, and the next ticket is served.
pub(crate) struct Pass;

impl<V, E> Play<Option<V>, Known<E>> for Pass {
    ghost then = { AfterPass };
}

/// A seat learns which events are its own, and after a join that what both seats had seen are fronts
/// of one history.
pub(crate) struct Learn;

impl<V: Counted> Play<Option<V>, Known<V::Event>> for Learn {
    ghost then = { AfterLearn V.actor };
}

/// A newcomer is split off the first seat.
pub(crate) struct SplitOff;

impl<E> Split<Known<E>> for SplitOff {
    ghost left = { after_split };

    ghost right = { newcomer };
}

/// A seat is joined into another.
pub(crate) struct JoinInto;

impl<E> Join<Known<E>> for JoinInto {
    ghost both = { after_join };

    ghost spent = { spent };
}
