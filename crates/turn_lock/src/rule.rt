//! The rule of a lock's table.

use crate::counted::Counted;
use crate::known::Known;
use atomic_table::TableRule;
use std::marker::PhantomData;

/// The rule. Word 0 is the next ticket, word 1 the ticket that is served, word 2 the number of
/// events, each modulo 2^64. The one slot holds the value.
pub struct Turns<V> {
    of: PhantomData<V>,
}

impl<V: Counted> TableRule<Option<V>, Known<V::Event>, ()> for Turns<V> {
    ghost use Rattle.turn_lock.specs.Rule.{KeepsRule, fresh};

    ghost holds = { λ _. KeepsRule V.stands V.actor };

    ghost first = { λ _. fresh };
}
