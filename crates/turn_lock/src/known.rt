//! What a seat knows.

use crate::stage::Stage;
use std::collections::LinkedList;

/// What a seat knows of its lock and of itself. Contracts alone see it: no value of it is made.
pub struct Known<E> {
    pub stage: Stage,
    /// How many turns it knows to be over: those of all tickets below this one.
    pub over: u64,
    /// The events that it has seen, a front of the lock's history.
    pub seen: LinkedList<E>,
    /// The shorter one of the two that it had seen at its last join.
    pub told: LinkedList<E>,
    /// The places in the history, ascending, of the events that were given through it or through a
    /// seat that was joined into it.
    pub mine: LinkedList<u64>,
    /// Its own number, 0 for the first seat.
    pub number: u64,
    /// The numbers of the seats that were joined into it.
    pub joined: LinkedList<u64>,
    /// Of the first seat, how many seats there have been. Of another, 0.
    pub seats: u64,
    /// How long the history was when the lock was made.
    pub base: u64,
}
