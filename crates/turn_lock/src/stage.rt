//! Stages of a seat.

/// How far a seat is with a turn. Tickets are counted without bound here; the words of the lock
/// count them modulo 2^64.
pub enum Stage {
    /// The first seat, before the lock has its value.
    Fresh,
    /// The same, with the slot in hand.
    Filling,
    /// The seat has no ticket.
    Idle,
    /// It has a ticket and waits.
    Waiting(u64),
    /// It is the ticket's turn, and the caller has the value.
    Serving(u64),
    /// The seat was joined into another.
    Spent,
}
