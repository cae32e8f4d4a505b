//! What the lock's rule says at every moment. Each function runs nothing; its contract is the law.
//!
//! Each step of a call on the lock's words keeps the rule, so the laws hold between any two steps
//! of any threads.

ghost use Rattle.turn_lock.specs.Laws.{TicketsAreCounted, TicketsAreApart, ServedComesFirst};
ghost use Rattle.turn_lock.specs.Laws.{FoundComesFirst, TurnHasSlot, OutIsTurn, HomeStands};
ghost use Rattle.turn_lock.specs.Laws.{ServedIsOne, TurnSeesAll, PlacesAreEvents};
ghost use Rattle.turn_lock.specs.Laws.{PlacesAreApart, NumbersAreCounted, NumbersAreApart};

use crate::counted::Counted;

/// Turns come in the order of the tickets. Each ticket is one seat's, the words count them, and
/// whoever is served, or finds its ticket in the word for it, has the lowest that isn't over.
pub fn law_order<V: Counted>()
    ensures counted { TicketsAreCounted V.stands V.actor }
    ensures apart { TicketsAreApart V.stands V.actor }
    ensures served { ServedComesFirst V.stands V.actor }
    ensures one { ServedIsOne V.stands V.actor }
    ensures found { FoundComesFirst V.stands V.actor }
{}

/// The seat that is served has the slot out, and nobody else takes it. While the value is in it, no
/// seat is served.
pub fn law_value<V: Counted>()
    ensures turn { TurnHasSlot V.stands V.actor }
    ensures out { OutIsTurn V.stands V.actor }
    ensures home { HomeStands V.stands V.actor }
{}

/// What a seat has seen in its turn is the whole history so far.
pub fn law_history<V: Counted>()
    ensures { TurnSeesAll V.stands V.actor }
{}

/// The events since the beginning are parted among the seats. Each stands at a place of one seat,
/// all together are as many as there were events, and no number is two seats'. What was joined into
/// a seat is that seat's.
pub fn law_places<V: Counted>()
    ensures events { PlacesAreEvents V.stands V.actor }
    ensures apart { PlacesAreApart V.stands V.actor }
    ensures numbers { NumbersAreCounted V.stands V.actor }
    ensures own_numbers { NumbersAreApart V.stands V.actor }
{}
