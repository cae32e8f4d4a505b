//! Turn locks.

ghost use Rattle.std.specs.Prelude.{◌≡◌, ◌≢◌, ◌+◌, ◌^◌, ◌<◌, ◌≤◌, ◌++◌, ℕ, List, length};
ghost use Rattle.std.specs.Prelude.{[], ◌⊎◌, ◌↔◌, Contains, IfOk, IfErr, OnOk, OnErr};
ghost use Rattle.turn_lock.specs.declared.stage.Stage.TheVariants.{Idle};
ghost use Rattle.turn_lock.specs.Lists.{IsFront};
ghost use Rattle.turn_lock.specs.Rule.{fresh};
ghost use Rattle.turn_lock.specs.Seat.{IsServing, IsServedFrom, held_at, numbers};
ghost use Rattle.turn_lock.specs.Seat.{HasOwnEvents, HasNoEvents, HasPlaces, HasHad};
ghost use Rattle.turn_lock.specs.Seat.{HasWholeHistory};
ghost use Rattle.turn_lock.specs.Seat.{first_seat, having_seen, with_events, after_turn};
ghost use Rattle.turn_lock.specs.Seat.{after_split, newcomer, after_join};

use crate::counted::Counted;
use crate::known::Known;
use crate::named::Names;
use crate::rule::Turns;
use crate::seat::{Place, Seat};
use crate::steps::{Begin, Check, Count, Draw, Grab, JoinInto, Learn, Look, Pass, SplitOff};
use atomic_table::Table;
use peb_base::Memory;
use std::alloc::Global;
use std::marker::{Brand, Model};
use std::sync::Wait;
use std::thread;

// The next ticket.
const TICKET: usize = 0;

// The ticket that is served.
const SERVING: usize = 1;

// How many events there were.
const EVENTS: usize = 2;

// How often a seat that waits gives its processor away before it sleeps. A turn that does nothing
// is over by then; one that waits for a device isn't.
const YIELDS: u32 = 64;

/// One value and the history of its events, which its seats reach by turns.
#[derive(Drop)]
pub struct TurnLock<V: Counted> {
    table: Table<Option<V>, Known<V::Event>, (), Turns<V>, Global>,
}

impl<V: Counted> Model for TurnLock<V> {
    ghost use Rattle.std.specs.Prelude.{◌≡◌};
    ghost use Rattle.atomic_table.specs.Seated.{TableId, table_id_coded};

    ghost Value = { TableId };

    ghost coded = { table_id_coded };

    ghost view = { λ lock. lock.table.shared.table_id };

    ghost invariant = { λ lock. (lock.table.shared.table_id.words ≡ 3)
        × (lock.table.shared.table_id.slots ≡ 1) };
}

impl<V: Counted> TurnLock<V> {
    /// A lock with this value in it, and its first seat. The caller says for which events the value
    /// stands. Where memory is wanting, the value comes back.
    pub fn new(alloc: Global, value: V) -> Result<(TurnLock<V>, Seat<V>), V>
        ghost history: { List V.Event }
        requires { V.stands value history }
        ensures ok { IfOk result (λ r. r.1 ≡ record { lock = r.0; known = first_seat history }) }
        ensures err { IfErr result (λ back. back ≡ value) }
    {
        let Ok((table, mut place)) = Table::vacant(alloc, &[0, 0, 0], 1, &()) else {
            return Err(value);
        };
        let lock = TurnLock { table };
        lock.begin::<Brand>(&mut place, value);
        Ok((lock, Seat { place, seats: 1 }))
    }

    // Brings the value in.
    fn begin<K: Names<V::Event>>(&self, place: &mut Place<V>, value: V)
        requires lock { place.old.table_id ≡ self.now }
        requires fresh { place.old.me ≡ (fresh, []) }
        requires value { V.stands value K.named }
        ensures lock { place.new.table_id ≡ place.old.table_id }
        ensures begun { place.new.me ≡ (first_seat K.named, []) }
    {
        let shared = &self.table.shared;
        let events = value.events();
        shared.load::<Grab>(place, TICKET);
        let old = shared.exchange(place, 0, Some(value));
        let None = old else { unreachable!() };
        shared.store::<Begin<K>>(place, EVENTS, events);
    }

    /// Waits for the seat's turn, and takes the value. It stands for what the seat has then seen,
    /// which is the whole history (`law_history`). The turn comes after all those that the seat
    /// knows to be over, and its ticket is the lowest that isn't (`law_order`). It takes no memory.
    pub fn take<R: Wait>(&self, rt: &R, seat: &mut Seat<V>) -> V
        // what it asks
        requires lock { seat.old.lock ≡ self.now }
        requires rests { seat.old.known.stage ≡ Idle }

        // what the caller has
        ensures value { V.stands result seat.new.known.seen }
        ensures turn { IsServing seat.new.known.stage }
        ensures in_order { IsServedFrom seat.old.known.over seat.new.known.stage }

        // what the seat has seen
        ensures front { IsFront seat.old.known.seen seat.new.known.seen }
        ensures own_events { HasOwnEvents V.actor seat.new.known }
        ensures places { HasPlaces seat.new.known }

        // what stays
        ensures known { seat.new.known
            ≡ having_seen seat.new.known.stage seat.new.known.seen seat.old.known }
        ensures lock { seat.new.lock ≡ seat.old.lock }
    {
        let shared = &self.table.shared;
        let ticket = shared.fetch_add::<Draw>(&mut seat.place, TICKET, 1);
        let mut yields = 0;
        for _ in rt.forever() {
            let serving = shared.load::<Look>(&mut seat.place, SERVING);
            if serving == ticket {
                let found = shared.exchange(&mut seat.place, 0, None);
                let Some(value) = found else { unreachable!() };
                return value;
            }
            if yields < YIELDS {
                yields += 1;
                thread::yield_now();
            } else {
                self.sleep(rt, serving);
            }
        }
        unreachable!()
    }

    // Sleeps while this ticket is served, if it still is. It is the one that was looked at, not a
    // later one: else a seat may sleep through its own turn.
    fn sleep<R: Wait>(&self, rt: &R, serving: u64) {
        let low = serving % (1 << 32);
        self.table.shared.park(rt, SERVING, low as u32);
    }

    /// Gives the value back, and ends the seat's turn. The caller says which event the value has
    /// had since it was taken, if any. It takes no memory.
    pub fn give(&self, seat: &mut Seat<V>, value: V)
        ghost said: { List V.Event }
        requires lock { seat.old.lock ≡ self.now }
        requires turn { IsServing seat.old.known.stage }
        requires events { HasHad V.stands V.actor seat.old.known value said }
        ensures given { seat.new.known ≡ after_turn (with_events said seat.old.known) }
        ensures lock { seat.new.lock ≡ seat.old.lock }
    {
        self.note::<Brand>(&mut seat.place, &value);
        let shared = &self.table.shared;
        let old = shared.exchange(&mut seat.place, 0, Some(value));
        let None = old else { unreachable!() };
        let served = shared.fetch_add::<Pass>(&mut seat.place, SERVING, 1);
        if shared.peek(TICKET) != served.wrapping_add(1) {
            shared.wake_all(SERVING);
        }
    }

    /// As `give`. What the caller says may be computed from `about`, which isn't touched.
    pub fn give_about<X>(&self, seat: &mut Seat<V>, value: V, about: &X)
        ghost said: { List V.Event }
        requires lock { seat.old.lock ≡ self.now }
        requires turn { IsServing seat.old.known.stage }
        requires events { HasHad V.stands V.actor seat.old.known value said }
        ensures given { seat.new.known ≡ after_turn (with_events said seat.old.known) }
        ensures lock { seat.new.lock ≡ seat.old.lock }
    {
        let _ = about;
        self.give(seat, value);
    }

    // Counts the event that the value has had since the seat took it, if any.
    fn note<K: Names<V::Event>>(&self, place: &mut Place<V>, value: &V)
        // what it asks
        requires lock { place.old.table_id ≡ self.now }
        requires turn { IsServing place.old.me.0.stage }
        requires held { place.old.me.1 ≡ held_at place.old.me.0.stage }
        requires events { HasHad V.stands V.actor place.old.me.0 value.now K.named }

        // what the seat has then, and what stays
        ensures noted { place.new.me ≡ (with_events K.named place.old.me.0, place.old.me.1) }
        ensures lock { place.new.table_id ≡ place.old.table_id }
    {
        let shared = &self.table.shared;
        let known = shared.load::<Check>(place, EVENTS);
        let events = value.events();
        if events == known {
            return;
        }
        shared.fetch_add::<Count<K>>(place, EVENTS, 1);
    }

    /// Splits a further seat off the first one. It has seen as much, and no event is its own.
    /// `Memory` is answered after 2^64 - 1 seats alone, and changes nothing.
    pub fn split(&self, seat: &mut Seat<V>) -> Result<Seat<V>, Memory>
        // what it asks
        requires lock { seat.old.lock ≡ self.now }
        requires rests { seat.old.known.stage ≡ Idle }
        requires first { seat.old.known.number ≡ 0 }

        // what it gives
        ensures ok { IfOk result (λ other. other
            ≡ record { lock = seat.old.lock; known = newcomer seat.old.known }) }
        ensures number { IfOk result (λ other. other.known.number ≡ seat.old.known.seats) }
        ensures seen { IfOk result (λ other. other.known.seen ≡ seat.old.known.seen) }
        ensures base { IfOk result (λ other. other.known.base ≡ seat.old.known.base) }
        ensures over { IfOk result (λ other. other.known.over ≡ seat.old.known.over) }
        ensures no_places { IfOk result (λ other. other.known.mine ≡ []) }
        ensures no_events { IfOk result (λ other. HasNoEvents V.actor other.known) }

        // what it leaves
        ensures counted { OnOk result (seat.new
            ≡ record { lock = seat.old.lock; known = after_split seat.old.known }) }
        ensures seats { OnOk result (seat.new.known.seats ≡ seat.old.known.seats + 1) }

        // when it is refused
        ensures last { OnErr result (seat.old.known.seats + 1 ≡ 2 ^ 64) }
        ensures err { OnErr result (seat.new ≡ seat.old) }
    {
        if seat.seats == u64::MAX {
            return Err(Memory);
        }
        let mut place = self.table.shared.split_seat::<SplitOff>(&mut seat.place);
        seat.seats += 1;
        self.table.shared.load::<Learn>(&mut place, TICKET);
        Ok(Seat { place, seats: 0 })
    }

    /// Takes in what another seat has seen, its events and its numbers. No event is both seats'.
    pub fn join(&self, seat: &mut Seat<V>, other: Seat<V>)
        // what it asks
        requires lock { (seat.old.lock ≡ self.now) × (other.lock ≡ self.now) }
        requires rests { (seat.old.known.stage ≡ Idle) × (other.known.stage ≡ Idle) }
        requires later { other.known.number ≢ 0 }

        // what the seat has then
        ensures joined { seat.new.known ≡ after_join seat.old.known other.known }
        ensures numbers { numbers seat.new.known
            ≡ numbers seat.old.known ++ numbers other.known }
        ensures own_events { HasOwnEvents V.actor seat.new.known }
        ensures places { HasPlaces seat.new.known }

        // what both had
        ensures over { (seat.old.known.over ≤ seat.new.known.over)
            × (other.known.over ≤ seat.new.known.over) }
        ensures front { IsFront seat.old.known.seen seat.new.known.seen }
        ensures other_front { IsFront other.known.seen seat.new.known.seen }
        ensures both { (p : ℕ) → Contains seat.new.known.mine p
            ↔ (Contains seat.old.known.mine p ⊎ Contains other.known.mine p) }
        ensures apart { (p : ℕ) → Contains seat.old.known.mine p
            → Contains other.known.mine p → ⊥ }

        // what stays
        ensures lock { seat.new.lock ≡ seat.old.lock }
    {
        let Seat { place, seats: _ } = other;
        let shared = &self.table.shared;
        shared.join_seat::<JoinInto>(&mut seat.place, place);
        shared.load::<Learn>(&mut seat.place, TICKET);
    }

    /// The value, once all other seats were joined into the first one, which has seen all events.
    pub fn close(self, seat: Seat<V>) -> V
        // what it asks
        requires lock { seat.lock ≡ self }
        requires rests { seat.known.stage ≡ Idle }
        requires first { seat.known.number ≡ 0 }
        requires all { (n : ℕ) → n < seat.known.seats → Contains (numbers seat.known) n }

        // what it gives
        ensures value { V.stands result seat.known.seen }
        ensures whole { HasWholeHistory seat.known }
    {
        let TurnLock { table } = self;
        let Seat { place, seats: _ } = seat;
        let mut closed = table.close_with(place);
        let slot = closed.take(0);
        closed.free();
        match slot {
            Some(value) => value,
            None => unreachable!(),
        }
    }
}
