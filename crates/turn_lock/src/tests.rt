//! Turns in threads.

ghost use Rattle.std.specs.Prelude.{◌≡◌, ◌<◌, ◌≤◌, ◌++◌, ◌∷◌, [], ℕ, ◌⊎◌, List, length, All};
ghost use Rattle.std.specs.Prelude.{Contains, IfOk, IfSome, IsTrue, OnErr, OnOk, Some, slice_get};
ghost use Rattle.turn_lock.specs.declared.stage.Stage.TheVariants.{Idle};
ghost use Rattle.turn_lock.specs.declared.tests.Mark.{Mark};
ghost use Rattle.turn_lock.specs.Seat.{IsIdle, IsServing, after_turn, after_split};
ghost use Rattle.turn_lock.specs.Seat.{first_seat, newcomer};
ghost use Rattle.turn_lock.specs.Tests.{AreThree, Says, having_given};

use crate::counted::Counted;
use crate::lock::TurnLock;
use crate::seat::Seat;
use peb_base::Memory;
use std::alloc::{AllocError, Global};
use std::sync::Wait;
use std::test::Fail;
use std::thread;
use std::thread::{Threads, for_each_mut, join};
use std::time::{Clock, Duration};

/// What a seat writes on a tape: its number, and a value.
#[derive(Clone, Copy)]
struct Mark {
    by: u64,
    value: u64,
}

/// A value that keeps its events in a list.
#[derive(Drop)]
struct Tape {
    marks: Vec<Mark>,
}

impl Counted for Tape {
    type Event = Mark;

    ghost use Rattle.std.specs.Prelude.{◌≡◌, Some};

    ghost stands = { λ tape events. events ≡ tape.marks.items };

    ghost actor = { λ mark. Some mark.by };

    fn events(&self) -> u64 {
        self.marks.len() as u64
    }
}

/// Gives a tape back. The event is what the tape has behind the marks that the seat has seen.
fn give_back(lock: &TurnLock<Tape>, seat: &mut Seat<Tape>, tape: Tape)
    requires lock { seat.old.lock ≡ lock.now }
    requires turn { IsServing seat.old.known.stage }
    requires says { Says (λ mark. Some mark.by) seat.old.known tape.marks.items }
    ensures given { seat.new.known
        ≡ after_turn (having_given seat.old.known tape.marks.items) }
    ensures lock { seat.new.lock ≡ seat.old.lock }
{
    lock.give(seat, tape);
}

/// Adds a mark in a turn of its own.
fn add<R: Wait>(
    rt: &R,
    lock: &TurnLock<Tape>,
    seat: &mut Seat<Tape>,
    mark: Mark,
) -> Result<(), AllocError>
    requires { IsIdle lock.now mark.by seat.old }
    ensures added { OnOk result ((between : List Mark) ×
        (let before = seat.old.known.seen ++ between in
        (seat.new.known.seen ≡ before ++ mark ∷ [])
        × (seat.new.known.mine ≡ seat.old.known.mine ++ length before ∷ []))) }
    ensures err { OnErr result (seat.new.known.mine ≡ seat.old.known.mine) }
    ensures base { seat.new.known.base ≡ seat.old.known.base }
    ensures idle { IsIdle lock.now mark.by seat.new }
{
    let mut tape = lock.take(rt, seat);
    let pushed = tape.marks.push(mark);
    give_back(lock, seat, tape);
    pushed?;
    Ok(())
}

/// Adds three marks in turns of their own, and says whether memory served for all.
fn add_three<R: Wait>(
    rt: &R,
    lock: &TurnLock<Tape>,
    mut seat: Seat<Tape>,
    by: u64,
) -> (Seat<Tape>, bool)
    requires idle { IsIdle lock.now by seat }
    requires fresh { seat.known.mine ≡ [] }
    ensures three { IsTrue result.1 → AreThree result.0.known.mine }
    ensures idle { IsIdle lock.now by result.0 }
{
    let first = add(rt, lock, &mut seat, Mark { by, value: 0 });
    let second = add(rt, lock, &mut seat, Mark { by, value: 1 });
    let third = add(rt, lock, &mut seat, Mark { by, value: 2 });
    (seat, first.is_ok() && second.is_ok() && third.is_ok())
}

/// A turn without an event, long enough for others to fall asleep. It leaves the seat's places as
/// they were, and comes after all turns that the seat knew to be over.
fn idle_turn<R: Wait + Clock>(rt: &R, lock: &TurnLock<Tape>, mut seat: Seat<Tape>) -> Seat<Tape>
    requires { IsIdle lock.now seat.known.number seat }
    ensures places { result.known.mine ≡ seat.known.mine }
    ensures after { seat.known.over < result.known.over }
    ensures idle { IsIdle lock.now seat.known.number result }
{
    let tape = lock.take(rt, &mut seat);
    thread::sleep(rt, Duration::from_millis(20));
    lock.give_about(&mut seat, tape, &());
    seat
}

/// A lock and three seats of it.
struct Opened {
    lock: TurnLock<Tape>,
    first: Seat<Tape>,
    one: Seat<Tape>,
    two: Seat<Tape>,
}

/// A lock with this tape in it, and its first seat.
fn open(alloc: Global, tape: Tape) -> Option<(TurnLock<Tape>, Seat<Tape>)>
    ensures { IfSome result (λ o. o.1
        ≡ record { lock = o.0; known = first_seat tape.marks.items }) }
{
    TurnLock::new(alloc, tape).ok()
}

/// A lock with two seats beside the first.
fn open_two(alloc: Global, tape: Tape) -> Option<Opened>
    ensures one { IfSome result (λ o. o.one
        ≡ record { lock = o.lock; known = newcomer (first_seat tape.marks.items) }) }
    ensures two { IfSome result (λ o. o.two ≡ record {
      lock = o.lock;
      known = newcomer (after_split (first_seat tape.marks.items));
    }) }
    ensures first { IfSome result (λ o. o.first ≡ record {
      lock = o.lock;
      known = after_split (after_split (first_seat tape.marks.items));
    }) }
{
    let (lock, mut first) = open(alloc, tape)?;
    let Ok(one) = lock.split(&mut first) else {
        return None;
    };
    let Ok(two) = lock.split(&mut first) else {
        return None;
    };
    Some(Opened {
        lock,
        first,
        one,
        two,
    })
}

/// Joins the two seats into the first, which gave no event, and closes the lock.
fn close_two(lock: TurnLock<Tape>, mut first: Seat<Tape>, one: Seat<Tape>, two: Seat<Tape>) -> Tape
    requires idle { IsIdle lock 0 first × IsIdle lock 1 one × IsIdle lock 2 two }
    requires first { (first.known.seats ≡ 3) × (first.known.mine ≡ []) }
    ensures all { (p : ℕ) → first.known.base ≤ p → p < length result.marks.items
        → Contains one.known.mine p ⊎ Contains two.known.mine p }
    ensures apart { (p : ℕ) → Contains one.known.mine p → Contains two.known.mine p → ⊥ }
{
    lock.join(&mut first, one);
    lock.join(&mut first, two);
    lock.close(first)
}

/// Joins the third seat into the second and that into the first, which gave no event, and closes
/// the lock: the second has handed on the third's number.
fn close_chain(
    lock: TurnLock<Tape>,
    mut first: Seat<Tape>,
    mut one: Seat<Tape>,
    two: Seat<Tape>,
) -> Tape
    requires idle { IsIdle lock 0 first × IsIdle lock 1 one × IsIdle lock 2 two }
    requires first { (first.known.seats ≡ 3) × (first.known.mine ≡ []) }
    ensures { (p : ℕ) → first.known.base ≤ p → p < length result.marks.items
        → Contains one.known.mine p ⊎ Contains two.known.mine p }
{
    lock.join(&mut one, two);
    lock.join(&mut first, one);
    lock.close(first)
}

/// Whether there is a mark, and the first is by this number.
fn starts_by(tape: &Tape, by: u64) -> bool
    ensures { IsTrue result → (mark : Mark)
        × (slice_get tape.now.marks.items 0 ≡ Some mark) × (mark.by ≡ by) }
{
    match tape.marks.first() {
        Some(mark) => mark.by == by,
        None => false,
    }
}

/// Whether the first mark since the lock was made is the seat's, as it finds in a turn without an
/// event. If so, the place of that mark is one of its own.
fn owns_first<R: Wait>(rt: &R, lock: &TurnLock<Tape>, seat: &mut Seat<Tape>, by: u64) -> bool
    requires idle { IsIdle lock.now by seat.old }
    requires new { seat.old.known.base ≡ 0 }
    ensures own { IsTrue result → Contains seat.new.known.mine 0 }
    ensures idle { IsIdle lock.now by seat.new }
{
    let tape = lock.take(rt, seat);
    let own = starts_by(&tape, by);
    lock.give_about(seat, tape, &());
    own
}

/// Two threads with a seat each add three marks. Each has three ascending places of its own, and
/// together they have all.
fn add_by_two<R: Threads + Wait + Sync>(rt: &R, alloc: Global) -> Option<Tape>
    ensures { IfSome result (λ tape. (one two : List ℕ) × AreThree one × AreThree two
        × ((p : ℕ) → p < length tape.marks.items → Contains one p ⊎ Contains two p)
        × ((p : ℕ) → Contains one p → Contains two p → ⊥)) }
{
    let tape = Tape {
        marks: Vec::new(alloc),
    };
    let Opened {
        lock,
        first,
        one,
        two,
    } = open_two(alloc, tape)?;
    let (a, b) = join(
        rt,
        || -> (Seat<Tape>, bool)
            requires { IsIdle lock 1 one × (one.known.mine ≡ []) }
            ensures { IsIdle lock 1 result.0 × (IsTrue result.1 → AreThree result.0.known.mine) }
        { add_three(rt, &lock, one, 1) },
        || -> (Seat<Tape>, bool)
            requires { IsIdle lock 2 two × (two.known.mine ≡ []) }
            ensures { IsIdle lock 2 result.0 × (IsTrue result.1 → AreThree result.0.known.mine) }
        { add_three(rt, &lock, two, 2) },
    );
    let (one, one_ok) = a;
    let (two, two_ok) = b;
    let tape = close_two(lock, first, one, two);
    if one_ok && two_ok { Some(tape) } else { None }
}

/// Two threads take a turn each without an event.
fn idle_by_two<R: Threads + Wait + Clock + Sync>(
    rt: &R,
    alloc: Global,
    tape: Tape,
) -> Option<Tape> {
    let Opened {
        lock,
        first,
        one,
        two,
    } = open_two(alloc, tape)?;
    let (one, two) = join(
        rt,
        || -> Seat<Tape>
            requires { IsIdle lock 1 one }
            ensures { IsIdle lock 1 result }
        { idle_turn(rt, &lock, one) },
        || -> Seat<Tape>
            requires { IsIdle lock 2 two }
            ensures { IsIdle lock 2 result }
        { idle_turn(rt, &lock, two) },
    );
    Some(close_two(lock, first, one, two))
}

/// What one thread of many has.
#[derive(Drop)]
struct Actor {
    seat: Seat<Tape>,
    by: u64,
}

/// Adds as many marks, each in a turn of its own.
fn add_many<R: Wait>(rt: &R, lock: &TurnLock<Tape>, actor: &mut Actor, count: u64)
    requires { IsIdle lock.now actor.old.by actor.old.seat }
{
    let seat = &mut actor.seat;
    for value in 0..count {
        let mark = Mark {
            by: actor.by,
            value,
        };
        let _ = add(rt, lock, seat, mark);
    }
}

/// As many actors, of the numbers from 1 on.
fn actors(
    alloc: Global,
    lock: &TurnLock<Tape>,
    first: &mut Seat<Tape>,
    count: u64,
) -> Option<Vec<Actor>>
    requires idle { IsIdle lock.now 0 first.old }
    requires alone { first.old.known.seats ≡ 1 }
    ensures ready { IfSome result (λ actors.
        All (λ actor. IsIdle lock.now actor.by actor.seat) actors.items) }
    ensures idle { IsIdle lock.now 0 first.new }
{
    let mut actors = Vec::new(alloc);
    for by in 1..=count {
        let Ok(seat) = lock.split(first) else {
            return None;
        };
        if actors.push(Actor { seat, by }).is_err() {
            return None;
        }
    }
    Some(actors)
}

/// Twenty threads, each with a seat of its own, add a thousand marks each.
fn add_by_twenty<R: Threads + Wait + Sync>(rt: &R, alloc: Global) -> Option<Tape> {
    let tape = Tape {
        marks: Vec::new(alloc),
    };
    let (lock, mut first) = open(alloc, tape)?;
    let mut actors = actors(alloc, &lock, &mut first, 20)?;
    for_each_mut(
        rt,
        actors.as_mut_slice(),
        20,
        &|_, actor: &mut Actor|
            requires { IsIdle lock actor.now.by actor.now.seat }
        { add_many(rt, &lock, actor, 1000) },
    );
    Some(lock.take(rt, &mut first))
}

/// The values that this number wrote, in the order of the tape.
fn values_by(alloc: Global, tape: &Tape, by: u64) -> Result<Vec<u64>, AllocError> {
    let mut values = Vec::new(alloc);
    for mark in &tape.marks {
        if mark.by == by {
            values.push(mark.value)?;
        }
    }
    Ok(values)
}

#[test]
fn two_threads_add_three_marks_each(rt: HostRuntime) -> Result<(), Fail> {
    let Some(tape) = add_by_two(&rt, rt.alloc()) else {
        return Err(Fail::from("no memory"));
    };
    let one = values_by(rt.alloc(), &tape, 1)?;
    let two = values_by(rt.alloc(), &tape, 2)?;
    assert!(rt; tape.marks.len() == 6);
    assert!(rt; one.as_slice() == [0, 1, 2].as_slice());
    assert!(rt; two.as_slice() == [0, 1, 2].as_slice());
    Ok(())
}

#[test]
fn turns_without_an_event_leave_the_tape(rt: HostRuntime) -> Result<(), Fail> {
    let marks = vec![in rt.alloc(); Mark { by: 1, value: 7 }, Mark { by: 2, value: 8 }]?;
    let Some(tape) = idle_by_two(&rt, rt.alloc(), Tape { marks }) else {
        return Err(Fail::from("no memory"));
    };
    let one = values_by(rt.alloc(), &tape, 1)?;
    let two = values_by(rt.alloc(), &tape, 2)?;
    assert!(rt; tape.marks.len() == 2);
    assert!(rt; one.as_slice() == [7].as_slice());
    assert!(rt; two.as_slice() == [8].as_slice());
    Ok(())
}

#[test]
fn twenty_threads_add_a_thousand_marks_each(rt: HostRuntime) -> Result<(), Fail> {
    let Some(tape) = add_by_twenty(&rt, rt.alloc()) else {
        return Err(Fail::from("no memory"));
    };
    let mut in_order = true;
    for by in 1..=20 {
        let values = values_by(rt.alloc(), &tape, by)?;
        in_order = in_order && values.len() == 1000;
        for (place, value) in values.iter().enumerate() {
            in_order = in_order && *value == place as u64;
        }
    }
    assert!(rt; in_order);
    assert!(rt; tape.marks.len() == 20_000);
    Ok(())
}

/// A seat adds a mark to an empty tape and finds it in a later turn. Then all seats are joined, one
/// behind the other.
fn add_and_find<R: Wait>(rt: &R, alloc: Global) -> Option<(Tape, bool)> {
    let tape = Tape {
        marks: Vec::new(alloc),
    };
    let Opened {
        lock,
        first,
        mut one,
        mut two,
    } = open_two(alloc, tape)?;
    add(rt, &lock, &mut one, Mark { by: 1, value: 5 }).ok()?;
    let found = owns_first(rt, &lock, &mut one, 1);
    let other = owns_first(rt, &lock, &mut two, 2);
    let tape = close_chain(lock, first, one, two);
    Some((tape, found && !other))
}

#[test]
fn the_first_mark_is_its_seats(rt: HostRuntime) -> Result<(), Fail> {
    let Some((tape, found)) = add_and_find(&rt, rt.alloc()) else {
        return Err(Fail::from("no memory"));
    };
    let one = values_by(rt.alloc(), &tape, 1)?;
    assert!(rt; found);
    assert!(rt; tape.marks.len() == 1);
    assert!(rt; one.as_slice() == [5].as_slice());
    Ok(())
}
