//! Cursors that are merged, and what numbers see.

ghost use Rattle.std.specs.Prelude.{◌≡◌, None, IfOk};

use crate::trial_cursor::TrialCursor;
use crate::{Merge, Visible};
use peb_base::{Change, ChangeRef, Cursor, Entry, Key, Number, ReadFault, Value};
use std::alloc::Global;
use std::collections::BTreeMap;
use std::test::Fail;

/// Puts of `v` to two-byte keys, each numbered 1.1.
fn puts(alloc: Global, keys: &[u16]) -> Result<TrialCursor, Fail> {
    let mut entries = Vec::new(alloc);
    for key in keys {
        entries.push(Entry {
            key: Key::new(alloc, &key.to_be_bytes())?,
            number: Number::new(1, 1),
            change: Change::Put(Value::new(alloc, b"v")?),
        })?;
    }
    Ok(TrialCursor::new(entries))
}

/// The number that two bytes of a key spell.
fn spelled(key: &[u8]) -> Option<u16> {
    match key {
        [high, low] => Some(*high as u16 * 256 + *low as u16),
        _ => None,
    }
}

/// The key at which the merge stands, and the place of its input.
fn stands(merge: &Merge<TrialCursor>) -> Option<(u16, usize)> {
    let entry = merge.at()?;
    Some((spelled(entry.key)?, merge.source()?))
}

/// Two cursors as one.
fn both(alloc: Global, a: TrialCursor, b: TrialCursor) -> Result<Merge<TrialCursor>, Fail>
    ensures { IfOk result (λ merge. ⟦<Merge<TrialCursor> as Cursor>⟧.shows merge ≡ None) }
{
    let mut inputs = Vec::new(alloc);
    inputs.push(a)?;
    inputs.push(b)?;
    Ok(Merge::new(inputs))
}

#[test]
fn odd_and_even_keys_are_walked_in_order_both_ways(rt: HostRuntime) -> Result<(), Fail> {
    let alloc = rt.alloc();
    let mut odd = Vec::new(alloc);
    let mut even = Vec::new(alloc);
    for number in 0..500 {
        even.push(2 * number)?;
        odd.push(2 * number + 1)?;
    }
    let mut merge = both(alloc, puts(alloc, &odd)?, puts(alloc, &even)?)?;
    merge.first()?;
    for number in 0u16..1000 {
        assert_eq!(rt; stands(&merge), Some((number, (1 - number % 2) as usize)));
        merge.next()?;
    }
    assert_eq!(rt; stands(&merge), None);
    merge.last()?;
    for back in 0u16..1000 {
        let number = 999 - back;
        assert_eq!(rt; stands(&merge), Some((number, (1 - number % 2) as usize)));
        merge.prev()?;
    }
    assert_eq!(rt; stands(&merge), None);
    Ok(())
}

#[test]
fn a_walk_turns_in_the_middle_and_at_both_ends(rt: HostRuntime) -> Result<(), Fail> {
    let alloc = rt.alloc();
    let mut merge = both(alloc, puts(alloc, &[1, 3, 5])?, puts(alloc, &[0, 2, 4])?)?;
    assert_eq!(rt; stands(&merge), None);
    merge.next()?;
    assert_eq!(rt; stands(&merge), None);
    merge.seek(&[0, 2], Number::new(1, 1))?;
    assert_eq!(rt; stands(&merge), Some((2, 1)));
    merge.prev()?;
    assert_eq!(rt; stands(&merge), Some((1, 0)));
    merge.prev()?;
    assert_eq!(rt; stands(&merge), Some((0, 1)));
    merge.next()?;
    assert_eq!(rt; stands(&merge), Some((1, 0)));
    merge.next()?;
    assert_eq!(rt; stands(&merge), Some((2, 1)));
    merge.last()?;
    assert_eq!(rt; stands(&merge), Some((5, 0)));
    merge.prev()?;
    merge.next()?;
    assert_eq!(rt; stands(&merge), Some((5, 0)));
    merge.next()?;
    assert_eq!(rt; stands(&merge), None);
    merge.first()?;
    merge.prev()?;
    assert_eq!(rt; stands(&merge), None);
    Ok(())
}

#[test]
fn an_entry_of_two_inputs_is_given_twice_in_their_order(rt: HostRuntime) -> Result<(), Fail> {
    let alloc = rt.alloc();
    let mut merge = both(alloc, puts(alloc, &[2, 7])?, puts(alloc, &[7, 9])?)?;
    merge.first()?;
    merge.next()?;
    assert_eq!(rt; stands(&merge), Some((7, 0)));
    merge.next()?;
    assert_eq!(rt; stands(&merge), Some((7, 1)));
    merge.next()?;
    assert_eq!(rt; stands(&merge), Some((9, 1)));
    merge.last()?;
    merge.prev()?;
    assert_eq!(rt; stands(&merge), Some((7, 1)));
    merge.prev()?;
    assert_eq!(rt; stands(&merge), Some((7, 0)));
    Ok(())
}

#[test]
fn a_refusal_of_an_input_is_told_and_leaves_no_place(rt: HostRuntime) -> Result<(), Fail> {
    let alloc = rt.alloc();
    let damaged = ReadFault::Damaged { table: 7, at: 4096 };
    for fault in [ReadFault::Fault, damaged] {
        let mut failing = puts(alloc, &[1, 3, 5])?;
        failing.refuse_after(2, fault);
        let mut merge = both(alloc, puts(alloc, &[0, 2, 4])?, failing)?;
        merge.first()?;
        merge.next()?;
        merge.next()?;
        assert_eq!(rt; stands(&merge), Some((2, 0)));
        merge.next()?;
        assert_eq!(rt; merge.next(), Err(fault));
        assert_eq!(rt; merge.fault(), Some(fault));
        assert_eq!(rt; stands(&merge), None);
        assert_eq!(rt; merge.next(), Ok(()));
        assert_eq!(rt; merge.fault(), None);
        assert_eq!(rt; stands(&merge), None);
        merge.first()?;
        assert_eq!(rt; stands(&merge), Some((0, 0)));
    }
    Ok(())
}

const DAMAGED: ReadFault = ReadFault::Damaged { table: 7, at: 4096 };

/// Puts to even keys, and to odd ones by a cursor that finds damage after so many moves, as one.
fn with_damage(alloc: Global, moves: u64) -> Result<Merge<TrialCursor>, Fail>
    ensures { IfOk result (λ merge. ⟦<Merge<TrialCursor> as Cursor>⟧.shows merge ≡ None) }
{
    let even = puts(alloc, &[0, 2, 4, 8])?;
    let mut odd = puts(alloc, &[1, 3, 5])?;
    odd.refuse_after(moves, DAMAGED);
    both(alloc, even, odd)
}

#[test]
fn damage_of_an_input_is_told_by_every_move(rt: HostRuntime) -> Result<(), Fail> {
    let alloc = rt.alloc();
    let number = Number::new(1, 1);
    let mut merge = with_damage(alloc, 0)?;
    assert_eq!(rt; merge.seek(&[0, 2], number), Err(DAMAGED));
    assert_eq!(rt; merge.fault(), Some(DAMAGED));
    assert_eq!(rt; stands(&merge), None);
    let mut merge = with_damage(alloc, 0)?;
    assert_eq!(rt; merge.first(), Err(DAMAGED));
    assert_eq!(rt; stands(&merge), None);
    let mut merge = with_damage(alloc, 0)?;
    assert_eq!(rt; merge.last(), Err(DAMAGED));
    assert_eq!(rt; stands(&merge), None);
    Ok(())
}

#[test]
fn damage_of_an_input_is_told_where_a_walk_turns(rt: HostRuntime) -> Result<(), Fail> {
    let alloc = rt.alloc();
    let number = Number::new(1, 1);
    let mut merge = with_damage(alloc, 1)?;
    merge.seek(&[0, 2], number)?;
    assert_eq!(rt; merge.prev(), Err(DAMAGED));
    assert_eq!(rt; merge.fault(), Some(DAMAGED));
    assert_eq!(rt; stands(&merge), None);
    // from no place to its last entry
    let mut merge = with_damage(alloc, 1)?;
    merge.seek(&[0, 6], number)?;
    assert_eq!(rt; stands(&merge), Some((8, 0)));
    assert_eq!(rt; merge.prev(), Err(DAMAGED));
    assert_eq!(rt; stands(&merge), None);
    // from no place to its first entry
    let mut merge = with_damage(alloc, 4)?;
    merge.last()?;
    for _ in 0..6 {
        merge.prev()?;
    }
    assert_eq!(rt; stands(&merge), Some((0, 0)));
    assert_eq!(rt; merge.next(), Err(DAMAGED));
    assert_eq!(rt; stands(&merge), None);
    Ok(())
}

#[test]
fn damage_of_an_input_is_told_by_a_view(rt: HostRuntime) -> Result<(), Fail> {
    let alloc = rt.alloc();
    let number = Number::new(1, 1);
    let mut view = Visible::new(with_damage(alloc, 0)?, number);
    assert_eq!(rt; view.seek(&[0, 2]), Err(DAMAGED));
    assert_eq!(rt; view.at().is_none(), true);
    let mut view = Visible::new(with_damage(alloc, 0)?, number);
    assert_eq!(rt; view.first(), Err(DAMAGED));
    let mut view = Visible::new(with_damage(alloc, 0)?, number);
    assert_eq!(rt; view.last(), Err(DAMAGED));
    let mut view = Visible::new(with_damage(alloc, 1)?, number);
    view.first()?;
    view.next()?;
    assert_eq!(rt; view.next(), Err(DAMAGED));
    assert_eq!(rt; view.at().is_none(), true);
    let mut view = Visible::new(with_damage(alloc, 1)?, number);
    view.seek(&[0, 4])?;
    assert_eq!(rt; view.prev(), Err(DAMAGED));
    assert_eq!(rt; view.at().is_none(), true);
    assert_eq!(rt; view.close().fault(), Some(DAMAGED));
    Ok(())
}

#[test]
fn an_input_that_refused_its_seek_is_merged_as_refused(rt: HostRuntime) -> Result<(), Fail> {
    let alloc = rt.alloc();
    let number = Number::new(1, 1);
    let mut even = puts(alloc, &[0, 2, 4])?;
    even.seek(&[0, 2], number)?;
    let mut odd = puts(alloc, &[1, 3, 5])?;
    odd.refuse_after(0, DAMAGED);
    assert_eq!(rt; odd.seek(&[0, 2], number), Err(DAMAGED));
    let mut inputs = Vec::new(alloc);
    inputs.push(even)?;
    inputs.push(odd)?;
    let merge = Merge::at_places(inputs);
    assert_eq!(rt; merge.fault(), Some(DAMAGED));
    assert_eq!(rt; stands(&merge), None);
    let (view, answer) = Visible::resume(merge, &[0, 2], number);
    assert_eq!(rt; answer, Err(DAMAGED));
    assert_eq!(rt; view.at().is_none(), true);
    let mut merge = view.close();
    merge.seek(&[0, 2], number)?;
    assert_eq!(rt; merge.fault(), None);
    assert_eq!(rt; stands(&merge), Some((2, 0)));
    Ok(())
}

#[test]
fn inputs_that_stand_at_places_are_merged_there(rt: HostRuntime) -> Result<(), Fail> {
    let alloc = rt.alloc();
    let mut merge = both(alloc, puts(alloc, &[1, 3, 5])?, puts(alloc, &[0, 2, 4])?)?;
    merge.seek(&[0, 3], Number::new(1, 1))?;
    let mut merge = Merge::at_places(merge.close());
    assert_eq!(rt; stands(&merge), Some((3, 0)));
    merge.next()?;
    assert_eq!(rt; stands(&merge), Some((4, 1)));
    Ok(())
}

/// An operation of the history below: its number's count, its key, and the value that it puts.
type Row = (u64, u8, Option<u8>);

/// Three puts of `b` and a deletion between, among two other keys.
const HISTORY: [Row; 8] = [
    (1, b'b', Some(b'1')),
    (2, b'a', Some(b'2')),
    (3, b'b', Some(b'3')),
    (4, b'b', None),
    (5, b'c', Some(b'5')),
    (6, b'b', Some(b'6')),
    (7, b'a', None),
    (8, b'c', Some(b'8')),
];

/// The entries of the history in entry order, those of odd or of even counts.
fn half(alloc: Global, odd: u64) -> Result<TrialCursor, Fail> {
    let mut entries = Vec::new(alloc);
    for key in b"abc" {
        for back in 0..HISTORY.len() {
            let (count, of, put) = HISTORY[HISTORY.len() - 1 - back];
            if of == *key && count % 2 == odd {
                let change = match put {
                    Some(value) => Change::Put(Value::new(alloc, &[value])?),
                    None => Change::Delete,
                };
                entries.push(Entry {
                    key: Key::new(alloc, &[of])?,
                    number: Number::new(1, count),
                    change,
                })?;
            }
        }
    }
    Ok(TrialCursor::new(entries))
}

/// The rows of the history at a count, by an ordered map.
fn rows(alloc: Global, at: u64) -> Result<Vec<(u8, u8)>, Fail> {
    let mut map = BTreeMap::new(alloc);
    for (count, key, put) in HISTORY {
        if count <= at {
            match put {
                Some(value) => {
                    map.insert(key, value)?;
                }
                None => {
                    map.remove(&key);
                }
            }
        }
    }
    let mut rows = Vec::new(alloc);
    for (key, value) in map.iter() {
        rows.push((*key, *value))?;
    }
    Ok(rows)
}

/// The key and the value at which a view stands, of one byte each.
fn seen(view: &Visible<Merge<TrialCursor>>) -> Option<(u8, u8)> {
    let entry = view.at()?;
    match (entry.key, entry.change) {
        ([key], ChangeRef::Put([value])) => Some((*key, *value)),
        _ => None,
    }
}

#[test]
fn each_number_sees_the_rows_of_its_map_both_ways(rt: HostRuntime) -> Result<(), Fail> {
    let alloc = rt.alloc();
    for at in 0..9 {
        let inner = both(alloc, half(alloc, 1)?, half(alloc, 0)?)?;
        let mut view = Visible::new(inner, Number::new(1, at));
        let rows = rows(alloc, at)?;
        view.first()?;
        for row in rows.iter() {
            assert_eq!(rt; seen(&view), Some(*row));
            view.next()?;
        }
        assert_eq!(rt; seen(&view), None);
        view.last()?;
        for row in rows.iter().rev() {
            assert_eq!(rt; seen(&view), Some(*row));
            view.prev()?;
        }
        assert_eq!(rt; seen(&view), None);
    }
    Ok(())
}

#[test]
fn a_view_turns_and_is_resumed(rt: HostRuntime) -> Result<(), Fail> {
    let alloc = rt.alloc();
    let inner = both(alloc, half(alloc, 1)?, half(alloc, 0)?)?;
    let mut view = Visible::new(inner, Number::new(1, 6));
    view.seek(b"b")?;
    assert_eq!(rt; seen(&view), Some((b'b', b'6')));
    view.prev()?;
    assert_eq!(rt; seen(&view), Some((b'a', b'2')));
    view.next()?;
    let number = Number::new(1, 6);
    let (mut view, answer) = Visible::resume(view.close(), b"b", number);
    assert_eq!(rt; answer, Ok(()));
    assert_eq!(rt; seen(&view), Some((b'b', b'6')));
    view.next()?;
    assert_eq!(rt; seen(&view), Some((b'c', b'5')));
    Ok(())
}

#[test]
fn a_resumed_view_shows_what_its_own_seek_would(rt: HostRuntime) -> Result<(), Fail> {
    let alloc = rt.alloc();
    for at in 0..9 {
        let number = Number::new(1, at);
        let rows = rows(alloc, at)?;
        for key in b"abc" {
            let mut odd = half(alloc, 1)?;
            odd.seek(&[*key], number)?;
            let mut even = half(alloc, 0)?;
            even.seek(&[*key], number)?;
            let mut inputs = Vec::new(alloc);
            inputs.push(odd)?;
            inputs.push(even)?;
            let (mut resumed, answer) = Visible::resume(Merge::at_places(inputs), &[*key], number);
            assert_eq!(rt; answer, Ok(()));
            let mut sought = Visible::new(both(alloc, half(alloc, 1)?, half(alloc, 0)?)?, number);
            sought.seek(&[*key])?;
            for row in rows.iter() {
                if row.0 >= *key {
                    assert_eq!(rt; seen(&resumed), Some(*row));
                    assert_eq!(rt; seen(&sought), Some(*row));
                    resumed.next()?;
                    sought.next()?;
                }
            }
            assert_eq!(rt; seen(&resumed), None);
            assert_eq!(rt; seen(&sought), None);
        }
    }
    Ok(())
}

/// One put of a value under a key of one byte, numbered 1.1, and another behind it.
fn two_puts(alloc: Global, first: (u8, u8), second: (u8, u8)) -> Result<TrialCursor, Fail> {
    let mut entries = Vec::new(alloc);
    for (key, value) in [first, second] {
        entries.push(Entry {
            key: Key::new(alloc, &[key])?,
            number: Number::new(1, 1),
            change: Change::Put(Value::new(alloc, &[value])?),
        })?;
    }
    Ok(TrialCursor::new(entries))
}

#[test]
fn of_an_entry_of_two_inputs_a_view_shows_the_first_alone(rt: HostRuntime) -> Result<(), Fail> {
    let alloc = rt.alloc();
    let one = two_puts(alloc, (b'a', b'1'), (b'b', b'1'))?;
    let other = two_puts(alloc, (b'b', b'2'), (b'c', b'2'))?;
    let rows = [(b'a', b'1'), (b'b', b'1'), (b'c', b'2')];
    let mut view = Visible::new(both(alloc, one, other)?, Number::new(1, 1));
    view.first()?;
    for row in rows {
        assert_eq!(rt; seen(&view), Some(row));
        view.next()?;
    }
    assert_eq!(rt; seen(&view), None);
    view.last()?;
    for row in rows.iter().rev() {
        assert_eq!(rt; seen(&view), Some(*row));
        view.prev()?;
    }
    assert_eq!(rt; seen(&view), None);
    Ok(())
}
