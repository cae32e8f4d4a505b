//! Walking the entries of a block that isn't known yet.

ghost use Rattle.std.specs.Prelude.{◌≡◌, ◌≢◌, ◌<◌, ◌^◌, ◌++◌, [], List, ℕ, length, IfSome, IfNone};
ghost use Rattle.peb_base.specs.declared.entry.Entry.{Entry};
ghost use Rattle.block_form.specs.Ends.{TellsEnds};
ghost use Rattle.block_form.specs.Walks.{places_at, Spells};

use crate::ends::Ends;
use crate::front::entry_front;
use byteorder::{BigEndian, ByteOrder};
use peb_base::KeyBuf;

/// The places behind that of the entry, if it is a restart and the first of these is its place.
fn places_behind(place: usize, at: u32, places: &[u8]) -> Option<&[u8]>
    ensures found { IfSome result (λ left. places.now ≡ places_at place at ++ left.now) }
    ensures none { IfNone result ((left : List ℕ) → places.now ≢ places_at place at ++ left) }
{
    if place % 16 != 0 {
        return Some(places);
    }
    if places.len() < 4 {
        return None;
    }
    if BigEndian::read_u32(places) != at {
        return None;
    }
    Some(&places[4..])
}

/// What the entries tell that these bytes and these places are; the key of the last of them is left in `key`.
pub fn ends_of(entries: &[u8], places: &[u8], key: &mut KeyBuf) -> Option<Ends>
    requires { length entries.now < 2 ^ 31 }
    ensures found { IfSome result
        (λ ends. (es : List Entry) × Spells 0 1 [] 0 es entries.now places.now
        × TellsEnds es key.new ends) }
    ensures none { IfNone result
        ((es : List Entry) → Spells 0 1 [] 0 es entries.now places.now → ⊥) }
{
    key.put(0, &[]);
    let mut ends = Ends {
        count: 0,
        least: u64::MAX,
        greatest: 0,
        last: 0,
    };
    let mut at: u32 = 1;
    let mut rest = entries;
    let mut left = places;
    'walk: while !rest.is_empty() {
        let Some(found) = entry_front(ends.count, key.bytes(), ends.last, rest) else {
            return None;
        };
        let (fields, behind) = found;
        let Some(later) = places_behind(ends.count, at, left) else {
            return None;
        };
        key.put(fields.shared, fields.rest);
        at += (rest.len() - behind.len()) as u32;
        rest = behind;
        left = later;
        ends = Ends {
            count: ends.count + 1,
            least: ends.least.min(fields.number),
            greatest: ends.greatest.max(fields.number),
            last: fields.number,
        };
    }
    if !left.is_empty() {
        return None;
    }
    Some(ends)
}
