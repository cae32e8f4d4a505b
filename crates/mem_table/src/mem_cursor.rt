//! Cursors over a memtable.

ghost use Rattle.std.specs.Prelude.{◌≡◌, [], None};
ghost use Rattle.std.specs.Option.{ForSome};
ghost use Rattle.mem_table.specs.Chunked.{joined};
ghost use Rattle.mem_table.specs.Spots.{IsSpot};
ghost use Rattle.peb_base.specs.Entries.{AreSorted};
ghost use Rattle.peb_base.specs.SortedParts.{AscendFrom-prop};

use crate::entries::Entries;
use crate::spot::Spot;
use peb_base::{Cursor, EntryRef, Number, ReadFault};

/// A place among the entries of a view, or none. Every move answers Ok.
#[derive(Drop)]
pub struct MemCursor {
    entries: Entries,
    spot: Option<Spot>,
    ghost inside: { ForSome spot (IsSpot entries) },
    ghost sorted: { AreSorted (joined entries) } by { AscendFrom-prop [] 0 (joined entries) },
}

impl MemCursor {
    ghost use Rattle.mem_table.specs.Seen.{StandsIn};

    /// A cursor over these entries, at no place.
    pub(crate) fn of(entries: Entries) -> MemCursor
        requires { AreSorted (joined entries) }
        ensures { StandsIn result (joined entries) None }
    {
        MemCursor {
            entries,
            spot: None,
        }
    }
}

impl Cursor for MemCursor {
    ghost use Rattle.std.specs.Prelude.{None};
    ghost use Rattle.mem_table.specs.Seen.{StandsIn, WalksIn, Keeps, shown_by, ahead_of, back_of, entries_in};
    ghost use Rattle.mem_table.specs.SeenLaws.{stands_among, shows_entry, walk_ascends, steps_bounded, keeps_self, keeps_on, same_size};
    ghost use Rattle.std.specs.Prelude.{length};

    ghost stands = { λ cursor es place. StandsIn cursor es place };

    ghost shows = { λ cursor. shown_by cursor };

    ghost walks = { λ cursor es. WalksIn cursor es };

    ghost ahead = { λ cursor. ahead_of cursor };

    ghost back = { λ cursor. back_of cursor };

    ghost size = { λ cursor. length (entries_in cursor) };

    ghost keeps = { λ a b. Keeps a b };

    ghost damaged = { λ cursor table at. ⊥ };

    ghost faults = { λ cursor. 0 };

    ghost refused = { λ cursor. None };

    ghost among = { λ cursor es place stands. stands_among cursor es place stands };

    ghost within = { λ cursor e there. shows_entry cursor e there };

    ghost ascends = { λ cursor es e walks there. walk_ascends cursor es e walks there };

    ghost bounded = { λ cursor. steps_bounded cursor };

    ghost kept = { λ cursor. keeps_self cursor };

    ghost kept_on = { λ a b c x y. keeps_on a b c x y };

    ghost kept_damage = { λ a b table at x. ((λ h. h), (λ h. h)) };

    ghost kept_size = { λ a b x. same_size a b x };

    fn seek(&mut self, key: &[u8], number: Number) -> Result<(), ReadFault> {
        self.spot = self.entries.spot_from(key, number);
        Ok(())
    }

    fn first(&mut self) -> Result<(), ReadFault> {
        self.spot = self.entries.first();
        Ok(())
    }

    fn last(&mut self) -> Result<(), ReadFault> {
        self.spot = self.entries.last();
        Ok(())
    }

    fn next(&mut self) -> Result<(), ReadFault> {
        let Some(spot) = self.spot else {
            return Ok(());
        };
        self.spot = self.entries.next(spot);
        Ok(())
    }

    fn prev(&mut self) -> Result<(), ReadFault> {
        let Some(spot) = self.spot else {
            return Ok(());
        };
        self.spot = self.entries.previous(spot);
        Ok(())
    }

    fn at(&self) -> Option<EntryRef<'_>> {
        let Some(spot) = self.spot else {
            return None;
        };
        self.entries.entry(spot)
    }

    fn fault(&self) -> Option<ReadFault> {
        None
    }
}
