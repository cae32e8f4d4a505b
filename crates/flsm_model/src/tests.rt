//! Which edits a shape takes in, and what a ledger counts.

ghost use Rattle.std.specs.Prelude.{◌≡◌, IfOk};

use crate::{Edit, Ledger, Shape};
use peb_base::{Key, List, Number, Options, Profile, TableRow};
use std::alloc::Global;
use std::test::Fail;

#[test]
fn an_opening_is_taken_in_once(rt: HostRuntime) -> Result<(), Fail> {
    let mut shape = Shape::new(rt.alloc(), &Options::of(Profile::Small))?;
    let open = Edit::Open { session: 1, log: 1 };
    assert!(rt; shape.add(&open)?);
    assert!(rt; !shape.add(&open)?);
    assert_eq!(rt; (shape.session, shape.to, shape.log), (1, 0, 1));
    Ok(())
}

/// The cut of o at a level, without inputs.
fn cut(alloc: Global, level: u8) -> Result<Edit, Fail> {
    let mut keys = Vec::new(alloc);
    keys.push(Key::new(alloc, b"o")?)?;
    Ok(Edit::Cut {
        level,
        keys: List::of(keys),
        inputs: List::of(Vec::new(alloc)),
        outputs: List::of(Vec::new(alloc)),
    })
}

#[test]
fn a_key_is_cut_only_when_it_was_chosen(rt: HostRuntime) -> Result<(), Fail> {
    let mut shape = Shape::new(rt.alloc(), &Options::of(Profile::Small))?;
    let early = cut(rt.alloc(), 1)?;
    assert!(rt; !shape.add(&early)?);
    Ok(())
}

/// The row of a table of level 0 with the put a = 1.
fn row(alloc: Global) -> Result<TableRow, Fail>
    ensures { IfOk result (λ row. row.level ≡ 0) }
{
    Ok(TableRow {
        number: (1 << 40) + 1,
        level: 0,
        tier: 0,
        smallest: Key::new(alloc, b"a")?,
        largest: Key::new(alloc, b"a")?,
        entries: 1,
        raw: 2,
        first: Number::new(1, 1),
        last: Number::new(1, 1),
        bytes: 111,
    })
}

#[test]
fn a_flush_is_counted_at_level_0(rt: HostRuntime) -> Result<(), Fail> {
    let mut ledger = Ledger::new(rt.alloc(), 3)?;
    let row = row(rt.alloc())?;
    let flush = Edit::Flush {
        row,
        from: Number::new(0, 0),
        to: Number::new(1, 1),
        log: 2,
        chosen: List::of(Vec::new(rt.alloc())),
    };
    ledger.add(&flush);
    let count = ledger.level(0);
    assert_eq!(rt; (count.tables, count.entries, count.bytes), (1, 1, 111));
    assert_eq!(rt; (count.cuts, ledger.level(1).tables), (0, 0));
    Ok(())
}

#[test]
fn sums_stop_at_the_end_of_their_type(rt: HostRuntime) -> Result<(), Fail> {
    let mut ledger = Ledger::new(rt.alloc(), 3)?;
    ledger.short(1, 241);
    ledger.short(1, u64::MAX);
    let count = ledger.level(1);
    assert_eq!(rt; (count.short, count.lost), (2, u64::MAX));
    assert_eq!(rt; ledger.level(4), Ledger::empty(rt.alloc()).level(1));
    Ok(())
}
