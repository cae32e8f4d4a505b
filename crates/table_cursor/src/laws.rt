//! Laws of walks over tables. Each function runs nothing but a count of blocks; its contract is the
//! law.

ghost use Rattle.std.specs.Prelude.{◌≡◌, ◌++◌, ◌∷◌, [], ℕ, List, Option, IsTrue, Some, None};
ghost use Rattle.peb_base.specs.Entries.{AreSorted};
ghost use Rattle.peb_base.specs.declared.entry.Entry.{Entry};
ghost use Rattle.table_cursor.specs.Walking.{CanBeRead, SpansRow, in_front};
ghost use Rattle.table_cursor.specs.Views.{table_of, shown_by, StandsIn, WalksIn, DamageAt};

use crate::table_cursor::TableCursor;
use block_form::one_block;
use disk_model::Port;
use table_file::law_blocks;

/// What a cursor went over ascends strictly with the entry that it shows, within a
/// block and from block to block, over any device.
pub fn law_walk_ascends<P: Port>(cursor: &TableCursor<P>)
    ensures { (es : List Entry) (e : Entry) → WalksIn cursor.now es → shown_by cursor.now ≡ Some e
        → AreSorted (es ++ e ∷ []) }
{}

/// A walk that shows nothing more began with the row's smallest key and ended with its largest, and
/// its numbers lie within the row's, over any device.
pub fn law_walk_ends<P: Port>(cursor: &TableCursor<P>)
    ensures { (es : List Entry) → WalksIn cursor.now es → shown_by cursor.now ≡ None
        → SpansRow (table_of cursor.now).row es }
{
    cursor.blocks();
}

/// Over a table that holds entries, a walk is their first ones up to the place at which
/// the cursor stands, and at no place all of them.
pub fn law_walk_told<P: Port>(cursor: &TableCursor<P>)
    ensures { (es walked : List Entry) (place : Option ℕ) → StandsIn cursor.now es place
        → WalksIn cursor.now walked → walked ≡ in_front place es }
{
    law_blocks();
    one_block();
}

/// Where damage is told, nothing can be read as that block of the table, over a device that tells
/// its bytes.
pub fn law_damage<P: Port>(cursor: &TableCursor<P>)
    ensures { (index number at : ℕ) (block : List Entry) → IsTrue P.File.tells
        → DamageAt cursor.now index number at
        → CanBeRead P.File.TableHandle (table_of cursor.now) index block → ⊥ }
{}
