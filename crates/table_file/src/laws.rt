//! Laws of tables.

ghost use Rattle.std.specs.Prelude.{◌≡◌, ◌<◌, ◌≤◌, ◌^◌, Bool, List, ℕ, length};
ghost use Rattle.std.specs.List.{flat_map};
ghost use Rattle.peb_base.specs.declared.table_row.TableRow.{TableRow};
ghost use Rattle.peb_base.specs.Entries.{AreSorted};
ghost use Rattle.peb_base.specs.Profiles.{Column};
ghost use Rattle.peb_base.specs.Tables as reckoned;
ghost use Rattle.peb_base.specs.declared.entry.Entry.{Entry};
ghost use Rattle.table_file.specs.Blocks.{AreBlocks};
ghost use Rattle.table_file.specs.Cutting.{BlocksAreCut, OneCut};
ghost use Rattle.table_file.specs.Damages.{IsPlaceOfDamage};
ghost use Rattle.table_file.specs.Examples.{LimitsStand, RefusalsStand, CountsStand, DamagesStand};
ghost use Rattle.table_file.specs.Form.{blocks_of, items_from, index_bytes, key_filter, table_bytes};
ghost use Rattle.table_file.specs.Opening.{OpensAs};
ghost use Rattle.table_file.specs.Holding.{WrittenHolds, OpenedHolds, KeysAreHeld};
ghost use Rattle.table_file.specs.declared.index_item.IndexItem.{IndexItem};

use block_form::block_grows;
use bloom::law_filter;
use disk_model::TableHandle;

/// Bytes are a table of a row with one index and one filter at most.
pub fn one_opening()
    ensures { (row : TableRow) (a b : List IndexItem) (f g bytes : List ℕ) → row.bytes < 2 ^ 64
        → OpensAs row a f bytes → OpensAs row b g bytes → (a ≡ b) × (f ≡ g) }
{}

/// What the words for limits, counts of bytes and damage rule out.
pub fn law_told()
    ensures limits { LimitsStand }
    ensures refusals { RefusalsStand }
    ensures counts { CountsStand }
    ensures damages { DamagesStand }
{}

/// Bytes are damaged at one place at most, by a row.
pub fn one_place()
    ensures { (row : TableRow) (bytes : List ℕ) (a b : ℕ) → IsPlaceOfDamage row bytes a
        → IsPlaceOfDamage row bytes b → a ≡ b }
{}

/// The bytes of a table's entries, in a profile whose blocks are full at most at 4096 bytes, open by the
/// table's row as the table that was written: with its index and its filter.
pub fn written_opens()
    ensures { (row : TableRow) (full number : ℕ) (es : List Entry) → 5 < full → full ≤ 4096
        → AreSorted es → 0 < length es → length es ≤ 1717986918
        → length (index_bytes (items_from 0 (blocks_of full es))) ≤ 2147483648 → row.number ≡ number
        → row.entries ≡ length es → row.bytes ≡ length (table_bytes full number es)
        → OpensAs row (items_from 0 (blocks_of full es)) (key_filter es)
        (table_bytes full number es) }
{
    block_grows();
    law_filter();
}

/// The bytes of a table's entries open by the table's row with no other index
/// and no other filter than the written ones.
pub fn opens_as_written()
    ensures { (row : TableRow) (full : ℕ) (es : List Entry) (items : List IndexItem)
        (filter : List ℕ) → 5 < full → full ≤ 4096 → AreSorted es → 0 < length es
        → row.entries ≡ length es → row.bytes < 2 ^ 64
        → row.bytes ≡ length (table_bytes full row.number es)
        → OpensAs row items filter (table_bytes full row.number es)
        → (items ≡ items_from 0 (blocks_of full es)) × (filter ≡ key_filter es) }
{
    block_grows();
    law_filter();
}

/// The blocks of sorted entries, in a profile whose blocks are full at most at 4096 bytes, have the entries
/// one after another, and the spelling of each is a block.
pub fn law_blocks()
    ensures joined { (full : ℕ) (es : List Entry) → 5 < full → full ≤ 4096 → AreSorted es
        → flat_map (λ block. block) (blocks_of full es) ≡ es }
    ensures blocks { (full : ℕ) (es : List Entry) → 5 < full → full ≤ 4096 → AreSorted es
        → AreBlocks (blocks_of full es) }
{
    block_grows();
}

/// A table's entries are cut into blocks in one way: one after another the blocks have the entries, none
/// was full before its last entry, and each but the last is full.
pub fn law_cut()
    ensures cut { BlocksAreCut }
    ensures only { OneCut }
{}

/// The bytes of a table are as many as are reckoned from its entries and its profile's column alone.
pub fn law_length()
    ensures { (o : Column) (number : ℕ) (es : List Entry)
        → length (table_bytes o.block_bytes number es) ≡ reckoned.table_length o es }
{
    law_filter();
}

/// A table that was written holds the entries that were pushed, and so does
/// one that is opened over their bytes.
pub fn law_holds<F: TableHandle>()
    ensures written { WrittenHolds F.TableHandle }
    ensures opened { OpenedHolds F.TableHandle }
{
    block_grows();
    law_filter();
}

/// No key of the entries that a table holds is denied by its filter.
pub fn law_held<F: TableHandle>()
    ensures { KeysAreHeld F.TableHandle }
{
    law_filter();
}
