//! Whether a block is what its table tells of it.

ghost use Rattle.std.specs.Prelude.{◌≡◌, ◌↔◌, ◌<◌, ◌≤◌, ℕ, suc, List, [], true, IsTrue, IfSome, IfNone, Some, length, slice_get};
ghost use Rattle.peb_base.specs.Entries.{comes_before};
ghost use Rattle.peb_base.specs.Keys.{Bytes};
ghost use Rattle.peb_base.specs.Tables.{first_key, last_key, least_number, greatest_number};
ghost use Rattle.peb_base.specs.declared.entry.Entry.{Entry};
ghost use Rattle.block_form.specs.Ends.{TellsEnds};
ghost use Rattle.block_form.specs.Form.{block_bytes, IsBlock};
ghost use Rattle.table_file.specs.Form.{last_number};
ghost use Rattle.table_file.specs.declared.index_item.IndexItem.{IndexItem};
ghost use Rattle.table_cursor.specs.Agreeing.{key_before, number_before, first_number, Agrees};

use block_form::{Block, Ends, one_block};
use disk_model::TableHandle;
use peb_base::{KeyBuf, Number, TableRow, is_before};
use table_file::Table;

/// Whether the entries of which this is told end with this key and number.
fn ends_with(here: &[u8], ends: &Ends, key: &[u8], number: Number) -> bool
    ensures { (es : List Entry) → TellsEnds es here.now ends.now → 0 < length es
        → (IsTrue result ↔ (last_key es ≡ key.now) × (last_number es ≡ number)) }
{
    here == key && ends.last == number.packed()
}

/// Whether the numbers of the entries of which this is told lie within the row's.
fn numbers_fit(ends: &Ends, row: &TableRow) -> bool
    ensures { (es : List Entry) (key : Bytes) → TellsEnds es key ends.now → 0 < length es
        → (IsTrue result ↔ (row.now.first ≤ least_number es)
        × (greatest_number es ≤ row.now.last)) }
{
    row.first.packed() <= ends.least && ends.greatest <= row.last.packed()
}

/// Whether an entry of this key and number comes after the last one of the block
/// before, if it is in the block at an index.
fn follows<F: TableHandle>(table: &Table<F>, index: usize, key: &[u8], number: u64) -> bool
    requires { index < length table.now.items }
    ensures { result ≡ comes_before (key_before [] index table.now.items)
        (number_before 0 index table.now.items) key.now number }
{
    if index == 0 {
        return is_before(&[], 0, key, number);
    }
    let (_, _, last, above) = table.item(index - 1);
    is_before(last, above.packed(), key, number)
}

/// Whether this key is the table's smallest, if the block at this index is the first.
fn opens_table<F: TableHandle>(table: &Table<F>, index: usize, key: &[u8]) -> bool
    ensures { IsTrue result ↔ (index ≡ 0 → key.now ≡ table.now.row.smallest) }
{
    if index != 0 {
        return true;
    }
    key == table.row().smallest.bytes()
}

/// Whether this key is the table's largest, if the block at this index is the last.
fn closes_table<F: TableHandle>(table: &Table<F>, index: usize, key: &[u8]) -> bool
    requires { index < length table.now.items }
    ensures { IsTrue result ↔
        (suc index ≡ length table.now.items → key.now ≡ table.now.row.largest) }
{
    let blocks = table.blocks();
    if index + 1 != blocks {
        return true;
    }
    key == table.row().largest.bytes()
}

/// Whether the block's first entry is what the table tells of the one of the block at this index.
fn begins_well<F: TableHandle>(
    table: &Table<F>,
    index: usize,
    block: &Block<'_>,
    room: &mut KeyBuf,
) -> bool
    requires some { 0 < length block.now }
    requires inside { index < length table.now.items }
    ensures { IsTrue result ↔
        (comes_before (key_before [] index table.now.items) (number_before 0 index table.now.items)
        (first_key block.now) (first_number block.now) ≡ true)
        × (index ≡ 0 → first_key block.now ≡ table.now.row.smallest) }
{
    let first = block.entry_at(0, room);
    follows(table, index, first.key, first.number) && opens_table(table, index, first.key)
}

/// Whether the block, which is as long as the index says and of which this is told, is
/// what the table tells of the one at this index.
fn agrees<F: TableHandle>(
    table: &Table<F>,
    index: usize,
    block: &Block<'_>,
    ends: &Ends,
    room: &mut KeyBuf,
) -> bool
    requires some { 0 < length block.now }
    requires inside { index < length table.now.items }
    requires long { (item : IndexItem) → slice_get table.now.items index ≡ Some item
        → item.len ≡ length (block_bytes block.now) }
    requires ends { TellsEnds block.now room.old ends.now }
    ensures yes { IsTrue result → (item : IndexItem) → slice_get table.now.items index ≡ Some item
        → Agrees table.now.row table.now.items index item.place block.now }
    ensures no { (at : ℕ) → Agrees table.now.row table.now.items index at block.now
        → IsTrue result }
{
    let (_, _, key, number) = table.item(index);
    if !ends_with(room.bytes(), ends, key, number) {
        return false;
    }
    if !closes_table(table, index, key) {
        return false;
    }
    if !numbers_fit(ends, table.row()) {
        return false;
    }
    begins_well(table, index, block, room)
}

/// How many entries the block of these bytes has, if they are the block at this
/// index of the table. It needs room for a key.
pub fn count_at<F: TableHandle>(
    table: &Table<F>,
    index: usize,
    bytes: &[u8],
    room: &mut KeyBuf,
) -> Option<usize>
    requires { index < length table.now.items }
    ensures some { IfSome result
        (λ count. (es : List Entry) × IsBlock es bytes.now × (length es ≡ count)
        × ((item : IndexItem) → slice_get table.now.items index ≡ Some item
        → Agrees table.now.row table.now.items index item.place es)) }
    ensures none { IfNone result
        ((at : ℕ) (es : List Entry) → IsBlock es bytes.now
        → Agrees table.now.row table.now.items index at es → ⊥) }
{
    one_block();
    let Ok(read) = Block::read_ends(bytes, room) else {
        return None;
    };
    let (block, ends) = read;
    let (_, len, _, _) = table.item(index);
    if bytes.len() != len as usize {
        return None;
    }
    if !agrees(table, index, &block, &ends, room) {
        return None;
    }
    Some(block.len())
}
