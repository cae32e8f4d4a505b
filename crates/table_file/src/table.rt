//! Sorted tables.

ghost use Rattle.std.specs.Prelude.{◌≡◌, ◌<◌, ◌≤◌, List, length, IsTrue, Contains, slice_get, Some};
ghost use Rattle.peb_base.specs.Choice as choice;
ghost use Rattle.peb_base.specs.declared.entry.Entry.{Entry};
ghost use Rattle.bloom.specs.Filter.{may_hold};
ghost use Rattle.table_file.specs.Items.{block_for, ends_before, index_for};
ghost use Rattle.table_file.specs.Tables.{Holds};

use crate::index_item::IndexItem;
use crate::laws::law_held;
use bloom::Filter;
use disk_model::TableHandle;
use peb_base::{HasRow, Number, TableRow, is_before};
use std::marker::Model;

/// A sorted table (SSTable): its row, the handle of its file, its index and
/// its filter; contracts see these four.
///
/// Its file has the row's number, it has a block at least, no block by its index is longer than
/// 40,960 bytes, and the last entries of its blocks ascend.
#[derive(Drop)]
pub struct Table<F: TableHandle> {
    pub(crate) row: TableRow,
    pub(crate) file: F,
    pub(crate) items: Vec<IndexItem>,
    pub(crate) filter: Filter,
}

impl<F: TableHandle> Model for Table<F> {
    ghost use Rattle.table_file.specs.Tables.{TableParts, IsShaped};

    ghost Value = { TableParts F };

    ghost view = { λ table. record {
      row = table.row;
      file = table.file;
      items =
          table.items.items;
      filter = table.filter;
    } };

    ghost invariant = { λ table. IsShaped F.number
        (record {
          row = table.row;
          file = table.file;
          items = table.items.items;
          filter =
              table.filter;
        }) };
}

impl<F: TableHandle> Table<F> {
    /// The table's row.
    pub fn row(&self) -> &TableRow
        ensures { result.now ≡ self.now.row }
    {
        &self.row
    }

    /// The handle of the table's file, which has the row's number.
    pub fn file(&self) -> &F
        ensures file { result.now ≡ self.now.file }
        ensures number { F.number self.now.file ≡ self.now.row.number }
    {
        &self.file
    }

    /// The number of blocks, which is that of index items: at least one.
    pub fn blocks(&self) -> usize
        ensures count { result ≡ length self.now.items }
        ensures some { 0 < length self.now.items }
    {
        self.items.len()
    }

    /// An index item by its index, below the number of blocks: the block's place and length in bytes, the
    /// length at most 40,960, and the key and the number of its last entry.
    pub fn item(&self, index: usize) -> (u64, u32, &[u8], Number)
        requires { index < length self.now.items }
        ensures item { slice_get self.now.items index ≡
            Some (record { place = result.0; len = result.1; key = result.2.now; number = result.3 }) }
        ensures short { result.1 ≤ 40960 }
    {
        let item = &self.items[index];
        (item.place, item.len, item.key.bytes(), item.number)
    }

    /// The bytes of the filter.
    pub fn filter(&self) -> &[u8]
        ensures { result.now ≡ self.now.filter }
    {
        self.filter.bytes()
    }

    /// Whether the table may hold an entry of the key: false only where its filter denies it,
    /// which it does of no key that the table holds.
    pub fn may_hold(&self, key: &[u8]) -> bool
        ensures answer { result ≡ may_hold self.now.filter (choice.mixed key.now) }
        ensures held { (es : List Entry) (e : Entry) → Holds F.TableHandle self.now es
            → Contains es e → e.key ≡ key.now → IsTrue result }
    {
        law_held::<F>();
        self.filter.may_hold(key)
    }

    /// The index of the block that has the first entry at or after this key and number, or the number of
    /// blocks where every entry is before. A binary search over the index.
    pub fn block_index(&self, key: &[u8], number: Number) -> usize
        ensures { result ≡ index_for key.now number self.now.items }
    {
        let number = number.packed();
        let items = self.items.as_slice();
        items.partition_point(
            |item: &IndexItem| -> bool
                ensures { result ≡ ends_before key.entry.now number item.now }
            { is_before(item.key.bytes(), item.number.packed(), key, number) },
        )
    }

    /// The place and the length, in bytes, of the block that has the first entry at or after this key and
    /// number; None exactly where every entry is before.
    pub fn block_of(&self, key: &[u8], number: Number) -> Option<(u64, u32)>
        ensures { result ≡ block_for key.now number self.now.items }
    {
        let index = self.block_index(key, number);
        match self.items.get(index) {
            Some(item) => Some((item.place, item.len)),
            None => None,
        }
    }
}

impl<F: TableHandle> HasRow for Table<F> {
    ghost the_row = { λ table. table.row };

    ghost holds = { λ table es. IsTrue F.tells × Holds F.TableHandle table es };

    ghost agrees = { λ table es held. (held.1.table.sorted, held.1.table.row_is) };

    fn row(&self) -> &TableRow {
        &self.row
    }
}
