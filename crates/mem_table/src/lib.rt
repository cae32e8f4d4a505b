//! The memtable: the entries that aren't flushed yet, in order.
//!
//! The layer above inserts batches, asks for the size, and takes views of the entries as
//! they stand, which it looks through by key or walks over by a cursor. It sees a table and
//! a view as the list of their entries in entry order. It may not know how the list is kept:
//! here in chunks that tables and views share.
#![tactic(auto)]

mod chunk;
mod chunks;
mod entries;
mod handles;
mod held_entry;
mod mem_cursor;
mod mem_table;
mod mem_view;
mod spot;
#[cfg(test)]
mod tests;

pub use mem_cursor::MemCursor;
pub use mem_table::MemTable;
pub use mem_view::MemView;
