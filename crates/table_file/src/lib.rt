//! Sorted tables: written to a maker, entry by entry, and opened from a port.
//!
//! The layer above may use `TableWriter`, which makes a table, `PieceWriter`, by which a job that
//! reads tables makes its own, and `Table`, which tells where its blocks lie. It speaks of a table
//! by the words of `specs/Form`: the bytes of sorted entries, in blocks, with an index, a filter and
//! a footer. It may not know what the writer keeps of the entries that it has written.
#![tactic(auto)]

mod ending;
mod filling;
mod finished;
mod footer;
mod index;
mod index_fault;
mod index_item;
mod index_reading;
mod item_fields;
mod laws;
mod opening;
mod piece_laws;
#[cfg(test)]
mod piece_tests;
mod piece_writer;
mod put_fault;
mod short;
mod spelling;
mod summary;
mod table;
mod table_fault;
mod table_writer;
#[cfg(test)]
mod tests;

pub use finished::Finished;
pub use index_item::IndexItem;
pub use laws::{
    law_blocks, law_cut, law_held, law_holds, law_length, law_told, one_opening, one_place,
    opens_as_written, written_opens,
};
pub use piece_laws::law_pieces;
pub use piece_writer::PieceWriter;
pub use put_fault::PutFault;
pub use short::Short;
pub use table::Table;
pub use table_fault::TableFault;
pub use table_writer::TableWriter;
