//! Edits of the manifest's history.

use crate::chosen::Chosen;
use peb_base::{Key, List, Number, TableRow};

/// One step of the record that the manifest keeps: an opening, or what a job has done.
///
/// Inputs are numbers of tables that are no longer live after the edit, outputs are the metadata of
/// the tables that it adds.
#[derive(Debug, Drop)]
pub enum Edit {
    /// An opening of the store, and its first log.
    Open {
        session: u64,
        log: u64,
    },
    /// The frozen memtable became a table of level 0: the entries numbered above `from` and at most
    /// `to`. Logs below `log` aren't needed any more. The chosen keys are new candidates for
    /// guards.
    Flush {
        row: TableRow,
        from: Number,
        to: Number,
        log: u64,
        chosen: List<Chosen>,
    },
    /// A compaction of tables of `level` into the next one, by the guards of that level.
    Move {
        level: u8,
        floor: Number,
        inputs: List<u64>,
        outputs: List<TableRow>,
    },
    /// The keys became guards of `level`, and each table that one of them splits was rewritten in
    /// pieces.
    Cut {
        level: u8,
        keys: List<Key>,
        inputs: List<u64>,
        outputs: List<TableRow>,
    },
    /// A compaction within a guard of the last level. It was `whole` where it took all tables that
    /// the guard had when it began.
    Merge {
        floor: Number,
        whole: bool,
        inputs: List<u64>,
        outputs: List<TableRow>,
    },
}
