//! Writers of pieces.

ghost use Rattle.std.specs.Prelude.{◌≡◌, ◌≢◌, ◌⊎◌, ◌<◌, ◌≤◌, ◌+◌, ◌-◌, ◌^◌, ◌++◌, ◌∷◌, [], ℕ, List, Err, true, false, length, map, None, IsTrue, IsOk, IfOk, OnOk};
ghost use Rattle.std.specs.Arc.{arc_value};
ghost use Rattle.disk_model.specs.Images.{Rose};
ghost use Rattle.disk_model.specs.Tables.{Sealed};
ghost use Rattle.peb_base.specs.Entries.{AreSorted};
ghost use Rattle.peb_base.specs.EntryRefs.{entry_of};
ghost use Rattle.peb_base.specs.Keys.{Bytes};
ghost use Rattle.table_file.specs.Form.{blocks_of};
ghost use Rattle.table_file.specs.Limits.{blocks_fault, IsRefused};
ghost use Rattle.table_file.specs.Pieces.{Piece, range_of};
ghost use Rattle.table_file.specs.PieceWriting.{Begins, Making, Pushed, nothing, making, full_length, all_pieces, taken_by, left_of, open_entries, piece_fault, with_more, next_input, sealed_with, AreTablesOf, HasCut, Writes};
ghost use Rattle.table_file.specs.Taking.{pushed_length, rest_length, Takes};
ghost use Rattle.table_file.specs.declared.put_fault.PutFault.TheVariants.{Fault};

use crate::put_fault::PutFault;
use crate::table::Table;
use crate::table_writer::TableWriter;
use disk_model::{Maker, TableHandle};
use peb_base::{EntryRef, Key, Memory, Options, is_below};
use std::alloc::Global;
use std::marker::Model;
use std::sync::Arc;

/// How many first keys aren't above this one, where as many aren't as `from`.
fn range_from(keys: &[Key], key: &[u8], from: usize) -> usize
    requires { from ≤ range_of key.now keys.now }
    ensures place { result ≡ range_of key.now keys.now }
    ensures within { result ≤ length keys.now }
{
    let mut at = from;
    while at < keys.len() && !is_below(key, keys[at].bytes()) {
        at += 1;
    }
    at
}

/// Writes entries that come in order into tables: one for each range between neighbouring keys in
/// which an entry falls, under the number of that range. It is the writer of all jobs that read
/// tables; a flush, which makes one table, writes it by a `TableWriter`.
///
/// A job begins each of its inputs with a number, that of the range before the first key, and the
/// ranges behind take the numbers that follow, those without entries too. So one job makes the same
/// tables whoever runs it.
#[derive(Drop)]
pub struct PieceWriter<F: TableHandle> {
    alloc: Global,
    writer: TableWriter,
    level: u8,
    numbers: u64,
    /// The range of the last entry's key: of how many first keys it isn't below.
    at: usize,
    is_open: bool,
    tables: Vec<Arc<Table<F>, Global>>,
}

impl<F: TableHandle> Model for PieceWriter<F> {
    ghost use Rattle.std.specs.Prelude.{map};
    ghost use Rattle.std.specs.Arc.{arc_value};
    ghost use Rattle.table_file.specs.PieceWriting.{PieceParts};

    ghost Value = { PieceParts F };

    ghost view = { λ w. record {
      writer = w.writer;
      level = w.level;
      numbers = w.numbers;
      at = w.at;
      is_open = w.is_open;
      tables = map arc_value w.tables.items;
    } };
}

impl<F: TableHandle> PieceWriter<F> {
    /// Takes the buffer for a block. No input is begun; the tables are to be of this level.
    pub fn new(alloc: Global, options: &Options, level: u8) -> Result<PieceWriter<F>, Memory>
        ensures cut { IfOk result (λ w. (m : Making) (keys : List Bytes)
            → HasCut F.TableHandle m w keys nothing) }
        ensures none { IfOk result (λ w. w.tables ≡ []) }
        ensures shut { IfOk result (λ w. w.is_open ≡ false) }
        ensures level { IfOk result (λ w. w.level ≡ level) }
        ensures block { IfOk result (λ w. full_length w ≡ options.now.block_bytes) }
    {
        Ok(PieceWriter {
            alloc,
            writer: TableWriter::new(alloc, options)?,
            level,
            numbers: 0,
            at: 0,
            is_open: false,
            tables: Vec::new(alloc),
        })
    }

    /// Writes one more entry, which comes after those of its input, into the table of its range.
    /// Where the range is a later one than the last entry's, the table before is closed first.
    ///
    /// `Limit` comes exactly where the range's table refuses the entry, or the table before can't
    /// be closed. `Fault` comes only where the maker's count of faults rose. After an error the
    /// writer is good for nothing, the maker has taken some first bytes of what it would have taken,
    /// or none, and it has begun no other number than before and that of the range.
    pub fn push<M: Maker<File = F>>(
        &mut self,
        maker: &mut M,
        keys: &[Key],
        entry: EntryRef<'_>,
    ) -> Result<(), PutFault>
        requires fits { self.old.numbers + length keys.now < 2 ^ 64 }
        requires cut { (s : Pushed)
            × HasCut F.TableHandle (making F.tells (M.begun maker.old) (M.written maker.old))
            self.old keys.now s × AreSorted (s.entries ++ entry_of entry ∷ []) }
        // what it gives
        ensures cut { OnOk result ((s : Pushed)
            → HasCut F.TableHandle (making F.tells (M.begun maker.old) (M.written maker.old))
            self.old keys.now s → AreSorted (s.entries ++ entry_of entry.entry ∷ [])
            → HasCut F.TableHandle (making F.tells (M.begun maker.new) (M.written maker.new))
            self.new keys.now (with_more s (entry_of entry.entry))) }
        // what it leaves
        ensures taken { (s : Pushed)
            → HasCut F.TableHandle (making F.tells (M.begun maker.old) (M.written maker.old))
            self.old keys.now s → AreSorted (s.entries ++ entry_of entry.entry ∷ [])
            → Takes (taken_by self.old keys.now (with_more s (entry_of entry.entry))
            - taken_by self.old keys.now s) (M.taken maker.old) (M.taken maker.new) result }
        ensures sealed { OnOk result (IsTrue F.tells → (base : Sealed)
            → M.sealed maker.old ≡ sealed_with F.TableHandle self.old.tables base
            → M.sealed maker.new ≡ sealed_with F.TableHandle self.new.tables base) }
        ensures elsewhere { IsTrue F.tells → (n : ℕ)
            → (n < self.old.numbers) ⊎ (self.old.numbers + length keys.now < n)
            → M.sealed maker.new n ≡ M.sealed maker.old n }
        ensures begun { Begins (self.old.numbers + range_of (entry_of entry.entry).key keys.now)
            (M.begun maker.old) (M.begun maker.new) }
        // when it fails
        ensures limit { (s : Pushed)
            → HasCut F.TableHandle (making F.tells (M.begun maker.old) (M.written maker.old))
            self.old keys.now s → AreSorted (s.entries ++ entry_of entry.entry ∷ [])
            → IsRefused (piece_fault self.old keys.now s (entry_of entry.entry)) result }
        ensures later { M.faults maker.old ≤ M.faults maker.new }
        ensures cause { result ≡ Err Fault → Rose (M.faults maker.old) (M.faults maker.new) }
        // what stays
        ensures numbers { self.new.numbers ≡ self.old.numbers }
        ensures level { self.new.level ≡ self.old.level }
        ensures full { full_length self.new ≡ full_length self.old }
        ensures gone { M.gone maker.new ≡ M.gone maker.old }
    {
        let at = range_from(keys, entry.key, self.at);
        if !self.is_open {
            return self.push_first(maker, at, entry);
        }
        if at == self.at {
            return self.writer.push(maker, entry);
        }
        match self.close(maker) {
            Ok(()) => self.push_first(maker, at, entry),
            Err(fault) => Err(fault),
        }
    }

    /// Begins an input, whose first range has this number, and closes the table that is open. Its
    /// entries may come anywhere, those of the inputs before aside. Where none is open it answers Ok.
    ///
    /// `Limit` comes only where that table can't be closed, `Fault` only where the maker's count of
    /// faults rose. After an error the writer is good for nothing.
    pub fn begin<M: Maker<File = F>>(&mut self, maker: &mut M, numbers: u64) -> Result<(), PutFault>
        requires { (keys : List Bytes) × (s : Pushed)
            × HasCut F.TableHandle (making F.tells (M.begun maker.old) (M.written maker.old))
            self.old keys s }
        // what it gives
        ensures cut { OnOk result ((keys : List Bytes) (s : Pushed)
            → HasCut F.TableHandle (making F.tells (M.begun maker.old) (M.written maker.old))
            self.old keys s
            → HasCut F.TableHandle (making F.tells (M.begun maker.new) (M.written maker.new))
            self.new keys (next_input self.old.numbers keys s)) }
        ensures numbers { OnOk result (self.new.numbers ≡ numbers) }
        ensures shut { OnOk result (self.new.is_open ≡ false) }
        // what it leaves
        ensures taken { (keys : List Bytes) (s : Pushed)
            → HasCut F.TableHandle (making F.tells (M.begun maker.old) (M.written maker.old))
            self.old keys s
            → Takes (left_of self.old keys s) (M.taken maker.old) (M.taken maker.new) result }
        ensures sealed { OnOk result (IsTrue F.tells → (base : Sealed)
            → M.sealed maker.old ≡ sealed_with F.TableHandle self.old.tables base
            → M.sealed maker.new ≡ sealed_with F.TableHandle self.new.tables base) }
        ensures elsewhere { IsTrue F.tells → (n : ℕ) → n ≢ self.old.writer.number
            → M.sealed maker.new n ≡ M.sealed maker.old n }
        ensures begun { (M.begun maker.new ≡ None) ⊎ (M.begun maker.new ≡ M.begun maker.old) }
        // when it fails
        ensures limit { (keys : List Bytes) (s : Pushed)
            → HasCut F.TableHandle (making F.tells (M.begun maker.old) (M.written maker.old))
            self.old keys s
            → IsRefused (blocks_fault (blocks_of (full_length self.old)
            (open_entries self.old keys s))) result }
        ensures ready { self.old.is_open ≡ false → IsOk result }
        ensures later { M.faults maker.old ≤ M.faults maker.new }
        ensures cause { result ≡ Err Fault → Rose (M.faults maker.old) (M.faults maker.new) }
        // what stays
        ensures level { self.new.level ≡ self.old.level }
        ensures full { full_length self.new ≡ full_length self.old }
        ensures gone { M.gone maker.new ≡ M.gone maker.old }
    {
        match self.close_any(maker) {
            Ok(()) => {}
            Err(fault) => return Err(fault),
        }
        self.numbers = numbers;
        self.at = 0;
        Ok(())
    }

    /// Closes the table that is open, and gives all tables, in order: those of the pieces of what
    /// was pushed, each under the number of its range.
    ///
    /// `Limit` comes only where the last table can't be closed, `Fault` only where the maker's
    /// count of faults rose.
    pub fn finish<M: Maker<File = F>>(
        mut self,
        maker: &mut M,
    ) -> Result<Vec<Arc<Table<F>, Global>>, PutFault>
        requires { (keys : List Bytes) × (s : Pushed)
            × HasCut F.TableHandle (making F.tells (M.begun maker.old) (M.written maker.old))
            self keys s }
        // what it gives
        ensures tables { IfOk result (λ tables. (keys : List Bytes) (s : Pushed)
            → HasCut F.TableHandle (making F.tells (M.begun maker.old) (M.written maker.old))
            self keys s
            → AreTablesOf F.TableHandle (full_length self) self.level (map arc_value tables.items)
            (all_pieces self.numbers keys s)) }
        // what it leaves
        ensures taken { (keys : List Bytes) (s : Pushed)
            → HasCut F.TableHandle (making F.tells (M.begun maker.old) (M.written maker.old))
            self keys s
            → Takes (left_of self keys s) (M.taken maker.old) (M.taken maker.new) result }
        ensures sealed { IfOk result (λ tables. IsTrue F.tells → (base : Sealed)
            → M.sealed maker.old ≡ sealed_with F.TableHandle self.tables base
            → M.sealed maker.new
            ≡ sealed_with F.TableHandle (map arc_value tables.items) base) }
        ensures elsewhere { IsTrue F.tells → (n : ℕ) → n ≢ self.writer.number
            → M.sealed maker.new n ≡ M.sealed maker.old n }
        ensures begun { (M.begun maker.new ≡ None) ⊎ (M.begun maker.new ≡ M.begun maker.old) }
        // when it fails
        ensures limit { (keys : List Bytes) (s : Pushed)
            → HasCut F.TableHandle (making F.tells (M.begun maker.old) (M.written maker.old))
            self keys s
            → IsRefused (blocks_fault (blocks_of (full_length self)
            (open_entries self keys s))) result }
        ensures ready { self.is_open ≡ false → IsOk result }
        ensures later { M.faults maker.old ≤ M.faults maker.new }
        ensures cause { result ≡ Err Fault → Rose (M.faults maker.old) (M.faults maker.new) }
        // what stays
        ensures gone { M.gone maker.new ≡ M.gone maker.old }
    {
        match self.close_any(maker) {
            Ok(()) => {}
            Err(fault) => return Err(fault),
        }
        let PieceWriter { tables, .. } = self;
        Ok(tables)
    }

    /// Begins the table of a range with its first entry. None is open.
    fn push_first<M: Maker<File = F>>(
        &mut self,
        maker: &mut M,
        at: usize,
        entry: EntryRef<'_>,
    ) -> Result<(), PutFault>
        requires fits { self.old.numbers + at < 2 ^ 64 }
        requires entry { AreSorted (entry_of entry ∷ []) }
        // what it gives
        ensures begun { OnOk result
            (Writes (making F.tells (M.begun maker.new) (M.written maker.new)) self.new
            (record { number = self.old.numbers + at; entries = entry_of entry.entry ∷ [] })
            × (self.new.is_open ≡ true) × (self.new.at ≡ at)) }
        // what it leaves
        ensures taken { Takes (pushed_length (full_length self.old) [] (entry_of entry.entry))
            (M.taken maker.old) (M.taken maker.new) result }
        ensures own { Begins (self.old.numbers + at) (M.begun maker.old) (M.begun maker.new) }
        // when it fails
        ensures limit { IsRefused None result }
        ensures later { M.faults maker.old ≤ M.faults maker.new }
        ensures cause { result ≡ Err Fault → Rose (M.faults maker.old) (M.faults maker.new) }
        // what stays
        ensures tables { self.new.tables ≡ self.old.tables }
        ensures numbers { self.new.numbers ≡ self.old.numbers }
        ensures level { self.new.level ≡ self.old.level }
        ensures full { full_length self.new ≡ full_length self.old }
        ensures sealed { M.sealed maker.new ≡ M.sealed maker.old }
        ensures gone { M.gone maker.new ≡ M.gone maker.old }
    {
        match self
            .writer
            .start(maker, self.numbers + at as u64, self.level)
        {
            Ok(()) => {}
            Err(fault) => return Err(fault),
        }
        self.at = at;
        self.is_open = true;
        self.writer.push(maker, entry)
    }

    /// Closes the open table, and keeps it.
    fn close<M: Maker<File = F>>(&mut self, maker: &mut M) -> Result<(), PutFault>
        requires { (p : Piece)
            × Writes (making F.tells (M.begun maker.old) (M.written maker.old)) self.old p
            × (0 < length p.entries) }
        // what it gives
        ensures tables { OnOk result ((p : Piece) (ps : List Piece)
            → Writes (making F.tells (M.begun maker.old) (M.written maker.old)) self.old p
            → 0 < length p.entries
            → AreTablesOf F.TableHandle (full_length self.old) self.old.level self.old.tables ps
            → AreTablesOf F.TableHandle (full_length self.old) self.old.level self.new.tables
            (ps ++ p ∷ [])) }
        ensures closed { OnOk result (self.new.is_open ≡ false) }
        // what it leaves
        ensures taken { (p : Piece)
            → Writes (making F.tells (M.begun maker.old) (M.written maker.old)) self.old p
            → 0 < length p.entries
            → Takes (rest_length (full_length self.old) p.number p.entries)
            (M.taken maker.old) (M.taken maker.new) result }
        ensures sealed { OnOk result (IsTrue F.tells → (base : Sealed)
            → M.sealed maker.old ≡ sealed_with F.TableHandle self.old.tables base
            → M.sealed maker.new ≡ sealed_with F.TableHandle self.new.tables base) }
        ensures elsewhere { IsTrue F.tells → (n : ℕ) → n ≢ self.old.writer.number
            → M.sealed maker.new n ≡ M.sealed maker.old n }
        ensures begun { (M.begun maker.new ≡ None) ⊎ (M.begun maker.new ≡ M.begun maker.old) }
        ensures ended { OnOk result (M.begun maker.new ≡ None) }
        // when it fails
        ensures limit { (p : Piece)
            → Writes (making F.tells (M.begun maker.old) (M.written maker.old)) self.old p
            → 0 < length p.entries
            → IsRefused (blocks_fault (blocks_of (full_length self.old) p.entries)) result }
        ensures later { M.faults maker.old ≤ M.faults maker.new }
        ensures cause { result ≡ Err Fault → Rose (M.faults maker.old) (M.faults maker.new) }
        // what stays
        ensures range { self.new.at ≡ self.old.at }
        ensures numbers { self.new.numbers ≡ self.old.numbers }
        ensures level { self.new.level ≡ self.old.level }
        ensures full { full_length self.new ≡ full_length self.old }
        ensures gone { M.gone maker.new ≡ M.gone maker.old }
    {
        let table = match self.writer.finish(maker) {
            Ok(table) => table,
            Err(fault) => return Err(fault),
        };
        let table = Arc::new(self.alloc, table)?;
        self.tables.push(table)?;
        self.is_open = false;
        Ok(())
    }

    /// Closes the open table, if there is one, and keeps it.
    fn close_any<M: Maker<File = F>>(&mut self, maker: &mut M) -> Result<(), PutFault>
        requires { (keys : List Bytes) × (s : Pushed)
            × HasCut F.TableHandle (making F.tells (M.begun maker.old) (M.written maker.old))
            self.old keys s }
        // what it gives
        ensures tables { OnOk result ((keys : List Bytes) (s : Pushed)
            → HasCut F.TableHandle (making F.tells (M.begun maker.old) (M.written maker.old))
            self.old keys s
            → AreTablesOf F.TableHandle (full_length self.old) self.old.level self.new.tables
            (all_pieces self.old.numbers keys s)) }
        ensures closed { OnOk result (self.new.is_open ≡ false) }
        // what it leaves
        ensures taken { (keys : List Bytes) (s : Pushed)
            → HasCut F.TableHandle (making F.tells (M.begun maker.old) (M.written maker.old))
            self.old keys s
            → Takes (left_of self.old keys s) (M.taken maker.old) (M.taken maker.new) result }
        ensures sealed { OnOk result (IsTrue F.tells → (base : Sealed)
            → M.sealed maker.old ≡ sealed_with F.TableHandle self.old.tables base
            → M.sealed maker.new ≡ sealed_with F.TableHandle self.new.tables base) }
        ensures elsewhere { IsTrue F.tells → (n : ℕ) → n ≢ self.old.writer.number
            → M.sealed maker.new n ≡ M.sealed maker.old n }
        ensures begun { (M.begun maker.new ≡ None) ⊎ (M.begun maker.new ≡ M.begun maker.old) }
        // when it fails
        ensures limit { (keys : List Bytes) (s : Pushed)
            → HasCut F.TableHandle (making F.tells (M.begun maker.old) (M.written maker.old))
            self.old keys s
            → IsRefused (blocks_fault (blocks_of (full_length self.old)
            (open_entries self.old keys s))) result }
        ensures ready { self.old.is_open ≡ false → IsOk result }
        ensures later { M.faults maker.old ≤ M.faults maker.new }
        ensures cause { result ≡ Err Fault → Rose (M.faults maker.old) (M.faults maker.new) }
        // what stays
        ensures level { self.new.level ≡ self.old.level }
        ensures full { full_length self.new ≡ full_length self.old }
        ensures gone { M.gone maker.new ≡ M.gone maker.old }
    {
        if !self.is_open {
            return Ok(());
        }
        self.close(maker)
    }
}
