//! Tables that are written, opened and walked.

ghost use Rattle.std.specs.Prelude.{◌≡◌, ◌↔◌, ◌≤◌, ◌<◌, ◌^◌, ◌-◌, ◌∷◌, ◌++◌, [], ℕ, false, min};
ghost use Rattle.std.specs.Prelude.{List, Option, Some, None, Err, IfOk, IfErr, OnOk, OnErr};
ghost use Rattle.std.specs.Prelude.{IsTrue, length};
ghost use Rattle.disk_model.specs.Tables.{with_table, is_gone, StaysOrGoes};
ghost use Rattle.peb_base.specs.Entries.{AreSorted, IsEntry};
ghost use Rattle.peb_base.specs.EntryRefs.{entry_of};
ghost use Rattle.peb_base.specs.Faults.{Rose};
ghost use Rattle.peb_base.specs.declared.entry.Entry.{Entry};
ghost use Rattle.table_file.specs.Form.{blocks_of, table_bytes};
ghost use Rattle.table_file.specs.Limits.{blocks_fault};
ghost use Rattle.table_file.specs.Tables.{IsTableOf, IsRowAt, Holds};
ghost use Rattle.table_file.specs.Writing.{block_length};
ghost use Rattle.table_file.specs.declared.put_fault.PutFault.TheVariants as puts;
ghost use Rattle.table_cursor.specs.Agreeing.{IsDamageOf};
ghost use Rattle.table_cursor.specs.Trips.{TellsDamage, TellsTable, TellsOf, LimitsPut, LimitsTrip};
ghost use Rattle.table_cursor.specs.Trips.{IsRowWritten, SpansEntries, ChangesTables};
ghost use Rattle.table_cursor.specs.Views.{table_of, port_of, StandsIn, Keeps};
ghost use Rattle.table_cursor.specs.Walking.{SpansRow};
ghost use Rattle.table_cursor.specs.declared.trip_fault.TripFault.TheVariants.{Fault};

use crate::laws::{law_walk_ends, law_walk_told};
use crate::table_cursor::TableCursor;
use crate::trip_fault::TripFault;
use block_pool::Pool;
use disk_model::{Devices, Maker, Port};
use peb_base::{
    Change, ChangeRef, Cursor, Entry, EntryRef, Key, List, Memory, Options, TableRow, Value,
    is_before,
};
use std::alloc::Global;
use std::sync::Arc;
use table_file::{PutFault, Table, TableWriter, law_holds, written_opens};

/// Whether entries ascend strictly in entry order, as those of a table do.
pub fn are_sorted(entries: &[Entry]) -> bool
    ensures { IsTrue result ↔ AreSorted entries.now }
{
    let mut before: &[u8] = &[];
    let mut above = 0;
    'each: for entry in entries {
        let number = entry.number.packed();
        if !is_before(before, above, bounded(entry), number) {
            return false;
        }
        before = entry.key.bytes();
        above = number;
    }
    true
}

/// The key of an entry, all of whose parts are within their limits.
fn bounded(entry: &Entry) -> &[u8]
    ensures key { result.now ≡ entry.now.key }
    ensures within { IsEntry entry.now }
{
    if let Change::Put(value) = &entry.change {
        value.bytes();
    }
    entry.number.packed();
    entry.key.bytes()
}

/// Lends an entry.
fn lent(entry: &Entry) -> EntryRef<'_>
    ensures { entry_of result ≡ entry.now }
{
    let change = match &entry.change {
        Change::Put(value) => ChangeRef::Put(value.bytes()),
        Change::Delete => ChangeRef::Delete,
    };
    EntryRef::new(entry.key.bytes(), entry.number, change)
}

/// Writes the table of these entries, and seals it.
fn write<M: Maker>(
    writer: &mut TableWriter,
    maker: &mut M,
    number: u64,
    level: u8,
    entries: &[Entry],
) -> Result<Table<M::File>, PutFault>
    requires sorted { AreSorted entries.now }
    requires some { 0 < length entries.now }
    // what it gives
    ensures table { IfOk result (λ table. IsTableOf M.File.TableHandle table
        (blocks_of (block_length writer.old) entries.now) entries.now) }
    ensures row { IfOk result (λ table. IsRowAt table.row number level 0) }
    ensures few { OnOk result (length entries.now ≤ 1717986918) }
    ensures short { OnOk result
        (blocks_fault (blocks_of (block_length writer.old) entries.now) ≡ None) }
    // what it leaves
    ensures sealed { IfOk result (λ table. IsTrue M.File.tells → M.sealed maker.new
        ≡ with_table number (M.File.bytes table.file) (M.sealed maker.old)) }
    ensures unsealed { OnErr result (M.sealed maker.new ≡ M.sealed maker.old) }
    // when it fails
    ensures limit { IfErr result (LimitsPut (block_length writer.old) entries.now) }
    ensures later { M.faults maker.old ≤ M.faults maker.new }
    ensures cause { result ≡ Err puts.Fault → Rose (M.faults maker.old) (M.faults maker.new) }
    // what stays
    ensures gone { M.gone maker.new ≡ M.gone maker.old }
{
    match writer.start(maker, number, level) {
        Ok(()) => {}
        Err(why) => return Err(why),
    }
    'each: for entry in entries {
        match writer.push(maker, lent(entry)) {
            Ok(()) => {}
            Err(why) => return Err(why),
        }
    }
    match writer.finish(maker) {
        Ok(table) => Ok(table),
        Err(why) => Err(why),
    }
}

/// A copy of a lent entry.
fn copied(alloc: Global, entry: &EntryRef<'_>) -> Result<Entry, Memory>
    ensures { IfOk result (λ copy. copy ≡ entry_of entry.now) }
{
    let key = Key::new(alloc, entry.key).map_err(|_| Memory)?;
    let change = match entry.change {
        ChangeRef::Put(value) => Change::Put(Value::new(alloc, value).map_err(|_| Memory)?),
        ChangeRef::Delete => Change::Delete,
    };
    Ok(Entry {
        key,
        number: entry.number(),
        change,
    })
}

/// Puts a copy of a lent entry behind others.
fn keep(alloc: Global, entry: &EntryRef<'_>, seen: &mut Vec<Entry>) -> Result<(), Memory>
    ensures { OnOk result (seen.new.items ≡ seen.old.items ++ entry_of entry.now ∷ []) }
{
    let copy = copied(alloc, entry)?;
    match seen.push(copy) {
        Ok(()) => Ok(()),
        Err(_) => Err(Memory),
    }
}

/// Goes from the first entry to the end, and gives copies of all that was shown, in their order.
fn walk<P: Port>(alloc: Global, cursor: &mut TableCursor<P>) -> Result<List<Entry>, TripFault>
    // what it gives
    ensures told { (es : List Entry) (place : Option ℕ) → StandsIn cursor.old es place →
        IfOk result (λ seen. seen ≡ es) }
    ensures spans { IfOk result (λ seen. SpansRow (table_of cursor.new).row seen) }
    // when it fails
    ensures undamaged { (es : List Entry) (place : Option ℕ) → StandsIn cursor.old es place →
        IfErr result (λ why. TellsDamage why → ⊥) }
    ensures damaged { IfErr result (TellsTable (table_of cursor.old).row.number) }
    ensures damage { IfErr result
        (TellsOf (IsDamageOf P.File.TableHandle (table_of cursor.old))) }
    ensures unlimited { IfErr result
        (λ why. (full : ℕ) (es : List Entry) → LimitsTrip full es why) }
    ensures later { P.faults (port_of cursor.old) ≤ P.faults (port_of cursor.new) }
    ensures cause { result ≡ Err Fault →
        Rose (P.faults (port_of cursor.old)) (P.faults (port_of cursor.new)) }
    // what stays
    ensures keeps { Keeps cursor.old cursor.new }
{
    let mut seen = Vec::new(alloc);
    match cursor.first() {
        Ok(()) => {}
        Err(why) => return Err(TripFault::from(why)),
    }
    'walk: while let Some(entry) = cursor.at() {
        keep(alloc, &entry, &mut seen)?;
        match cursor.next() {
            Ok(()) => {}
            Err(why) => return Err(TripFault::from(why)),
        }
    }
    law_walk_told(cursor);
    law_walk_ends(cursor);
    Ok(List::of(seen))
}

/// Walks a table through a port, which it gives back.
fn walk_table<P: Port>(
    alloc: Global,
    port: P,
    table: Table<P::File>,
) -> (P, Result<List<Entry>, TripFault>)
    // what it gives
    ensures told { (es : List Entry) → IsTrue P.File.tells → Holds P.File.TableHandle table es →
        IfOk result.1 (λ seen. seen ≡ es) }
    ensures spans { IfOk result.1 (λ seen. SpansRow table.row seen) }
    // when it fails
    ensures undamaged { (es : List Entry) → IsTrue P.File.tells
        → Holds P.File.TableHandle table es →
        IfErr result.1 (λ why. TellsDamage why → ⊥) }
    ensures damaged { IfErr result.1 (TellsTable table.row.number) }
    ensures damage { IfErr result.1 (TellsOf (IsDamageOf P.File.TableHandle table)) }
    ensures unlimited { IfErr result.1
        (λ why. (full : ℕ) (es : List Entry) → LimitsTrip full es why) }
    ensures later { P.faults port ≤ P.faults result.0 }
    ensures cause { result.1 ≡ Err Fault → Rose (P.faults port) (P.faults result.0) }
{
    let table = match Arc::new(alloc, table) {
        Ok(table) => table,
        Err(_) => return (port, Err(TripFault::Memory)),
    };
    let mut pool = match Pool::new(alloc, 1) {
        Ok(pool) => pool,
        Err(_) => return (port, Err(TripFault::Memory)),
    };
    let Some(loan) = pool.lend() else {
        unreachable!();
    };
    let mut cursor = TableCursor::open(table, port, loan);
    let seen = walk(alloc, &mut cursor);
    let (_, port, loan) = cursor.close();
    pool.give_back(loan);
    (port, seen)
}

/// Opens the table of a row through a port, which it gives back, and walks it.
fn walk_row<P: Port>(alloc: Global, port: P, row: TableRow) -> (P, Result<List<Entry>, TripFault>)
    // what it gives
    ensures told { (full : ℕ) (es : List Entry) → IsTrue P.File.tells → IsRowWritten row full es →
        ((bytes : List ℕ) → (P.table_files port).sealed row.number ≡ Some bytes →
        bytes ≡ table_bytes full row.number es) → IfOk result.1 (λ seen. seen ≡ es) }
    ensures spans { IfOk result.1 (λ seen. SpansRow row seen) }
    // when it fails
    ensures undamaged { (full : ℕ) (es : List Entry) → IsTrue P.File.tells
        → IsRowWritten row full es →
        (P.table_files port).sealed row.number ≡ Some (table_bytes full row.number es) →
        IfErr result.1 (λ why. TellsDamage why → ⊥) }
    ensures absent { (full : ℕ) (es : List Entry) → IsTrue P.File.tells → IsRowWritten row full es →
        ((bytes : List ℕ) → (P.table_files port).sealed row.number ≡ Some bytes →
        bytes ≡ table_bytes full row.number es) →
        IfErr result.1 (TellsOf (λ number at. at ≡ 0)) }
    ensures damaged { IfErr result.1 (TellsTable row.number) }
    ensures within { IfErr result.1 (TellsOf (λ number at. at ≤ row.bytes)) }
    ensures unlimited { IfErr result.1
        (λ why. (full : ℕ) (es : List Entry) → LimitsTrip full es why) }
    ensures later { P.faults port ≤ P.faults result.0 }
    ensures cause { result.1 ≡ Err Fault → Rose (P.faults port) (P.faults result.0) }
{
    law_holds::<P::File>();
    written_opens();
    let mut port = port;
    let table = match Table::open(alloc, &mut port, row) {
        Ok(table) => table,
        Err(why) => return (port, Err(TripFault::from(why))),
    };
    walk_table(alloc, port, table)
}

/// The length of a table's file, by its row.
fn length_of(row: &TableRow) -> u64
    ensures same { result ≡ row.now.bytes }
    ensures fits { row.now.bytes < 2 ^ 64 }
{
    row.bytes
}

/// Writes the table of these entries, seals it, and gives its row.
fn write_row<M: Maker>(
    alloc: Global,
    maker: &mut M,
    options: &Options,
    number: u64,
    level: u8,
    entries: &[Entry],
) -> Result<TableRow, TripFault>
    requires sorted { AreSorted entries.now }
    requires some { 0 < length entries.now }
    // what it gives
    ensures row { IfOk result (λ row. IsRowWritten row options.now.block_bytes entries.now) }
    ensures number { IfOk result (λ row. row.number ≡ number) }
    // what it leaves
    ensures sealed { OnOk result (IsTrue M.File.tells → M.sealed maker.new
        ≡ with_table number (table_bytes options.now.block_bytes number entries.now)
        (M.sealed maker.old)) }
    ensures others { IsTrue M.File.tells → (n : ℕ) → (n ≡ number → ⊥) →
        M.sealed maker.new n ≡ M.sealed maker.old n }
    // when it fails
    ensures limit { IfErr result (LimitsTrip options.now.block_bytes entries.now) }
    ensures undamaged { IfErr result (λ why. TellsDamage why → ⊥) }
    ensures later { M.faults maker.old ≤ M.faults maker.new }
    ensures cause { result ≡ Err Fault → Rose (M.faults maker.old) (M.faults maker.new) }
    // what stays
    ensures gone { M.gone maker.new ≡ M.gone maker.old }
{
    let mut writer = match TableWriter::new(alloc, options) {
        Ok(writer) => writer,
        Err(_) => return Err(TripFault::Memory),
    };
    let table = match write(&mut writer, maker, number, level, entries) {
        Ok(table) => table,
        Err(why) => return Err(TripFault::from(why)),
    };
    let row = match table.row().copy(alloc) {
        Ok(row) => row,
        Err(_) => return Err(TripFault::Memory),
    };
    length_of(&row);
    Ok(row)
}

/// Writes the table of these entries through a maker of the devices, and gives its row.
fn written<D: Devices>(
    alloc: Global,
    devices: &mut D,
    options: &Options,
    number: u64,
    level: u8,
    entries: &[Entry],
) -> Result<TableRow, TripFault>
    requires sorted { AreSorted entries.now }
    requires some { 0 < length entries.now }
    // what it gives
    ensures row { IfOk result (λ row. IsRowWritten row options.now.block_bytes entries.now) }
    ensures number { IfOk result (λ row. row.number ≡ number) }
    // what it leaves
    ensures kept { OnOk result (IsTrue D.F.tells → (D.tables_told devices.new).kept number
        ≡ Some (table_bytes options.now.block_bytes number entries.now)) }
    ensures there { OnOk result
        (IsTrue D.F.tells → StaysOrGoes (D.tables_told devices.old).tally.gone number
        (Some (table_bytes options.now.block_bytes number entries.now))
        ((D.tables_told devices.new).files.sealed number)) }
    ensures others { IsTrue D.F.tells → (n : ℕ) → (n ≡ number → ⊥) →
        (D.tables_told devices.new).kept n ≡ (D.tables_told devices.old).kept n }
    // when it fails
    ensures limit { IfErr result (LimitsTrip options.now.block_bytes entries.now) }
    ensures undamaged { IfErr result (λ why. TellsDamage why → ⊥) }
    ensures later { min (D.tables_told devices.old).faults (2 ^ 64 - 1)
        ≤ (D.tables_told devices.new).faults }
    ensures cause { result ≡ Err Fault →
        Rose (D.tables_told devices.old).faults (D.tables_told devices.new).faults }
    // what stays
    ensures stays { ChangesTables D.Devices devices.old devices.new }
{
    let mut maker = match devices.maker() {
        Ok(maker) => maker,
        Err(_) => return Err(TripFault::Fault),
    };
    let made = write_row(alloc, &mut maker, options, number, level, entries);
    devices.back_maker(maker);
    made
}

/// Walks the table of a row through a port of the devices.
fn walked<D: Devices>(
    alloc: Global,
    devices: &mut D,
    row: TableRow,
) -> Result<List<Entry>, TripFault>
    // what it gives
    ensures told { (full : ℕ) (es : List Entry) → IsTrue D.F.tells → IsRowWritten row full es →
        ((bytes : List ℕ) → (D.tables_told devices.old).files.sealed row.number ≡ Some bytes →
        bytes ≡ table_bytes full row.number es) → IfOk result (λ seen. seen ≡ es) }
    ensures spans { IfOk result (λ seen. SpansRow row seen) }
    // when it fails
    ensures undamaged { (full : ℕ) (es : List Entry) → IsTrue D.F.tells → IsRowWritten row full es →
        (D.tables_told devices.old).files.sealed row.number
        ≡ Some (table_bytes full row.number es) → IfErr result (λ why. TellsDamage why → ⊥) }
    ensures absent { (full : ℕ) (es : List Entry) → IsTrue D.F.tells → IsRowWritten row full es →
        ((bytes : List ℕ) → (D.tables_told devices.old).files.sealed row.number ≡ Some bytes →
        bytes ≡ table_bytes full row.number es) →
        IfErr result (TellsOf (λ number at. at ≡ 0)) }
    ensures damaged { IfErr result (TellsTable row.number) }
    ensures within { IfErr result (TellsOf (λ number at. at ≤ row.bytes)) }
    ensures unlimited { IfErr result
        (λ why. (full : ℕ) (es : List Entry) → LimitsTrip full es why) }
    ensures cause { result ≡ Err Fault →
        Rose (D.tables_told devices.old).faults (D.tables_told devices.new).faults }
    // what stays
    ensures kept { (D.tables_told devices.new).kept ≡ (D.tables_told devices.old).kept }
    ensures stays { ChangesTables D.Devices devices.old devices.new }
{
    let port = match devices.port() {
        Ok(port) => port,
        Err(_) => return Err(TripFault::Fault),
    };
    let (port, seen) = walk_row(alloc, port, row);
    devices.back_port(port);
    seen
}

/// Writes the table of these entries, which ascend, opens it again from its file by its row, and
/// gives what a walk from its first entry to its end shows.
///
/// `Fault` comes only where the devices' count of faults of tables rose, `Limit` only where a
/// table of the entries would pass the limit. `Damaged` tells the number and a place within the table's
/// length; over devices that tell their bytes it comes never where no table of the number was taken
/// away, and else only where the file isn't there, with place 0.
pub fn round_trip<D: Devices>(
    alloc: Global,
    devices: &mut D,
    options: &Options,
    number: u64,
    level: u8,
    entries: &[Entry],
) -> Result<List<Entry>, TripFault>
    requires sorted { AreSorted entries.now }
    requires some { 0 < length entries.now }
    // what it gives
    ensures same { IfOk result (λ seen. IsTrue D.F.tells → seen ≡ entries.now) }
    ensures spans { IfOk result (λ seen. SpansEntries entries.now seen) }
    // what it leaves
    ensures kept { OnOk result (IsTrue D.F.tells → (D.tables_told devices.new).kept number
        ≡ Some (table_bytes options.now.block_bytes number entries.now)) }
    ensures others { IsTrue D.F.tells → (n : ℕ) → (n ≡ number → ⊥) →
        (D.tables_told devices.new).kept n ≡ (D.tables_told devices.old).kept n }
    // when it fails
    ensures limit { IfErr result (LimitsTrip options.now.block_bytes entries.now) }
    ensures undamaged { IsTrue D.F.tells →
        is_gone (D.tables_told devices.old).tally.gone number ≡ false →
        IfErr result (λ why. TellsDamage why → ⊥) }
    ensures absent { IsTrue D.F.tells → IfErr result (TellsOf (λ n at. at ≡ 0)) }
    ensures damaged { IfErr result (TellsTable number) }
    ensures within { IfErr result (TellsOf (λ n at.
        at ≤ length (table_bytes options.now.block_bytes number entries.now))) }
    ensures cause { result ≡ Err Fault →
        Rose (D.tables_told devices.old).faults (D.tables_told devices.new).faults }
    // what stays
    ensures stays { ChangesTables D.Devices devices.old devices.new }
{
    match written(alloc, devices, options, number, level, entries) {
        Ok(row) => walked(alloc, devices, row),
        Err(why) => Err(why),
    }
}
