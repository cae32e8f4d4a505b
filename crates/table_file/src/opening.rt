//! Opening tables.

ghost use Rattle.std.specs.Prelude.{◌≡◌, ◌≢◌, ◌+◌, ◌-◌, ◌<◌, ◌≤◌, ◌^◌, List, ℕ, None, Some, Err, length, min, take, drop, IsTrue, IfOk, IfErr, OnOk};
ghost use Rattle.table_file.specs.Damages.{IsDamage, TellsTable, IsToldAt, EndsWithFooter, IsPlaceOfDamage};
ghost use Rattle.table_file.specs.Form.{footer_bytes, index_bytes};
ghost use Rattle.table_file.specs.Opening.{IsFooterOf, IsIndex, IsNoTable, OpensAs, FitsRow};
ghost use Rattle.disk_model.specs.Ports.{ReadsAtMost};
ghost use Rattle.table_file.specs.declared.table_fault.TableFault.TheVariants.{Fault};

use crate::ending::end_within;
use crate::footer::{Footer, footer_for};
use crate::index_fault::IndexFault;
use crate::index_item::IndexItem;
use crate::index_reading::items_of;
use crate::table::Table;
use crate::table_fault::TableFault;
use bloom::{Filter, FilterFault};
use disk_model::{Port, TableHandle};
use peb_base::TableRow;
use std::alloc::Global;

/// The bytes of the table from a place on, at most so many.
fn read_at<P: Port>(
    alloc: Global,
    port: &mut P,
    file: &P::File,
    at: u64,
    len: usize,
) -> Result<Vec<u8>, TableFault>
    ensures bytes { IfOk result
        (λ bytes. IsTrue P.File.tells → bytes.items ≡ take len (drop at (P.File.bytes file.now))) }
    ensures short { IfOk result (λ bytes. length bytes.items ≤ len) }
    ensures undamaged { IfErr result (λ why. IsDamage why → ⊥) }
    ensures table { IfErr result (λ why. (number : ℕ) → TellsTable number why) }
    ensures port { ReadsAtMost P.Port 1 port.old port.new (result ≡ Err Fault) }
{
    let mut bytes = match vec![in alloc; 0u8; len] {
        Ok(bytes) => bytes,
        Err(_) => return Err(TableFault::Memory),
    };
    let count = match port.read(file, at, &mut bytes) {
        Ok(count) => count,
        Err(_) => return Err(TableFault::Fault),
    };
    bytes.truncate(count);
    Ok(bytes)
}

/// What is told of a file that hasn't 48 bytes where by its row the last 48 begin, but so many, at
/// most 49: the place where it ends, or the end by the row, if it is longer.
fn length_fault<P: Port>(port: &mut P, file: &P::File, row: &TableRow, count: usize) -> TableFault
    requires room { 48 ≤ row.now.bytes }
    requires count { count ≤ 49 }
    ensures place { IsTrue P.File.tells
        → count ≡ min 49 (length (P.File.bytes file.now) - (row.now.bytes - 48))
        → IsToldAt (λ place. place ≡ min (length (P.File.bytes file.now)) row.now.bytes) result }
    ensures by_row { IsToldAt (λ at. at ≤ row.now.bytes) result }
    ensures table { TellsTable row.now.number result }
    ensures port { ReadsAtMost P.Port 64 port.old port.new (result ≡ Fault) }
{
    let at = row.bytes - 48;
    if count > 0 {
        return TableFault::Damaged {
            table: row.number,
            at: at + count.min(48) as u64,
        };
    }
    match end_within(port, file, at) {
        Ok(at) => TableFault::Damaged {
            table: row.number,
            at,
        },
        Err(why) => why,
    }
}

/// The place of damage in a file that ends here and should be so long, with no room for a footer.
fn place_in_tiny(end: u64, length: u64) -> u64
    ensures whole { end ≡ length → result ≡ 0 }
    ensures other { end ≢ length → result ≡ min end length }
{
    if end == length {
        return 0;
    }
    end.min(length)
}

/// What is told of a file whose row leaves no room for a footer: the place where it ends, or the end
/// by the row, if it is longer; its beginning, if it is as long as the row tells.
fn tiny_fault<P: Port>(alloc: Global, port: &mut P, file: &P::File, row: &TableRow) -> TableFault
    requires { row.now.bytes < 48 }
    ensures place { IsTrue P.File.tells →
        IsToldAt (IsPlaceOfDamage row.now (P.File.bytes file.now)) result }
    ensures by_row { IsToldAt (λ at. at ≤ row.now.bytes) result }
    ensures table { TellsTable row.now.number result }
    ensures port { ReadsAtMost P.Port 1 port.old port.new (result ≡ Fault) }
{
    let bytes = match read_at(alloc, port, file, 0, 49) {
        Ok(bytes) => bytes,
        Err(why) => return why,
    };
    let end = bytes.as_slice().len() as u64;
    TableFault::Damaged {
        table: row.number,
        at: place_in_tiny(end, row.bytes),
    }
}

/// The footer of the table, whose file has at least 48 bytes by its row.
fn read_footer<P: Port>(
    alloc: Global,
    port: &mut P,
    file: &P::File,
    row: &TableRow,
) -> Result<Footer, TableFault>
    requires { 48 ≤ row.now.bytes }
    ensures agrees { IfOk result (λ footer. IsFooterOf row.now footer) }
    ensures long { IfOk result
        (λ footer. IsTrue P.File.tells → length (P.File.bytes file.now) ≡ row.now.bytes) }
    ensures spelled { IfOk result
        (λ footer. IsTrue P.File.tells
        → drop (row.now.bytes - 48) (P.File.bytes file.now) ≡ footer_bytes footer) }
    ensures damaged { IfErr result
        (λ why. IsDamage why → IsTrue P.File.tells → IsNoTable row.now (P.File.bytes file.now)) }
    ensures place { IfErr result (λ why. IsTrue P.File.tells →
        IsToldAt (IsPlaceOfDamage row.now (P.File.bytes file.now)) why) }
    ensures by_row { IfErr result (IsToldAt (λ at. at ≤ row.now.bytes)) }
    ensures table { IfErr result (TellsTable row.now.number) }
    ensures port { ReadsAtMost P.Port 65 port.old port.new (result ≡ Err Fault) }
    ensures once { OnOk result (P.reads port.new ≤ P.reads port.old + 1) }
{
    let at = row.bytes - 48;
    let bytes = match read_at(alloc, port, file, at, 49) {
        Ok(bytes) => bytes,
        Err(why) => return Err(why),
    };
    let bytes = bytes.as_slice();
    if bytes.len() != 48 {
        return Err(length_fault(port, file, row, bytes.len()));
    }
    match footer_for(row, bytes) {
        Some(footer) => Ok(footer),
        None => Err(TableFault::Damaged {
            table: row.number,
            at,
        }),
    }
}

/// The items of the table's index, which stands where the footer says.
fn read_index<P: Port>(
    alloc: Global,
    port: &mut P,
    file: &P::File,
    row: &TableRow,
    footer: &Footer,
) -> Result<Vec<IndexItem>, TableFault>
    requires footer { IsFooterOf row.now footer.now }
    requires bytes { row.now.bytes < 2 ^ 64 }
    ensures index { IfOk result (λ items. IsIndex footer.now.index items.items) }
    ensures spelled { IfOk result
        (λ items. IsTrue P.File.tells
        → take footer.now.index_len (drop footer.now.index (P.File.bytes file.now))
        ≡ index_bytes items.items) }
    ensures damaged { IfErr result
        (λ why. IsDamage why → IsTrue P.File.tells
        → drop (row.now.bytes - 48) (P.File.bytes file.now) ≡ footer_bytes footer.now
        → IsNoTable row.now (P.File.bytes file.now)) }
    ensures place { IfErr result (λ why. IsTrue P.File.tells →
        EndsWithFooter row.now (P.File.bytes file.now) footer.now →
        IsToldAt (IsPlaceOfDamage row.now (P.File.bytes file.now)) why) }
    ensures by_footer { IfErr result (IsToldAt (λ at. at ≡ footer.now.index)) }
    ensures table { IfErr result (TellsTable row.now.number) }
    ensures port { ReadsAtMost P.Port 1 port.old port.new (result ≡ Err Fault) }
{
    let bytes = match read_at(alloc, port, file, footer.index, footer.index_len as usize) {
        Ok(bytes) => bytes,
        Err(why) => return Err(why),
    };
    let bytes = bytes.as_slice();
    match items_of(alloc, bytes, footer.index) {
        Ok(items) => Ok(items),
        Err(IndexFault::Form) => Err(TableFault::Damaged {
            table: row.number,
            at: footer.index,
        }),
        Err(IndexFault::Memory) => Err(TableFault::Memory),
    }
}

/// The filter of the table, which stands where the footer says.
fn read_filter<P: Port>(
    alloc: Global,
    port: &mut P,
    file: &P::File,
    row: &TableRow,
    footer: &Footer,
) -> Result<Filter, TableFault>
    requires { IsFooterOf row.now footer.now }
    ensures filter { IfOk result
        (λ filter. IsTrue P.File.tells
        → filter ≡ take footer.now.filter_len (drop footer.now.filter (P.File.bytes file.now))) }
    ensures long { IfOk result (λ filter. length filter ≡ footer.now.filter_len) }
    ensures damaged { IfErr result
        (λ why. IsDamage why → IsTrue P.File.tells → length (P.File.bytes file.now) ≡ row.now.bytes
        → ⊥) }
    ensures table { IfErr result (TellsTable row.now.number) }
    ensures place { IfErr result (IsToldAt (λ at. at ≡ footer.now.filter)) }
    ensures port { ReadsAtMost P.Port 1 port.old port.new (result ≡ Err Fault) }
{
    let bytes = match read_at(alloc, port, file, footer.filter, footer.filter_len as usize) {
        Ok(bytes) => bytes,
        Err(why) => return Err(why),
    };
    let bytes = bytes.as_slice();
    let damaged = TableFault::Damaged {
        table: row.number,
        at: footer.filter,
    };
    if bytes.len() != footer.filter_len as usize {
        return Err(damaged);
    }
    match Filter::read(alloc, bytes) {
        Ok(filter) => Ok(filter),
        Err(FilterFault::Form) => Err(damaged),
        Err(FilterFault::Memory) => Err(TableFault::Memory),
    }
}

impl<F: TableHandle> Table<F> {
    /// Opens the table of a row: finds its file, and reads footer, index and filter, in this order.
    ///
    /// It makes three reads at most, and up to 62 more to find where a file ends that is too short.
    ///
    /// `Damaged` comes only where the file isn't there, or where its length, its footer, its index or the
    /// filter's length disagree with the row, and tells the first place of these: the file's length, where
    /// it is shorter than the row tells. Over devices that don't tell their bytes that place isn't behind
    /// the row's end. `Fault` comes only where the port's count of faults rose.
    pub fn open<P: Port<File = F>>(
        alloc: Global,
        port: &mut P,
        row: TableRow,
    ) -> Result<Table<F>, TableFault>
        // what it gives
        ensures row { IfOk result (λ table. table.row ≡ row) }
        ensures number { IfOk result (λ table. F.number table.file ≡ row.number) }
        ensures found { IfOk result
            (λ table. IsTrue F.tells
            → (P.table_files port.old).sealed row.number ≡ Some (F.bytes table.file)) }
        ensures opened { IfOk result
            (λ table. IsTrue F.tells → OpensAs row table.items table.filter (F.bytes table.file)) }
        ensures fits { IfOk result (λ table. FitsRow row table.items table.filter) }
        // when it fails
        ensures damaged { IfErr result
            (λ why. IsDamage why → IsTrue F.tells → (bytes : List ℕ)
            → (P.table_files port.old).sealed row.number ≡ Some bytes → IsNoTable row bytes) }
        ensures place { IfErr result (λ why. IsTrue F.tells → (bytes : List ℕ) →
            (P.table_files port.old).sealed row.number ≡ Some bytes →
            IsToldAt (IsPlaceOfDamage row bytes) why) }
        ensures absent { IfErr result (λ why. IsTrue F.tells →
            (P.table_files port.old).sealed row.number ≡ None → IsToldAt (λ at. at ≡ 0) why) }
        ensures by_row { IfErr result (IsToldAt (λ at. at ≤ row.bytes)) }
        ensures table { IfErr result (TellsTable row.number) }
        // what stays
        ensures port { ReadsAtMost P.Port 65 port.old port.new (result ≡ Err Fault) }
        ensures few { OnOk result (P.reads port.new ≤ P.reads port.old + 3) }
        ensures unread { IsTrue F.tells → (P.table_files port.old).sealed row.number ≡ None
            → P.reads port.new ≡ P.reads port.old }
    {
        let found = match port.find(row.number) {
            Ok(found) => found,
            Err(_) => return Err(TableFault::Fault),
        };
        let file = match found {
            Some(file) => file,
            None => {
                return Err(TableFault::Damaged {
                    table: row.number,
                    at: 0,
                });
            }
        };
        if row.bytes < 48 {
            return Err(tiny_fault(alloc, port, &file, &row));
        }
        let footer = match read_footer(alloc, port, &file, &row) {
            Ok(footer) => footer,
            Err(why) => return Err(why),
        };
        let items = match read_index(alloc, port, &file, &row, &footer) {
            Ok(items) => items,
            Err(why) => return Err(why),
        };
        let filter = match read_filter(alloc, port, &file, &row, &footer) {
            Ok(filter) => filter,
            Err(why) => return Err(why),
        };
        Ok(Table {
            row,
            file,
            items,
            filter,
        })
    }
}
