//! Tables that are written.

ghost use Rattle.std.specs.Prelude.{◌≡◌, ◌⊎◌, ◌<◌, ◌≤◌, ◌+◌, ◌-◌, ◌++◌, ◌∷◌, [], List, Some, None, Err, length, IsTrue, IsSome, IfOk, IfErr, OnOk, OnErr};
ghost use Rattle.disk_model.specs.Images.{Rose};
ghost use Rattle.peb_base.specs.Entries.{AreSorted};
ghost use Rattle.peb_base.specs.EntryRefs.{entry_of};
ghost use Rattle.peb_base.specs.Tables.{last_key};
ghost use Rattle.peb_base.specs.declared.entry.Entry.{Entry};
ghost use Rattle.block_form.specs.Form.{block_bytes};
ghost use Rattle.disk_model.specs.Tables.{with_table};
ghost use Rattle.table_file.specs.Form.{last_number, body_bytes, blocks_of, blocks_table, with_last, footer_bytes};
ghost use Rattle.table_file.specs.Gathers.{Gathers};
ghost use Rattle.table_file.specs.Indexes.{Indexes};
ghost use Rattle.table_file.specs.Limits.{index_fault, blocks_fault, push_fault, IsRefused};
ghost use Rattle.table_file.specs.Sums.{Sums, EndsWith};
ghost use Rattle.table_file.specs.Tables.{IsTableOf, IsRowAt};
ghost use Rattle.table_file.specs.Taking.{last_length, pushed_length, rest_length, Takes};
ghost use Rattle.table_file.specs.declared.put_fault.PutFault.TheVariants.{Fault};

use crate::filling::filter_with;
use crate::footer::{Footer, footer_array};
use crate::index::Index;
use crate::put_fault::PutFault;
use crate::spelling::index_text;
use crate::summary::Summary;
use crate::table::Table;
use block_form::BlockBuilder;
use disk_model::Maker;
use peb_base::{EntryRef, LimitKind, Memory, Options, mixed};
use std::alloc::Global;

/// The most entries that a table has.
const MOST_ENTRIES: u64 = 1_717_986_918;

/// The writer of tables, one after another.
///
/// It keeps the block that is begun, the index, what the row tells, and the hash of each key, since
/// the filter is built when the number of entries is known.
#[derive(Drop)]
pub struct TableWriter {
    alloc: Global,
    builder: BlockBuilder,
    index: Index,
    hashes: Vec<u64>,
    summary: Summary,
    number: u64,
    level: u8,
    ghost room: { 5 < builder.full },
}

/// Forgets the entries of a begun block.
fn begin_block(builder: &mut BlockBuilder)
    ensures { builder.new ≡ record builder.old { entries = [] } }
{
    let empty = builder.is_empty();
    if empty {
        return;
    }
    builder.finish();
}

/// Writes the begun block, which has an entry, and keeps its item.
fn close_block<M: Maker>(
    alloc: Global,
    builder: &mut BlockBuilder,
    index: &mut Index,
    summary: &Summary,
    maker: &mut M,
) -> Result<(), PutFault>
    requires some { 0 < length builder.old.entries }
    requires begun { IsSome (M.begun maker.old) }
    requires last { (es : List Entry) × Sums summary.now es × AreSorted es × (0 < length es) }
    ensures builder { builder.new ≡ record builder.old { entries = [] } }
    ensures index { OnOk result
        ((blocks : List (List Entry)) → Indexes index.old blocks
        → last_key builder.old.entries ≡ summary.now.largest
        → last_number builder.old.entries ≡ summary.now.latest
        → Indexes index.new (blocks ++ builder.old.entries ∷ [])) }
    ensures written { OnOk result
        (IsTrue M.File.tells → M.written maker.new ≡ M.written maker.old
        ++ block_bytes builder.old.entries) }
    ensures refused { IsRefused
        (index_fault (index.old.bytes + 22 + length summary.now.largest)) result }
    ensures taken { Takes (length (block_bytes builder.old.entries))
        (M.taken maker.old) (M.taken maker.new) result }
    ensures begun { M.begun maker.new ≡ M.begun maker.old }
    ensures sealed { M.sealed maker.new ≡ M.sealed maker.old }
    ensures gone { M.gone maker.new ≡ M.gone maker.old }
    ensures later { M.faults maker.old ≤ M.faults maker.new }
    ensures cause { result ≡ Err Fault → Rose (M.faults maker.old) (M.faults maker.new) }
{
    let bytes = builder.finish();
    index.add(alloc, bytes.len(), summary.largest(), summary.latest())?;
    maker.write(bytes)?;
    Ok(())
}

/// Closes the begun block, if it has an entry.
fn close_last<M: Maker>(
    alloc: Global,
    builder: &mut BlockBuilder,
    index: &mut Index,
    summary: &Summary,
    maker: &mut M,
) -> Result<(), PutFault>
    requires begun { IsSome (M.begun maker.old) }
    requires last { (es : List Entry) × Sums summary.now es × AreSorted es × (0 < length es) }
    ensures builder { OnOk result (builder.new ≡ record builder.old { entries = [] }) }
    ensures index { OnOk result
        ((blocks : List (List Entry)) → Indexes index.old blocks
        → EndsWith summary.now builder.old.entries
        → Indexes index.new (with_last blocks builder.old.entries)) }
    ensures written { OnOk result
        (IsTrue M.File.tells → (blocks : List (List Entry))
        → M.written maker.old ≡ body_bytes blocks
        → M.written maker.new ≡ body_bytes (with_last blocks builder.old.entries)) }
    ensures refused { (blocks : List (List Entry)) → Indexes index.old blocks
        → EndsWith summary.now builder.old.entries
        → IsRefused (blocks_fault (with_last blocks builder.old.entries)) result }
    ensures taken { Takes (last_length builder.old.entries)
        (M.taken maker.old) (M.taken maker.new) result }
    ensures full { builder.new.full ≡ builder.old.full }
    ensures begun { M.begun maker.new ≡ M.begun maker.old }
    ensures sealed { M.sealed maker.new ≡ M.sealed maker.old }
    ensures gone { M.gone maker.new ≡ M.gone maker.old }
    ensures later { M.faults maker.old ≤ M.faults maker.new }
    ensures cause { result ≡ Err Fault → Rose (M.faults maker.old) (M.faults maker.new) }
{
    if builder.is_empty() {
        return Ok(());
    }
    match close_block(alloc, builder, index, summary, maker) {
        Ok(()) => Ok(()),
        Err(fault) => Err(fault),
    }
}

/// Writes what follows the blocks, and seals the table.
fn write_tail<M: Maker>(
    maker: &mut M,
    index: &[u8],
    filter: &[u8],
    footer: Footer,
) -> Result<M::File, PutFault>
    requires { IsSome (M.begun maker.old) }
    ensures number { IfOk result (λ file. M.begun maker.old ≡ Some (M.File.number file)) }
    ensures bytes { IfOk result
        (λ file. IsTrue M.File.tells → M.File.bytes file ≡ M.written maker.old
        ++ (index.now ++ (filter.now ++ footer_bytes footer))) }
    ensures sealed { IfOk result
        (λ file. IsTrue M.File.tells
        → M.sealed maker.new
        ≡ with_table (M.File.number file) (M.File.bytes file) (M.sealed maker.old)) }
    ensures taken { Takes (length index.now + (length filter.now + 48))
        (M.taken maker.old) (M.taken maker.new) result }
    ensures ended { OnOk result (M.begun maker.new ≡ None) }
    ensures unended { OnErr result (M.begun maker.new ≡ M.begun maker.old) }
    ensures unsealed { OnErr result (M.sealed maker.new ≡ M.sealed maker.old) }
    ensures gone { M.gone maker.new ≡ M.gone maker.old }
    ensures later { M.faults maker.old ≤ M.faults maker.new }
    ensures fault { IfErr result (λ fault. fault ≡ Fault) }
    ensures cause { OnErr result (Rose (M.faults maker.old) (M.faults maker.new)) }
{
    maker.write(index)?;
    maker.write(filter)?;
    maker.write(&footer_array(footer))?;
    let file = maker.seal()?;
    Ok(file)
}

/// Writes what follows the blocks, seals the table, and gives it.
fn seal_table<M: Maker>(
    alloc: Global,
    index: &mut Index,
    hashes: &[u64],
    summary: &Summary,
    number: u64,
    level: u8,
    maker: &mut M,
) -> Result<Table<M::File>, PutFault>
    requires begun { M.begun maker.old ≡ Some number }
    requires entries { (es : List Entry) × (blocks : List (List Entry))
        × Gathers index.old hashes.now summary.now blocks es }
    ensures table { IfOk result
        (λ table. (es : List Entry) (blocks : List (List Entry))
        → Gathers index.old hashes.now summary.now blocks es
        → (IsTrue M.File.tells → M.written maker.old ≡ body_bytes blocks)
        → IsTableOf M.File.TableHandle table blocks es) }
    ensures row { IfOk result (λ table. IsRowAt table.row number level 0) }
    ensures sealed { IfOk result
        (λ table. IsTrue M.File.tells
        → M.sealed maker.new ≡ with_table number (M.File.bytes table.file) (M.sealed maker.old)) }
    ensures fault { IfErr result (λ fault. (fault ≡ PutFault.Memory) ⊎ (fault ≡ PutFault.Fault)) }
    ensures taken { (es : List Entry) (blocks : List (List Entry))
        → Gathers index.old hashes.now summary.now blocks es
        → Takes (length (blocks_table number blocks es) - length (body_bytes blocks))
        (M.taken maker.old) (M.taken maker.new) result }
    ensures ended { OnOk result (M.begun maker.new ≡ None) }
    ensures unended { OnErr result (M.begun maker.new ≡ M.begun maker.old) }
    ensures unsealed { OnErr result (M.sealed maker.new ≡ M.sealed maker.old) }
    ensures gone { M.gone maker.new ≡ M.gone maker.old }
    ensures later { M.faults maker.old ≤ M.faults maker.new }
    ensures cause { result ≡ Err Fault → Rose (M.faults maker.old) (M.faults maker.new) }
{
    let text = index_text(alloc, index.items())?;
    let filter = filter_with(alloc, hashes).map_err(|_| PutFault::Memory)?;
    let end = index.end();
    let footer = Footer {
        number,
        index: end,
        index_len: text.len() as u32,
        filter: end + text.len() as u64,
        filter_len: filter.bytes().len() as u32,
        entries: hashes.len() as u64,
    };
    let bytes = footer.filter + filter.bytes().len() as u64 + 48;
    let row = summary.row(alloc, number, level, bytes)?;
    let file = write_tail(maker, &text, filter.bytes(), footer)?;
    let items = index.take(alloc);
    Ok(Table {
        row,
        file,
        items,
        filter,
    })
}

impl TableWriter {
    ghost use Rattle.table_file.specs.Writing.{block_length, HasPushed};

    /// Takes the buffer for a block. The writer of one job writes its tables one after another.
    pub fn new(alloc: Global, options: &Options) -> Result<TableWriter, Memory>
        ensures { IfOk result (λ writer. block_length writer ≡ options.now.block_bytes) }
    {
        Ok(TableWriter {
            alloc,
            builder: BlockBuilder::new(alloc, options)?,
            index: Index::new(alloc),
            hashes: Vec::new(alloc),
            summary: Summary::new(),
            number: 0,
            level: 0,
        })
    }

    /// Begins the table of this number, which is to be one of this level. The maker takes no byte.
    ///
    /// `Fault` comes only where the maker's count of faults rose; then what it had begun is begun as
    /// before, or nothing is.
    pub fn start<M: Maker>(&mut self, maker: &mut M, number: u64, level: u8) -> Result<(), PutFault>
        // what it gives
        ensures begun { OnOk result
            (HasPushed M.File.tells (M.begun maker.new) (M.written maker.new) self.new []) }
        ensures number { OnOk result (self.new.number ≡ number) }
        ensures level { OnOk result (self.new.level ≡ level) }
        // what it leaves
        ensures earlier { OnErr result ((M.begun maker.new ≡ None)
            ⊎ ((M.begun maker.new ≡ M.begun maker.old)
            × (M.written maker.new ≡ M.written maker.old))) }
        // when it fails
        ensures fault { IfErr result (λ why. why ≡ PutFault.Fault) }
        ensures later { M.faults maker.old ≤ M.faults maker.new }
        ensures cause { result ≡ Err Fault → Rose (M.faults maker.old) (M.faults maker.new) }
        // what stays
        ensures block { block_length self.new ≡ block_length self.old }
        ensures taken { M.taken maker.new ≡ M.taken maker.old }
        ensures sealed { M.sealed maker.new ≡ M.sealed maker.old }
        ensures gone { M.gone maker.new ≡ M.gone maker.old }
    {
        maker.begin(number)?;
        begin_block(&mut self.builder);
        self.index = Index::new(self.alloc);
        self.hashes.clear();
        self.summary = Summary::new();
        self.number = number;
        self.level = level;
        Ok(())
    }

    /// Appends an entry, which comes after those that were pushed since `start`. The
    /// maker is as the writer's last call left it. It takes the bytes of the block that the entry
    /// fills, if it fills one, and at an error some first of them or none.
    ///
    /// `Limit` comes exactly where the table has all the entries that a table may have, or where
    /// the entry fills a block whose item would make the index too long. `Fault` comes only where
    /// the maker's count of faults rose. After an error the writer is good for another table alone.
    pub fn push<M: Maker>(&mut self, maker: &mut M, entry: EntryRef<'_>) -> Result<(), PutFault>
        requires { (es : List Entry)
            × HasPushed M.File.tells (M.begun maker.old) (M.written maker.old) self.old es
            × AreSorted (es ++ entry_of entry ∷ []) }
        // what it gives
        ensures pushed { OnOk result
            ((es : List Entry)
            → HasPushed M.File.tells (M.begun maker.old) (M.written maker.old) self.old es
            → AreSorted (es ++ entry_of entry.entry ∷ [])
            → HasPushed M.File.tells (M.begun maker.new) (M.written maker.new) self.new
            (es ++ entry_of entry.entry ∷ [])) }
        // what it leaves
        ensures taken { (es : List Entry)
            → HasPushed M.File.tells (M.begun maker.old) (M.written maker.old) self.old es
            → AreSorted (es ++ entry_of entry.entry ∷ [])
            → Takes (pushed_length (block_length self.old) es (entry_of entry.entry))
            (M.taken maker.old) (M.taken maker.new) result }
        // when it fails
        ensures limit { (es : List Entry)
            → HasPushed M.File.tells (M.begun maker.old) (M.written maker.old) self.old es
            → AreSorted (es ++ entry_of entry.entry ∷ [])
            → IsRefused (push_fault (block_length self.old) es (entry_of entry.entry)) result }
        ensures later { M.faults maker.old ≤ M.faults maker.new }
        ensures cause { result ≡ Err Fault → Rose (M.faults maker.old) (M.faults maker.new) }
        // what stays
        ensures number { self.new.number ≡ self.old.number }
        ensures level { self.new.level ≡ self.old.level }
        ensures block { block_length self.new ≡ block_length self.old }
        ensures begun { M.begun maker.new ≡ M.begun maker.old }
        ensures sealed { M.sealed maker.new ≡ M.sealed maker.old }
        ensures gone { M.gone maker.new ≡ M.gone maker.old }
    {
        if self.hashes.len() as u64 >= MOST_ENTRIES {
            return Err(PutFault::Limit(LimitKind::Entries, MOST_ENTRIES));
        }
        self.hashes.push(mixed(entry.key))?;
        self.summary.add(&entry);
        self.builder.push(entry);
        if !self.builder.is_full() {
            return Ok(());
        }
        match close_block(
            self.alloc,
            &mut self.builder,
            &mut self.index,
            &self.summary,
            maker,
        ) {
            Ok(()) => Ok(()),
            Err(fault) => Err(fault),
        }
    }

    /// Closes the table, of which an entry was pushed since `start`, makes it durable and gives it.
    /// The maker is as the writer's last call left it. It takes what the table lacks: the last
    /// block, index, filter and footer, and at an error some first bytes of these or none.
    ///
    /// `Limit` comes exactly where the last block's item would make the index too long.
    /// `Fault` comes only where the maker's count of faults rose. After an error the writer is
    /// good for another table alone, as after Ok.
    pub fn finish<M: Maker>(&mut self, maker: &mut M) -> Result<Table<M::File>, PutFault>
        requires { (es : List Entry)
            × HasPushed M.File.tells (M.begun maker.old) (M.written maker.old) self.old es
            × (0 < length es) }
        // what it gives
        ensures table { IfOk result
            (λ table. (es : List Entry)
            → HasPushed M.File.tells (M.begun maker.old) (M.written maker.old) self.old es
            → 0 < length es
            → IsTableOf M.File.TableHandle table (blocks_of (block_length self.old) es) es) }
        ensures row { IfOk result (λ table. IsRowAt table.row self.old.number self.old.level 0) }
        // what it leaves
        ensures sealed { IfOk result
            (λ table. IsTrue M.File.tells
            → M.sealed maker.new
            ≡ with_table self.old.number (M.File.bytes table.file) (M.sealed maker.old)) }
        ensures unsealed { OnErr result (M.sealed maker.new ≡ M.sealed maker.old) }
        ensures ended { OnOk result (M.begun maker.new ≡ None) }
        ensures unended { OnErr result (M.begun maker.new ≡ M.begun maker.old) }
        ensures taken { (es : List Entry)
            → HasPushed M.File.tells (M.begun maker.old) (M.written maker.old) self.old es
            → 0 < length es
            → Takes (rest_length (block_length self.old) self.old.number es)
            (M.taken maker.old) (M.taken maker.new) result }
        // when it fails
        ensures limit { (es : List Entry)
            → HasPushed M.File.tells (M.begun maker.old) (M.written maker.old) self.old es
            → 0 < length es
            → IsRefused (blocks_fault (blocks_of (block_length self.old) es)) result }
        ensures later { M.faults maker.old ≤ M.faults maker.new }
        ensures cause { result ≡ Err Fault → Rose (M.faults maker.old) (M.faults maker.new) }
        // what stays
        ensures block { block_length self.new ≡ block_length self.old }
        ensures gone { M.gone maker.new ≡ M.gone maker.old }
    {
        match close_last(
            self.alloc,
            &mut self.builder,
            &mut self.index,
            &self.summary,
            maker,
        ) {
            Ok(()) => {}
            Err(fault) => return Err(fault),
        }
        match seal_table(
            self.alloc,
            &mut self.index,
            &self.hashes,
            &self.summary,
            self.number,
            self.level,
            maker,
        ) {
            Ok(table) => Ok(table),
            Err(fault) => Err(fault),
        }
    }
}
