//! How the table of a flush is written.

ghost use Rattle.std.specs.Prelude.{◌≡◌, ◌≤◌, ◌<◌, [], Err, None, length, IsTrue, IfOk, IfErr, OnOk, OnErr};
ghost use Rattle.disk_model.specs.Images.{Rose};
ghost use Rattle.disk_model.specs.Tables.{with_table};
ghost use Rattle.peb_base.specs.Profiles.{column};
ghost use Rattle.peb_base.specs.Tables.{table_length};
ghost use Rattle.table_file.specs.Form.{blocks_of, table_bytes};
ghost use Rattle.table_file.specs.Limits.{blocks_fault};
ghost use Rattle.table_file.specs.Tables.{IsTableOf, IsRowAt};
ghost use Rattle.table_file.specs.Taking.{closed_length, Takes};
ghost use Rattle.table_file.specs.Writing.{block_length, HasPushed};
ghost use Rattle.table_file.specs.declared.put_fault.PutFault.TheVariants.{Fault};
ghost use Rattle.compactor.specs.Stopping.{table_fault, IsMet};

use disk_model::Maker;
use mem_table::MemView;
use peb_base::{Cursor, Options};
use std::alloc::Global;
use table_file::{PutFault, Table, TableWriter, law_length, law_pieces};

/// Pushes the entries of a view in order.
fn push_all<M: Maker>(
    view: &MemView,
    writer: &mut TableWriter,
    maker: &mut M,
) -> Result<(), PutFault>
    requires { HasPushed M.File.tells (M.begun maker.old) (M.written maker.old) writer.old [] }
    // what it gives
    ensures pushed { OnOk result
        (HasPushed M.File.tells (M.begun maker.new) (M.written maker.new) writer.new
        view.now) }
    // what it leaves
    ensures taken { Takes (closed_length (block_length writer.old) view.now)
        (M.taken maker.old) (M.taken maker.new) result }
    // when it fails
    ensures limit { IfErr result
        (IsMet (table_fault (block_length writer.old) view.now)) }
    ensures ends { OnOk result (table_fault (block_length writer.old) view.now
        ≡ blocks_fault (blocks_of (block_length writer.old) view.now)) }
    ensures never_falls { M.faults maker.old ≤ M.faults maker.new }
    ensures cause { result ≡ Err Fault → Rose (M.faults maker.old) (M.faults maker.new) }
    // what stays
    ensures number { writer.new.number ≡ writer.old.number }
    ensures level { writer.new.level ≡ writer.old.level }
    ensures block { block_length writer.new ≡ block_length writer.old }
    ensures sealed { M.sealed maker.new ≡ M.sealed maker.old }
    ensures gone { M.gone maker.new ≡ M.gone maker.old }
{
    law_pieces();
    let mut cursor = view.cursor().map_err(|_| PutFault::Memory)?;
    let Ok(()) = cursor.first() else {
        unreachable!()
    };
    'each: while let Some(entry) = cursor.at() {
        match writer.push(maker, entry) {
            Ok(()) => {}
            Err(fault) => return Err(fault),
        }
        let Ok(()) = cursor.next() else {
            unreachable!()
        };
    }
    Ok(())
}

/// Writes the entries of a view, of which there is one at least, as the table of this number at
/// level 0.
///
/// The maker takes the table's bytes, and at an error some first of them or none.
pub fn write_table<M: Maker>(
    alloc: Global,
    number: u64,
    view: &MemView,
    maker: &mut M,
    options: &Options,
) -> Result<Table<M::File>, PutFault>
    requires { 0 < length view.now }
    // what it gives
    ensures holds { IfOk result (λ table. IsTableOf M.File.TableHandle table
        (blocks_of options.now.block_bytes view.now) view.now) }
    ensures row { IfOk result (λ table. IsRowAt table.row number 0 0) }
    ensures length { IfOk result (λ table. table.row.bytes
        ≡ table_length (column options.now.profile) view.now) }
    // what it leaves
    ensures taken { Takes (table_length (column options.now.profile) view.now)
        (M.taken maker.old) (M.taken maker.new) result }
    ensures sealed { OnOk result (IsTrue M.File.tells → M.sealed maker.new
        ≡ with_table number (table_bytes options.now.block_bytes number view.now)
        (M.sealed maker.old)) }
    ensures unsealed { OnErr result (M.sealed maker.new ≡ M.sealed maker.old) }
    // when it fails
    ensures limit { IfErr result
        (IsMet (table_fault options.now.block_bytes view.now)) }
    ensures within { OnOk result (table_fault options.now.block_bytes view.now
        ≡ None) }
    ensures never_falls { M.faults maker.old ≤ M.faults maker.new }
    ensures cause { result ≡ Err Fault → Rose (M.faults maker.old) (M.faults maker.new) }
    // what stays
    ensures gone { M.gone maker.new ≡ M.gone maker.old }
{
    law_pieces();
    law_length();
    let mut writer = TableWriter::new(alloc, options).map_err(|_| PutFault::Memory)?;
    match writer.start(maker, number, 0) {
        Ok(()) => {}
        Err(fault) => return Err(fault),
    }
    match push_all(view, &mut writer, maker) {
        Ok(()) => {}
        Err(fault) => return Err(fault),
    }
    match writer.finish(maker) {
        Ok(table) => Ok(table),
        Err(fault) => Err(fault),
    }
}
