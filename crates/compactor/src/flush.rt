//! Flushes: a frozen memtable becomes a table of level 0.

ghost use Rattle.std.specs.Prelude.{◌≡◌, ◌≤◌, ◌<◌, ◌+◌, ◌-◌, ◌∷◌, [], Err, None, length, map, IsTrue, IfOk, IfErr, OnOk, OnErr};
ghost use Rattle.std.specs.Arc.{arc_value};
ghost use Rattle.disk_model.specs.Images.{Rose};
ghost use Rattle.disk_model.specs.Tables.{capped, with_table};
ghost use Rattle.flsm_model.specs.Shape.{outputs_of};
ghost use Rattle.flsm_model.specs.declared.job_kind.JobKind.TheVariants as kinds;
ghost use Rattle.peb_base.specs.Profiles.{column};
ghost use Rattle.peb_base.specs.Tables.{table_length};
ghost use Rattle.table_file.specs.Form.{table_bytes};
ghost use Rattle.table_file.specs.Taking.{Takes};
ghost use Rattle.table_file.specs.declared.put_fault.PutFault.TheVariants.{Fault};
ghost use Rattle.compactor.specs.Flushing.{IsFlushOf, IsFlushed, SealsAllOrNothing};
ghost use Rattle.compactor.specs.Stopping.{table_fault, cause_of, IsMet, IsStoppedBy};

use crate::choosing::choose;
use crate::writing::write_table;
use disk_model::{Maker, TableHandle};
use flsm_model::{Chosen, Edit, Job, ShortCause};
use mem_table::MemView;
use peb_base::{List, Memory, Number, Options};
use std::alloc::Global;
use std::sync::Arc;
use table_file::{Finished, PutFault, Short, Table};

/// The fault as the cause of a job's end.
fn cause_for(fault: PutFault) -> ShortCause
    ensures { result ≡ cause_of fault }
{
    match fault {
        PutFault::Fault => ShortCause::Fault,
        PutFault::Limit(kind, limit) => ShortCause::Limit(kind, limit),
        PutFault::Memory => ShortCause::Memory,
    }
}

/// The end of a job by this fault, whose maker had taken so many bytes before it and so many now.
fn short_by(fault: PutFault, before: u64, now: u64) -> Short
    requires { before ≤ now }
    ensures cause { result.cause ≡ cause_of fault }
    ensures bytes { result.bytes ≡ now - before }
{
    Short {
        cause: cause_for(fault),
        bytes: now - before,
    }
}

/// A table and the keys that were chosen, as what a flush has made.
fn finished_with<F: TableHandle>(
    alloc: Global,
    table: Table<F>,
    chosen: Vec<Chosen>,
) -> Result<Finished<F>, PutFault>
    ensures edit { IfOk result (λ finished. finished.edit
        ≡ Edit.Flush table.row 0 0 0 chosen.items) }
    ensures table { IfOk result (λ finished. map arc_value finished.tables.items
        ≡ table ∷ []) }
    ensures bytes { IfOk result (λ finished. finished.bytes ≡ table.row.bytes) }
    ensures worker { IfOk result (λ finished. finished.worker ≡ 0) }
    ensures memory { IfErr result (λ fault. fault ≡ PutFault.Memory) }
{
    let row = table.row().copy(alloc).map_err(|_| PutFault::Memory)?;
    let bytes = row.bytes;
    let mut tables = Vec::new(alloc);
    tables.push(Arc::new(alloc, table)?)?;
    let none = Number::of_packed(0);
    let edit = Edit::Flush {
        row,
        from: none,
        to: none,
        log: 0,
        chosen: List::of(chosen),
    };
    Ok(Finished {
        worker: 0,
        edit,
        tables,
        bytes,
    })
}

/// Chooses keys among the entries of a view, writes their table, and gives both as what a flush has
/// made.
fn made_of<M: Maker>(
    alloc: Global,
    number: u64,
    view: &MemView,
    maker: &mut M,
    options: &Options,
) -> Result<Finished<M::File>, PutFault>
    requires { 0 < length view.now }
    // what it gives
    ensures edit { IfOk result (λ finished.
        IsFlushOf (column options.now.profile) number view.now finished.edit) }
    ensures table { IfOk result (λ finished. IsFlushed M.File.TableHandle options.now.block_bytes
        view.now (map arc_value finished.tables.items) (outputs_of finished.edit)) }
    ensures bytes { IfOk result (λ finished. finished.bytes
        ≡ table_length (column options.now.profile) view.now) }
    ensures worker { IfOk result (λ finished. finished.worker ≡ 0) }
    // what it leaves
    ensures taken { Takes (table_length (column options.now.profile) view.now)
        (M.taken maker.old) (M.taken maker.new) result }
    ensures sealed { OnOk result (IsTrue M.File.tells → M.sealed maker.new
        ≡ with_table number (table_bytes options.now.block_bytes number view.now)
        (M.sealed maker.old)) }
    ensures unsealed { OnErr result (IsTrue M.File.tells → SealsAllOrNothing number
        (table_bytes options.now.block_bytes number view.now)
        (M.sealed maker.old) (M.sealed maker.new)) }
    // when it fails
    ensures limit { IfErr result (IsMet (table_fault options.now.block_bytes view.now)) }
    ensures within { OnOk result (table_fault options.now.block_bytes view.now ≡ None) }
    ensures never_falls { M.faults maker.old ≤ M.faults maker.new }
    ensures cause { result ≡ Err Fault → Rose (M.faults maker.old) (M.faults maker.new) }
    // what stays
    ensures gone { M.gone maker.new ≡ M.gone maker.old }
{
    let chosen = choose(alloc, view, options).map_err(|_| PutFault::Memory)?;
    let table = match write_table(alloc, number, view, maker, options) {
        Ok(table) => table,
        Err(fault) => return Err(fault),
    };
    match finished_with(alloc, table, chosen) {
        Ok(finished) => Ok(finished),
        Err(fault) => Err(fault),
    }
}

/// Flushes a frozen memtable: writes its entries, of which there is one at least, as the table of
/// the job's number, and chooses the keys of its puts that may be guards of some level.
///
/// The edit stands at level 0 and tier 0. What the store alone knows is 0: the edit's `from`, `to`
/// and `log`, and the `worker`; and keys that were chosen before are among the chosen ones. `bytes`
/// is what the maker took, after an error too, and at most the table's length.
///
/// `Limit` is the first limit that a writer of this table answers, and where there is one Ok never
/// comes; `Fault` comes only where the maker's count of faults rose; `Damaged` never comes. After an
/// error the maker has sealed the table or nothing.
pub fn run_flush<M: Maker>(
    alloc: Global,
    job: &Job,
    view: &MemView,
    maker: &mut M,
    options: &Options,
) -> Result<Finished<M::File>, Short>
    requires kind { job.now.kind ≡ kinds.Flush }
    requires some { 0 < length view.now }
    // what it gives
    ensures edit { IfOk result (λ finished.
        IsFlushOf (column options.now.profile) job.now.numbers view.now finished.edit) }
    ensures table { IfOk result (λ finished. IsFlushed M.File.TableHandle options.now.block_bytes
        view.now (map arc_value finished.tables.items) (outputs_of finished.edit)) }
    ensures bytes { IfOk result (λ finished. finished.bytes
        ≡ table_length (column options.now.profile) view.now) }
    ensures worker { IfOk result (λ finished. finished.worker ≡ 0) }
    // what it leaves
    ensures taken { IfOk result (λ finished. M.taken maker.new
        ≡ capped (M.taken maker.old + finished.bytes)) }
    ensures sealed { OnOk result (IsTrue M.File.tells → M.sealed maker.new
        ≡ with_table job.now.numbers
        (table_bytes options.now.block_bytes job.now.numbers view.now) (M.sealed maker.old)) }
    ensures spent { IfErr result (λ short. M.taken maker.new
        ≡ capped (M.taken maker.old + short.bytes)) }
    ensures unsealed { OnErr result (IsTrue M.File.tells → SealsAllOrNothing job.now.numbers
        (table_bytes options.now.block_bytes job.now.numbers view.now)
        (M.sealed maker.old) (M.sealed maker.new)) }
    // when it fails
    ensures bound { IfErr result (λ short. short.bytes
        ≤ table_length (column options.now.profile) view.now) }
    ensures within { OnOk result (table_fault options.now.block_bytes view.now ≡ None) }
    ensures cause { IfErr result (λ short. IsStoppedBy
        (table_fault options.now.block_bytes view.now)
        (M.faults maker.old) (M.faults maker.new) short.cause) }
    ensures never_falls { M.faults maker.old ≤ M.faults maker.new }
    // what stays
    ensures gone { M.gone maker.new ≡ M.gone maker.old }
{
    let before = maker.taken();
    match made_of(alloc, job.numbers, view, maker, options) {
        Ok(finished) => Ok(finished),
        Err(fault) => Err(short_by(fault, before, maker.taken())),
    }
}
