//! Cuts: guards are committed inside tables.

ghost use Rattle.std.specs.Prelude.{false, true, ◌&&◌, ◌==◌, nat_le, nat_lt, ◌≡◌, ◌⊎◌, ◌≤◌, ◌<◌, ◌+◌, ◌*◌, ◌^◌, ◌++◌, [], ℕ, List, Err, None, IsTrue, IfErr, IfOk, OnOk, OnErr, length, map};
ghost use Rattle.std.specs.Arc.{arc_value};
ghost use Rattle.std.specs.List.{AllZip, list_all};
ghost use Rattle.disk_model.specs.Images.{Rose};
ghost use Rattle.disk_model.specs.Tables.{capped};
ghost use Rattle.peb_base.specs.Profiles.{column};
ghost use Rattle.peb_base.specs.declared.entry.Entry.{Entry};
ghost use Rattle.flsm_model.specs.Fits.{lies_in, numbers_differ};
ghost use Rattle.flsm_model.specs.Jobs.{numbers_needed, job_range};
ghost use Rattle.flsm_model.specs.Made.{made_of, RowsSuit};
ghost use Rattle.flsm_model.specs.Outcomes.{level_into};
ghost use Rattle.flsm_model.specs.Shape.{Shape, outputs_of};
ghost use Rattle.flsm_model.specs.Trees.{Describes};
ghost use Rattle.flsm_model.specs.declared.job_kind.JobKind.TheVariants as kinds;
ghost use Rattle.flsm_model.specs.declared.short_cause.ShortCause.TheVariants as causes;
ghost use Rattle.table_file.specs.Pieces.{Piece, pieces_from, whole_length};
ghost use Rattle.table_file.specs.PieceWriting.{full_length, sealed_with};
ghost use Rattle.table_file.specs.Taking.{TakesAtMost};
ghost use Rattle.guard_commit.specs.Cutting.{cut_from, rows_of, bytes_in, entries_in, IsCutOf};
ghost use Rattle.guard_commit.specs.Joining.{HasJoined};
ghost use Rattle.guard_commit.specs.Reading.{IsHeld};
ghost use Rattle.guard_commit.specs.Stopping.{IsStoppedBy, IsUndamaged};
ghost use Rattle.guard_commit.specs.Writing.{told_by, work, HasWritten, only, IsOutside};

use crate::causes::{put_cause, short_by};
use crate::copying::{copy_keys, copy_rows, length_of};
use crate::writing::cut_tables;
use block_pool::Pool;
use disk_model::{Maker, Port, TableHandle};
use flsm_model::{Edit, Job, ShortCause};
use peb_base::{Memory, Options};
use std::alloc::Global;
use std::sync::Arc;
use table_file::{Finished, PieceWriter, Short, Table, law_length, law_pieces};

/// A writer of pieces at the job's level, numbered from the job's first number on.
fn writer_for<M: Maker>(
    alloc: Global,
    job: &Job,
    maker: &mut M,
    options: &Options,
) -> Result<PieceWriter<M::File>, ShortCause>
    // what it gives
    ensures written { IfOk result (λ w. HasWritten M.File.TableHandle
        (told_by M.Maker M.File.tells maker.old)
        (work (told_by M.Maker M.File.tells maker.new) w job.now.keys) (only [])) }
    ensures numbers { IfOk result (λ w. w.numbers ≡ job.now.numbers) }
    ensures level { IfOk result (λ w. w.level ≡ job.now.level) }
    ensures full { IfOk result (λ w. full_length w ≡ options.now.block_bytes) }
    ensures shut { IfOk result (λ w. w.is_open ≡ false) }
    // when it fails
    ensures memory { IfErr result (λ cause. cause ≡ causes.Memory) }
    // what stays
    ensures taken { M.taken maker.new ≡ M.taken maker.old }
    ensures sealed { OnErr result (M.sealed maker.new ≡ M.sealed maker.old) }
    ensures later { M.faults maker.old ≤ M.faults maker.new }
    ensures gone { M.gone maker.new ≡ M.gone maker.old }
{
    let Ok(mut pieces) = PieceWriter::new(alloc, options, job.level) else {
        return Err(ShortCause::Memory);
    };
    match pieces.begin(maker, job.numbers) {
        Ok(()) => Ok(pieces),
        Err(fault) => Err(put_cause(fault)),
    }
}

/// Cuts the job's tables, and gives the new ones.
fn cut_all<P: Port, M: Maker<File = P::File>>(
    alloc: Global,
    job: &Job,
    tables: &[Arc<Table<P::File>, Global>],
    port: &mut P,
    pool: &mut Pool,
    maker: &mut M,
    options: &Options,
) -> Result<Vec<Arc<Table<P::File>, Global>>, ShortCause>
    requires fits { job.now.numbers + length tables.now * (length job.now.keys + 1) < 2 ^ 64 }
    // what it gives
    ensures made { IfOk result (λ made. IsCutOf P.File.TableHandle options.now.block_bytes job.now
        (map arc_value tables.now) (map arc_value made.items)) }
    // what it leaves
    ensures taken { IfOk result (λ made. M.taken maker.new
        ≡ capped (M.taken maker.old + bytes_in (rows_of (map arc_value made.items)))) }
    ensures sealed { IfOk result (λ made. IsTrue P.File.tells → M.sealed maker.new
        ≡ sealed_with P.File.TableHandle (map arc_value made.items) (M.sealed maker.old)) }
    // when it fails
    ensures bound { OnErr result ((contents : List (List Entry))
        → AllZip (IsHeld P.File.TableHandle) (map arc_value tables.now) contents
        → TakesAtMost (whole_length options.now.block_bytes
        (cut_from job.now.numbers job.now.keys contents)) (M.taken maker.old) (M.taken maker.new)) }
    ensures stopped { IfErr result (IsStoppedBy P.File.TableHandle options.now.block_bytes
        job.now.keys (map arc_value tables.now)) }
    ensures sound { IfErr result (λ cause. (contents : List (List Entry))
        → AllZip (IsHeld P.File.TableHandle) (map arc_value tables.now) contents
        → IsUndamaged cause) }
    ensures rose { result ≡ Err causes.Fault → Rose (P.faults port.old) (P.faults port.new)
        ⊎ Rose (M.faults maker.old) (M.faults maker.new) }
    // what stays
    ensures back { (pool.new.out ≡ pool.old.out) × (pool.old.free ≤ pool.new.free) }
    ensures port { HasJoined P.Port port.old port.new }
    ensures later { M.faults maker.old ≤ M.faults maker.new }
    ensures grows { M.taken maker.old ≤ M.taken maker.new }
    ensures gone { M.gone maker.new ≡ M.gone maker.old }
    ensures elsewhere { IsTrue P.File.tells → (n : ℕ)
        → IsOutside job.now.numbers (length tables.now * (length job.now.keys + 1)) n
        → M.sealed maker.new n ≡ M.sealed maker.old n }
{
    let mut pieces = match writer_for(alloc, job, maker, options) {
        Ok(pieces) => pieces,
        Err(cause) => return Err(cause),
    };
    let keys = job.keys.items();
    match cut_tables(tables, job.numbers, keys, port, pool, &mut pieces, maker) {
        Ok(()) => {}
        Err(cause) => return Err(cause),
    }
    match pieces.finish(maker) {
        Ok(made) => Ok(made),
        Err(fault) => Err(put_cause(fault)),
    }
}

/// New tables as what a Cut has made.
fn finished_with<F: TableHandle>(
    alloc: Global,
    job: &Job,
    tables: Vec<Arc<Table<F>, Global>>,
) -> Result<Finished<F>, Memory>
    ensures edit { IfOk result (λ finished. finished.edit ≡ Edit.Cut job.now.level job.now.keys
        job.now.inputs (rows_of (map arc_value tables.items))) }
    ensures tables { IfOk result (λ finished. finished.tables.items ≡ tables.items) }
    ensures bytes { IfOk result (λ finished. finished.bytes
        ≡ capped (bytes_in (rows_of (map arc_value tables.items)))) }
    ensures worker { IfOk result (λ finished. finished.worker ≡ 0) }
{
    let bytes = length_of(&tables);
    let edit = Edit::Cut {
        level: job.level,
        keys: peb_base::List::of(copy_keys(alloc, job.keys.items())?),
        inputs: peb_base::List::of(Vec::from_slice(alloc, job.inputs.items())?),
        outputs: peb_base::List::of(copy_rows(alloc, &tables)?),
    };
    Ok(Finished {
        worker: 0,
        edit,
        tables,
        bytes,
    })
}

/// Cuts the job's tables, and gives the new ones and their edit.
fn cut_and_finish<P: Port, M: Maker<File = P::File>>(
    alloc: Global,
    job: &Job,
    tables: &[Arc<Table<P::File>, Global>],
    port: &mut P,
    pool: &mut Pool,
    maker: &mut M,
    options: &Options,
) -> Result<Finished<P::File>, ShortCause>
    requires fits { job.now.numbers + length tables.now * (length job.now.keys + 1) < 2 ^ 64 }
    // what it gives
    ensures edit { IfOk result (λ finished. finished.edit ≡ Edit.Cut job.now.level job.now.keys
        job.now.inputs (rows_of (map arc_value finished.tables.items))) }
    ensures made { IfOk result (λ finished. IsCutOf P.File.TableHandle options.now.block_bytes
        job.now (map arc_value tables.now) (map arc_value finished.tables.items)) }
    ensures bytes { IfOk result (λ finished. finished.bytes
        ≡ capped (bytes_in (outputs_of finished.edit))) }
    ensures worker { IfOk result (λ finished. finished.worker ≡ 0) }
    // what it leaves
    ensures taken { IfOk result (λ finished. M.taken maker.new
        ≡ capped (M.taken maker.old + finished.bytes)) }
    ensures sealed { IfOk result (λ finished. IsTrue P.File.tells → M.sealed maker.new
        ≡ sealed_with P.File.TableHandle (map arc_value finished.tables.items)
        (M.sealed maker.old)) }
    // when it fails
    ensures bound { OnErr result ((contents : List (List Entry))
        → AllZip (IsHeld P.File.TableHandle) (map arc_value tables.now) contents
        → TakesAtMost (whole_length options.now.block_bytes
        (cut_from job.now.numbers job.now.keys contents)) (M.taken maker.old) (M.taken maker.new)) }
    ensures stopped { IfErr result (IsStoppedBy P.File.TableHandle options.now.block_bytes
        job.now.keys (map arc_value tables.now)) }
    ensures sound { IfErr result (λ cause. (contents : List (List Entry))
        → AllZip (IsHeld P.File.TableHandle) (map arc_value tables.now) contents
        → IsUndamaged cause) }
    ensures rose { result ≡ Err causes.Fault → Rose (P.faults port.old) (P.faults port.new)
        ⊎ Rose (M.faults maker.old) (M.faults maker.new) }
    // what stays
    ensures back { (pool.new.out ≡ pool.old.out) × (pool.old.free ≤ pool.new.free) }
    ensures port { HasJoined P.Port port.old port.new }
    ensures later { M.faults maker.old ≤ M.faults maker.new }
    ensures grows { M.taken maker.old ≤ M.taken maker.new }
    ensures gone { M.gone maker.new ≡ M.gone maker.old }
    ensures elsewhere { IsTrue P.File.tells → (n : ℕ)
        → IsOutside job.now.numbers (length tables.now * (length job.now.keys + 1)) n
        → M.sealed maker.new n ≡ M.sealed maker.old n }
{
    let made = match cut_all(alloc, job, tables, port, pool, maker, options) {
        Ok(made) => made,
        Err(cause) => return Err(cause),
    };
    match finished_with(alloc, job, made) {
        Ok(finished) => Ok(finished),
        Err(_) => Err(ShortCause::Memory),
    }
}

/// Commits guards inside tables: reads each of the job's tables once, in order, and writes its entries
/// anew, all of them, in pieces that end before the job's keys. The tables are those of the job's
/// numbers, in order. The pieces of each table take as many numbers as there are ranges between the
/// keys, those of ranges without an entry too.
///
/// A table is read through a buffer of the pool, which grows where all are out, and through a fork of
/// the port; after each answer the buffer is back and the fork is joined. What the store alone knows is
/// 0: the `worker`. `bytes` is what the maker took, after an error too; over tables that hold entries it
/// is at most the length of the tables of all their pieces.
///
/// `Fault` comes only where the count of faults of the port or of the maker rose. `Damaged` comes only
/// where the bytes at the place that it tells are no block that agrees with the table's index and row, or
/// begin the block by which the row proves false: that up to which the table has more entries, or longer
/// keys and values, than the row tells, or else the last one, if the row isn't that of all entries.
/// It never comes over tables that hold entries. `Limit` is what stops a piece of one of the tables.
pub fn run_cut<P: Port, M: Maker<File = P::File>>(
    alloc: Global,
    job: &Job,
    tables: &[Arc<Table<P::File>, Global>],
    port: &mut P,
    pool: &mut Pool,
    maker: &mut M,
    options: &Options,
) -> Result<Finished<P::File>, Short>
    requires kind { job.now.kind ≡ kinds.Cut }
    requires inputs { job.now.inputs
        ≡ map (λ row. row.number) (rows_of (map arc_value tables.now)) }
    requires fits { job.now.numbers + numbers_needed job.now < 2 ^ 64 }
    // what it gives
    ensures edit { IfOk result (λ finished. finished.edit ≡ Edit.Cut job.now.level job.now.keys
        job.now.inputs (rows_of (map arc_value finished.tables.items))) }
    ensures made { IfOk result (λ finished. IsCutOf P.File.TableHandle options.now.block_bytes
        job.now (map arc_value tables.now) (map arc_value finished.tables.items)) }
    ensures describes { IfOk result (λ finished. (contents : List (List Entry))
        → AllZip (IsHeld P.File.TableHandle) (map arc_value tables.now) contents
        → AllZip (Describes (column options.now.profile)) (outputs_of finished.edit)
        (made_of job.now contents)) }
    ensures entries { IfOk result (λ finished. entries_in (outputs_of finished.edit)
        ≡ entries_in (rows_of (map arc_value tables.now))) }
    ensures levels { IfOk result (λ finished. list_all (λ r. r.level == level_into job.now
        && r.tier == 0) (outputs_of finished.edit) ≡ true) }
    ensures numbers { IfOk result (λ finished. list_all (λ r. nat_le job.now.numbers r.number
        && nat_lt r.number (job.now.numbers + numbers_needed job.now))
        (outputs_of finished.edit) ≡ true) }
    ensures differ { IfOk result (λ finished. numbers_differ (map (λ r. r.number)
        (outputs_of finished.edit)) ≡ true) }
    ensures suits { IfOk result (λ finished. (s : Shape)
        → list_all (lies_in (job_range job.now)) (rows_of (map arc_value tables.now)) ≡ true
        → RowsSuit (column options.now.profile) s job.now finished.edit) }
    ensures bytes { IfOk result (λ finished. finished.bytes
        ≡ capped (bytes_in (outputs_of finished.edit))) }
    ensures worker { IfOk result (λ finished. finished.worker ≡ 0) }
    // what it leaves
    ensures taken { IfOk result (λ finished. M.taken maker.new
        ≡ capped (M.taken maker.old + finished.bytes)) }
    ensures sealed { IfOk result (λ finished. IsTrue P.File.tells → M.sealed maker.new
        ≡ sealed_with P.File.TableHandle (map arc_value finished.tables.items)
        (M.sealed maker.old)) }
    ensures spent { IfErr result (λ short. M.taken maker.new
        ≡ capped (M.taken maker.old + short.bytes)) }
    ensures back { (pool.new.out ≡ pool.old.out) × (pool.old.free ≤ pool.new.free) }
    // when it fails
    ensures bound { IfErr result (λ short. (contents : List (List Entry))
        → AllZip (IsHeld P.File.TableHandle) (map arc_value tables.now) contents
        → short.bytes ≤ whole_length options.now.block_bytes
        (cut_from job.now.numbers job.now.keys contents)) }
    ensures cause { IfErr result (λ short. IsStoppedBy P.File.TableHandle options.now.block_bytes
        job.now.keys (map arc_value tables.now) short.cause) }
    ensures sound { IfErr result (λ short. (contents : List (List Entry))
        → AllZip (IsHeld P.File.TableHandle) (map arc_value tables.now) contents
        → IsUndamaged short.cause) }
    ensures rose { IfErr result (λ short. short.cause ≡ causes.Fault
        → Rose (P.faults port.old) (P.faults port.new)
        ⊎ Rose (M.faults maker.old) (M.faults maker.new)) }
    ensures never_falls { M.faults maker.old ≤ M.faults maker.new }
    // what stays
    ensures port { HasJoined P.Port port.old port.new }
    ensures gone { M.gone maker.new ≡ M.gone maker.old }
    ensures elsewhere { IsTrue P.File.tells → (n : ℕ)
        → IsOutside job.now.numbers (numbers_needed job.now) n
        → M.sealed maker.new n ≡ M.sealed maker.old n }
{
    // The pieces that were written are those of the model, and their lengths are its lengths.
    law_pieces();
    law_length();
    let before = maker.taken();
    match cut_and_finish(alloc, job, tables, port, pool, maker, options) {
        Ok(finished) => Ok(finished),
        Err(cause) => Err(short_by(cause, before, maker.taken())),
    }
}
