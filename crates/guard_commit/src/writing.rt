//! Tables that are cut, one after another.

ghost use Rattle.std.specs.Prelude.{◌≡◌, ◌⊎◌, ◌≤◌, ◌<◌, ◌+◌, ◌*◌, ◌^◌, ◌++◌, [], ℕ, List, Err, None, false, IsTrue, IfErr, IfOk, OnOk, OnErr, length, map};
ghost use Rattle.std.specs.Arc.{arc_value};
ghost use Rattle.std.specs.List.{AllZip};
ghost use Rattle.disk_model.specs.Images.{Rose};
ghost use Rattle.peb_base.specs.declared.entry.Entry.{Entry};
ghost use Rattle.flsm_model.specs.declared.short_cause.ShortCause.TheVariants as causes;
ghost use Rattle.table_file.specs.Pieces.{Piece, pieces_from, whole_length};
ghost use Rattle.table_file.specs.PieceWriting.{full_length};
ghost use Rattle.table_file.specs.Taking.{TakesAtMost};
ghost use Rattle.table_cursor.specs.Views.{table_of, port_of, StandsIn};
ghost use Rattle.guard_commit.specs.Cutting.{cut_from};
ghost use Rattle.guard_commit.specs.Joining.{HasJoined};
ghost use Rattle.guard_commit.specs.Ports.{ReadsOn};
ghost use Rattle.guard_commit.specs.Reading.{IsHeld, WasRead};
ghost use Rattle.guard_commit.specs.Stopping.{IsStoppedIn, IsStoppedBy, IsUndamaged};
ghost use Rattle.guard_commit.specs.Writing.{MakerTold, told_by, work, HasWritten, only, behind, IsOutside};

use crate::causes::{put_cause, read_cause};
use crate::passing::push_all;
use block_pool::{Loan, Pool};
use disk_model::{Maker, Port};
use flsm_model::ShortCause;
use peb_base::{Cursor, Key, Memory};
use std::alloc::Global;
use std::sync::Arc;
use table_cursor::TableCursor;
use table_file::{PieceWriter, Table, law_pieces};

/// Takes a buffer out of a pool, which grows where all are out.
fn buffer_of(pool: &mut Pool) -> Result<Loan, Memory>
    ensures lent { OnOk result ((pool.new.out ≡ pool.old.out + 1)
        × (pool.old.free ≤ pool.new.free + 1)) }
    ensures kept { OnErr result ((pool.new.out ≡ pool.old.out)
        × (pool.old.free ≤ pool.new.free)) }
{
    pool.reserve(1)?;
    match pool.lend() {
        Some(loan) => Ok(loan),
        None => Err(Memory),
    }
}

/// Pushes all entries of a table, from the first on.
fn push_table<P: Port, M: Maker<File = P::File>>(
    cursor: &mut TableCursor<P>,
    table: &Table<P::File>,
    keys: &[Key],
    pieces: &mut PieceWriter<P::File>,
    maker: &mut M,
) -> Result<(), ShortCause>
    requires table { table.now ≡ table_of cursor.old }
    requires stands { (held : List Entry) → IsHeld P.File.TableHandle table.now held
        → StandsIn cursor.old held None }
    requires fits { pieces.old.numbers + length keys.now < 2 ^ 64 }
    requires cut { (from : MakerTold) × (ps : List Piece) × HasWritten P.File.TableHandle from
        (work (told_by M.Maker P.File.tells maker.old) pieces.old keys.now) (only ps) }
    // what it gives
    ensures read { OnOk result ((es : List Entry) × WasRead P.File.TableHandle table.now es
        × ((from : MakerTold) (ps : List Piece) → HasWritten P.File.TableHandle from
        (work (told_by M.Maker P.File.tells maker.old) pieces.old keys.now) (only ps)
        → HasWritten P.File.TableHandle from
        (work (told_by M.Maker P.File.tells maker.new) pieces.new keys.now) (behind ps es))) }
    // when it fails
    ensures bound { OnErr result ((from : MakerTold) (ps : List Piece) (held : List Entry)
        → HasWritten P.File.TableHandle from
        (work (told_by M.Maker P.File.tells maker.old) pieces.old keys.now) (only ps)
        → IsHeld P.File.TableHandle table.now held
        → TakesAtMost (whole_length (full_length pieces.old) ps
        + whole_length (full_length pieces.old) (pieces_from pieces.old.numbers keys.now held))
        from.taken (M.taken maker.new)) }
    ensures stopped { IfErr result
        (IsStoppedIn P.File.TableHandle (full_length pieces.old) keys.now table.now) }
    ensures sound { IfErr result (λ cause. (held : List Entry)
        → IsHeld P.File.TableHandle table.now held → IsUndamaged cause) }
    ensures rose { result ≡ Err causes.Fault
        → Rose (P.faults (port_of cursor.old)) (P.faults (port_of cursor.new))
        ⊎ Rose (M.faults maker.old) (M.faults maker.new) }
    // what stays
    ensures port { ReadsOn P.Port (port_of cursor.old) (port_of cursor.new) }
    ensures later { M.faults maker.old ≤ M.faults maker.new }
    ensures grows { M.taken maker.old ≤ M.taken maker.new }
    ensures gone { M.gone maker.new ≡ M.gone maker.old }
    ensures elsewhere { IsTrue P.File.tells → (n : ℕ)
        → IsOutside pieces.old.numbers (length keys.now + 1) n
        → M.sealed maker.new n ≡ M.sealed maker.old n }
    ensures numbers { pieces.new.numbers ≡ pieces.old.numbers }
    ensures level { pieces.new.level ≡ pieces.old.level }
    ensures full { full_length pieces.new ≡ full_length pieces.old }
{
    match cursor.first() {
        Ok(()) => push_all(cursor, table, keys, pieces, maker),
        Err(fault) => Err(read_cause(fault)),
    }
}

/// Reads a table once, through a buffer and a port of its own, and pushes all its entries. The buffer is
/// back then, and the port is joined.
fn cut_table<P: Port, M: Maker<File = P::File>>(
    table: &Arc<Table<P::File>, Global>,
    keys: &[Key],
    port: &mut P,
    pool: &mut Pool,
    pieces: &mut PieceWriter<P::File>,
    maker: &mut M,
) -> Result<(), ShortCause>
    requires fits { pieces.old.numbers + length keys.now < 2 ^ 64 }
    requires cut { (from : MakerTold) × (ps : List Piece) × HasWritten P.File.TableHandle from
        (work (told_by M.Maker P.File.tells maker.old) pieces.old keys.now) (only ps) }
    // what it gives
    ensures read { OnOk result ((es : List Entry)
        × WasRead P.File.TableHandle (arc_value table.now) es
        × ((from : MakerTold) (ps : List Piece) → HasWritten P.File.TableHandle from
        (work (told_by M.Maker P.File.tells maker.old) pieces.old keys.now) (only ps)
        → HasWritten P.File.TableHandle from
        (work (told_by M.Maker P.File.tells maker.new) pieces.new keys.now) (behind ps es))) }
    // when it fails
    ensures bound { OnErr result ((from : MakerTold) (ps : List Piece) (held : List Entry)
        → HasWritten P.File.TableHandle from
        (work (told_by M.Maker P.File.tells maker.old) pieces.old keys.now) (only ps)
        → IsHeld P.File.TableHandle (arc_value table.now) held
        → TakesAtMost (whole_length (full_length pieces.old) ps
        + whole_length (full_length pieces.old) (pieces_from pieces.old.numbers keys.now held))
        from.taken (M.taken maker.new)) }
    ensures stopped { IfErr result
        (IsStoppedIn P.File.TableHandle (full_length pieces.old) keys.now (arc_value table.now)) }
    ensures sound { IfErr result (λ cause. (held : List Entry)
        → IsHeld P.File.TableHandle (arc_value table.now) held → IsUndamaged cause) }
    ensures rose { result ≡ Err causes.Fault → Rose (P.faults port.old) (P.faults port.new)
        ⊎ Rose (M.faults maker.old) (M.faults maker.new) }
    // what stays
    ensures back { (pool.new.out ≡ pool.old.out) × (pool.old.free ≤ pool.new.free) }
    ensures port { HasJoined P.Port port.old port.new }
    ensures later { M.faults maker.old ≤ M.faults maker.new }
    ensures grows { M.taken maker.old ≤ M.taken maker.new }
    ensures gone { M.gone maker.new ≡ M.gone maker.old }
    ensures elsewhere { IsTrue P.File.tells → (n : ℕ)
        → IsOutside pieces.old.numbers (length keys.now + 1) n
        → M.sealed maker.new n ≡ M.sealed maker.old n }
    ensures numbers { pieces.new.numbers ≡ pieces.old.numbers }
    ensures level { pieces.new.level ≡ pieces.old.level }
    ensures full { full_length pieces.new ≡ full_length pieces.old }
{
    let Ok(shared) = Arc::try_clone(table) else {
        return Err(ShortCause::Memory);
    };
    let Ok(loan) = buffer_of(pool) else {
        return Err(ShortCause::Memory);
    };
    let fork = match port.fork() {
        Ok(fork) => fork,
        Err(_) => {
            pool.give_back(loan);
            return Err(ShortCause::Memory);
        }
    };
    let mut cursor = TableCursor::open(shared, fork, loan);
    let pushed = push_table(&mut cursor, table, keys, pieces, maker);
    let (_, fork, loan) = cursor.close();
    port.join(fork);
    pool.give_back(loan);
    pushed
}

/// Cuts a table, and begins the next one's pieces with this number.
fn cut_one<P: Port, M: Maker<File = P::File>>(
    table: &Arc<Table<P::File>, Global>,
    next: u64,
    keys: &[Key],
    port: &mut P,
    pool: &mut Pool,
    pieces: &mut PieceWriter<P::File>,
    maker: &mut M,
) -> Result<(), ShortCause>
    requires fits { pieces.old.numbers + length keys.now < 2 ^ 64 }
    requires cut { (from : MakerTold) × (ps : List Piece) × HasWritten P.File.TableHandle from
        (work (told_by M.Maker P.File.tells maker.old) pieces.old keys.now) (only ps) }
    // what it gives
    ensures read { OnOk result ((es : List Entry)
        × WasRead P.File.TableHandle (arc_value table.now) es
        × ((from : MakerTold) (ps : List Piece) → HasWritten P.File.TableHandle from
        (work (told_by M.Maker P.File.tells maker.old) pieces.old keys.now) (only ps)
        → HasWritten P.File.TableHandle from
        (work (told_by M.Maker P.File.tells maker.new) pieces.new keys.now)
        (only (ps ++ pieces_from pieces.old.numbers keys.now es)))) }
    ensures numbers { OnOk result (pieces.new.numbers ≡ next) }
    ensures shut { OnOk result (pieces.new.is_open ≡ false) }
    // when it fails
    ensures bound { OnErr result ((from : MakerTold) (ps : List Piece) (held : List Entry)
        → HasWritten P.File.TableHandle from
        (work (told_by M.Maker P.File.tells maker.old) pieces.old keys.now) (only ps)
        → IsHeld P.File.TableHandle (arc_value table.now) held
        → TakesAtMost (whole_length (full_length pieces.old) ps
        + whole_length (full_length pieces.old) (pieces_from pieces.old.numbers keys.now held))
        from.taken (M.taken maker.new)) }
    ensures stopped { IfErr result
        (IsStoppedIn P.File.TableHandle (full_length pieces.old) keys.now (arc_value table.now)) }
    ensures sound { IfErr result (λ cause. (held : List Entry)
        → IsHeld P.File.TableHandle (arc_value table.now) held → IsUndamaged cause) }
    ensures rose { result ≡ Err causes.Fault → Rose (P.faults port.old) (P.faults port.new)
        ⊎ Rose (M.faults maker.old) (M.faults maker.new) }
    // what stays
    ensures back { (pool.new.out ≡ pool.old.out) × (pool.old.free ≤ pool.new.free) }
    ensures port { HasJoined P.Port port.old port.new }
    ensures later { M.faults maker.old ≤ M.faults maker.new }
    ensures grows { M.taken maker.old ≤ M.taken maker.new }
    ensures gone { M.gone maker.new ≡ M.gone maker.old }
    ensures elsewhere { IsTrue P.File.tells → (n : ℕ)
        → IsOutside pieces.old.numbers (length keys.now + 1) n
        → M.sealed maker.new n ≡ M.sealed maker.old n }
    ensures level { pieces.new.level ≡ pieces.old.level }
    ensures full { full_length pieces.new ≡ full_length pieces.old }
{
    // What is taken of pieces is at most their tables.
    law_pieces();
    match cut_table(table, keys, port, pool, pieces, maker) {
        Ok(()) => {}
        Err(cause) => return Err(cause),
    }
    match pieces.begin(maker, next) {
        Ok(()) => Ok(()),
        Err(fault) => Err(put_cause(fault)),
    }
}

/// Cuts tables, of whose pieces the first has this number.
pub fn cut_tables<P: Port, M: Maker<File = P::File>>(
    tables: &[Arc<Table<P::File>, Global>],
    number: u64,
    keys: &[Key],
    port: &mut P,
    pool: &mut Pool,
    pieces: &mut PieceWriter<P::File>,
    maker: &mut M,
) -> Result<(), ShortCause>
    requires fits { number + length tables.now * (length keys.now + 1) < 2 ^ 64 }
    requires number { pieces.old.numbers ≡ number }
    requires shut { pieces.old.is_open ≡ false }
    requires cut { (from : MakerTold) × (ps : List Piece) × HasWritten P.File.TableHandle from
        (work (told_by M.Maker P.File.tells maker.old) pieces.old keys.now) (only ps) }
    // what it gives
    ensures read { OnOk result ((parts : List (List Entry))
        × AllZip (WasRead P.File.TableHandle) (map arc_value tables.now) parts
        × ((from : MakerTold) (ps : List Piece) → HasWritten P.File.TableHandle from
        (work (told_by M.Maker P.File.tells maker.old) pieces.old keys.now) (only ps)
        → HasWritten P.File.TableHandle from
        (work (told_by M.Maker P.File.tells maker.new) pieces.new keys.now)
        (only (ps ++ cut_from number keys.now parts)))) }
    ensures shut { OnOk result (pieces.new.is_open ≡ false) }
    // when it fails
    ensures bound { OnErr result ((from : MakerTold) (ps : List Piece)
        (contents : List (List Entry)) → HasWritten P.File.TableHandle from
        (work (told_by M.Maker P.File.tells maker.old) pieces.old keys.now) (only ps)
        → AllZip (IsHeld P.File.TableHandle) (map arc_value tables.now) contents
        → TakesAtMost (whole_length (full_length pieces.old) ps
        + whole_length (full_length pieces.old) (cut_from number keys.now contents))
        from.taken (M.taken maker.new)) }
    ensures stopped { IfErr result (IsStoppedBy P.File.TableHandle (full_length pieces.old)
        keys.now (map arc_value tables.now)) }
    ensures sound { IfErr result (λ cause. (contents : List (List Entry))
        → AllZip (IsHeld P.File.TableHandle) (map arc_value tables.now) contents
        → IsUndamaged cause) }
    ensures rose { result ≡ Err causes.Fault → Rose (P.faults port.old) (P.faults port.new)
        ⊎ Rose (M.faults maker.old) (M.faults maker.new) }
    // what stays
    ensures back { (pool.new.out ≡ pool.old.out) × (pool.old.free ≤ pool.new.free) }
    ensures port { HasJoined P.Port port.old port.new }
    ensures later { M.faults maker.old ≤ M.faults maker.new }
    ensures grows { M.taken maker.old ≤ M.taken maker.new }
    ensures gone { M.gone maker.new ≡ M.gone maker.old }
    ensures elsewhere { IsTrue P.File.tells → (n : ℕ)
        → IsOutside number (length tables.now * (length keys.now + 1)) n
        → M.sealed maker.new n ≡ M.sealed maker.old n }
    ensures level { pieces.new.level ≡ pieces.old.level }
    ensures full { full_length pieces.new ≡ full_length pieces.old }
{
    match tables {
        [] => Ok(()),
        [table, rest @ ..] => {
            let next = number + keys.len() as u64 + 1;
            match cut_one(table, next, keys, port, pool, pieces, maker) {
                Ok(()) => {}
                Err(cause) => return Err(cause),
            }
            cut_tables(rest, next, keys, port, pool, pieces, maker)
        }
    }
}
