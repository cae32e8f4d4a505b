//! The entries of one table, from a cursor to a writer of pieces.

ghost use Rattle.std.specs.Prelude.{◌≡◌, ◌⊎◌, ◌≤◌, ◌<◌, ◌+◌, ◌^◌, ◌++◌, ◌∷◌, [], ℕ, List, Err, Some, None, IsTrue, IfErr, OnOk, OnErr, length};
ghost use Rattle.disk_model.specs.Images.{Rose};
ghost use Rattle.peb_base.specs.Keys.{Bytes};
ghost use Rattle.peb_base.specs.Tables.{IsRowOf};
ghost use Rattle.peb_base.specs.declared.entry.Entry.{Entry};
ghost use Rattle.flsm_model.specs.declared.short_cause.ShortCause.TheVariants as causes;
ghost use Rattle.table_file.specs.Pieces.{Piece, pieces_from, whole_length};
ghost use Rattle.table_file.specs.PieceWriting.{full_length};
ghost use Rattle.table_file.specs.Taking.{TakesAtMost};
ghost use Rattle.table_cursor.specs.Views.{table_of, port_of, shown_by, StandsIn, WalksIn};
ghost use Rattle.table_cursor.specs.Walking.{ReadInOrder};
ghost use Rattle.guard_commit.specs.Ports.{ReadsOn};
ghost use Rattle.guard_commit.specs.Reading.{IsHeld, WasRead, IsPassedBy, HasPassed};
ghost use Rattle.guard_commit.specs.Stopping.{IsStoppedIn, IsUndamaged};
ghost use Rattle.guard_commit.specs.Writing.{MakerTold, told_by, work, HasWritten, only, behind, IsOutside};

use crate::causes::{put_cause, read_cause};
use crate::tally::Tally;
use disk_model::{Maker, Port};
use flsm_model::ShortCause;
use peb_base::{Cursor, Key};
use table_cursor::TableCursor;
use table_file::{PieceWriter, Table, law_pieces};

/// The damage of a table whose entries up to the one that the cursor shows are more than its row tells.
fn passed_at<P: Port>(cursor: &TableCursor<P>, number: u64) -> ShortCause
    requires shows { (e : Entry) × (shown_by cursor.now ≡ Some e) }
    requires number { number ≡ (table_of cursor.now).row.number }
    ensures damage { (full : ℕ) (keys : List Bytes) (es : List Entry) (e : Entry)
        → WalksIn cursor.now es → shown_by cursor.now ≡ Some e
        → IsPassedBy (table_of cursor.now).row (es ++ e ∷ [])
        → IsStoppedIn P.File.TableHandle full keys (table_of cursor.now) result }
    ensures untold { result ≡ causes.Fault → ⊥ }
{
    match cursor.place() {
        Some(at) => ShortCause::Damaged { table: number, at },
        None => unreachable!(),
    }
}

/// The damage of a table of whose entries the row tells something else: at the last block, of which
/// there is one.
fn false_at_end<P: Port>(table: &Table<P::File>) -> ShortCause
    ensures damage { (full : ℕ) (keys : List Bytes) (es : List Entry)
        → ReadInOrder P.File.TableHandle table.now (length table.now.items) es
        → (IsRowOf table.now.row es → ⊥)
        → IsStoppedIn P.File.TableHandle full keys table.now result }
    ensures some { 0 < length table.now.items }
    ensures untold { result ≡ causes.Fault → ⊥ }
{
    let last = table.blocks() - 1;
    let (at, _, _, _) = table.item(last);
    ShortCause::Damaged {
        table: table.row().number,
        at,
    }
}

/// Pushes the entry at which the cursor stands, and those behind it, and compares what their table's row
/// tells with them.
pub fn push_all<P: Port, M: Maker<File = P::File>>(
    cursor: &mut TableCursor<P>,
    table: &Table<P::File>,
    keys: &[Key],
    pieces: &mut PieceWriter<P::File>,
    maker: &mut M,
) -> Result<(), ShortCause>
    requires table { table.now ≡ table_of cursor.old }
    requires passed { HasPassed cursor.old [] }
    requires fits { pieces.old.numbers + length keys.now < 2 ^ 64 }
    requires cut { (from : MakerTold) × (ps : List Piece) × HasWritten P.File.TableHandle from
        (work (told_by M.Maker P.File.tells maker.old) pieces.old keys.now) (only ps) }
    // what it gives
    ensures read { OnOk result ((es : List Entry) × WasRead P.File.TableHandle table.now es
        × ((from : MakerTold) (ps : List Piece) → HasWritten P.File.TableHandle from
        (work (told_by M.Maker P.File.tells maker.old) pieces.old keys.now) (only ps)
        → HasWritten P.File.TableHandle from
        (work (told_by M.Maker P.File.tells maker.new) pieces.new keys.now) (behind ps es))) }
    // when it fails
    ensures bound { OnErr result ((from : MakerTold) (ps : List Piece) (held : List Entry)
        → HasWritten P.File.TableHandle from
        (work (told_by M.Maker P.File.tells maker.old) pieces.old keys.now) (only ps)
        → IsHeld P.File.TableHandle table.now held
        → TakesAtMost (whole_length (full_length pieces.old) ps
        + whole_length (full_length pieces.old) (pieces_from pieces.old.numbers keys.now held))
        from.taken (M.taken maker.new)) }
    ensures stopped { IfErr result
        (IsStoppedIn P.File.TableHandle (full_length pieces.old) keys.now table.now) }
    ensures sound { IfErr result (λ cause. (held : List Entry)
        → IsHeld P.File.TableHandle table.now held → IsUndamaged cause) }
    ensures rose { result ≡ Err causes.Fault
        → Rose (P.faults (port_of cursor.old)) (P.faults (port_of cursor.new))
        ⊎ Rose (M.faults maker.old) (M.faults maker.new) }
    // what stays
    ensures port { ReadsOn P.Port (port_of cursor.old) (port_of cursor.new) }
    ensures later { M.faults maker.old ≤ M.faults maker.new }
    ensures grows { M.taken maker.old ≤ M.taken maker.new }
    ensures gone { M.gone maker.new ≡ M.gone maker.old }
    ensures elsewhere { IsTrue P.File.tells → (n : ℕ)
        → IsOutside pieces.old.numbers (length keys.now + 1) n
        → M.sealed maker.new n ≡ M.sealed maker.old n }
    ensures numbers { pieces.new.numbers ≡ pieces.old.numbers }
    ensures level { pieces.new.level ≡ pieces.old.level }
    ensures full { full_length pieces.new ≡ full_length pieces.old }
{
    // What is taken for first entries is at most what is taken for all.
    law_pieces();
    let mut tally = Tally::new();
    'each: while let Some(entry) = cursor.at() {
        if !tally.add(&entry, table.row()) {
            return Err(passed_at(cursor, table.row().number));
        }
        match pieces.push(maker, keys, entry) {
            Ok(()) => {}
            Err(fault) => return Err(put_cause(fault)),
        }
        match cursor.next() {
            Ok(()) => {}
            Err(fault) => return Err(read_cause(fault)),
        }
    }
    let damage = false_at_end::<P>(table);
    if !tally.is_of(table.row()) {
        return Err(damage);
    }
    Ok(())
}
