//! Edits as they are read.

ghost use Rattle.std.specs.Prelude.{◌≡◌, ◌≢◌, ◌∷◌, ◌++◌, List, ℕ, IfOk, IsErrOf};
ghost use Rattle.flsm_model.specs.declared.edit.Edit.{Edit};
ghost use Rattle.manifest.specs.Edits.{edit_bytes, IsEdit};

use crate::decode::Decode;
use crate::edit_fault::EditFault;
use flsm_model::{Chosen, Edit};
use peb_base::{Key, List, Number, TableRow};
use std::alloc::Global;

/// The edit at the front, and the bytes behind it.
pub fn edit_at(alloc: Global, bytes: &[u8]) -> Result<(Edit, &[u8]), EditFault>
    ensures fits { IfOk result (λ found. IsEdit found.0) }
    ensures found { IfOk result (λ found. bytes.now ≡ edit_bytes found.0 ++ found.1.now) }
    ensures form { IsErrOf result EditFault.Form → (edit : Edit) (rest : List ℕ)
        → IsEdit edit → bytes.now ≢ edit_bytes edit ++ rest }
{
    let (kind, rest) = u8::decode(alloc, bytes)?;
    edit_of(alloc, kind, rest)
}

/// The edit whose kind is told by this byte.
fn edit_of(alloc: Global, kind: u8, bytes: &[u8]) -> Result<(Edit, &[u8]), EditFault>
    ensures fits { IfOk result (λ found. IsEdit found.0) }
    ensures found { IfOk result (λ found. kind ∷ bytes.now
        ≡ edit_bytes found.0 ++ found.1.now) }
    ensures form { IsErrOf result EditFault.Form → (edit : Edit) (rest : List ℕ)
        → IsEdit edit → kind ∷ bytes.now ≢ edit_bytes edit ++ rest }
{
    match kind {
        1 => open_at(alloc, bytes),
        2 => flush_at(alloc, bytes),
        3 => move_at(alloc, bytes),
        4 => cut_at(alloc, bytes),
        5 => merge_at(alloc, bytes),
        _ => Err(EditFault::Form),
    }
}

fn open_at(alloc: Global, bytes: &[u8]) -> Result<(Edit, &[u8]), EditFault>
    ensures fits { IfOk result (λ found. IsEdit found.0) }
    ensures found { IfOk result (λ found. 1 ∷ bytes.now ≡ edit_bytes found.0 ++ found.1.now) }
    ensures form { IsErrOf result EditFault.Form → (edit : Edit) (rest : List ℕ)
        → IsEdit edit → 1 ∷ bytes.now ≢ edit_bytes edit ++ rest }
{
    let (fields, rest) = <(u64, u64)>::decode(alloc, bytes)?;
    let (session, log) = fields;
    Ok((Edit::Open { session, log }, rest))
}

fn flush_at(alloc: Global, bytes: &[u8]) -> Result<(Edit, &[u8]), EditFault>
    ensures fits { IfOk result (λ found. IsEdit found.0) }
    ensures found { IfOk result (λ found. 2 ∷ bytes.now ≡ edit_bytes found.0 ++ found.1.now) }
    ensures form { IsErrOf result EditFault.Form → (edit : Edit) (rest : List ℕ)
        → IsEdit edit → 2 ∷ bytes.now ≢ edit_bytes edit ++ rest }
{
    type Fields = (TableRow, (Number, (Number, (u64, List<Chosen>))));
    let (fields, rest) = Fields::decode(alloc, bytes)?;
    let (row, (from, (to, (log, chosen)))) = fields;
    let edit = Edit::Flush {
        row,
        from,
        to,
        log,
        chosen,
    };
    Ok((edit, rest))
}

fn move_at(alloc: Global, bytes: &[u8]) -> Result<(Edit, &[u8]), EditFault>
    ensures fits { IfOk result (λ found. IsEdit found.0) }
    ensures found { IfOk result (λ found. 3 ∷ bytes.now ≡ edit_bytes found.0 ++ found.1.now) }
    ensures form { IsErrOf result EditFault.Form → (edit : Edit) (rest : List ℕ)
        → IsEdit edit → 3 ∷ bytes.now ≢ edit_bytes edit ++ rest }
{
    type Fields = (u8, (Number, (List<u64>, List<TableRow>)));
    let (fields, rest) = Fields::decode(alloc, bytes)?;
    let (level, (floor, (inputs, outputs))) = fields;
    let edit = Edit::Move {
        level,
        floor,
        inputs,
        outputs,
    };
    Ok((edit, rest))
}

fn cut_at(alloc: Global, bytes: &[u8]) -> Result<(Edit, &[u8]), EditFault>
    ensures fits { IfOk result (λ found. IsEdit found.0) }
    ensures found { IfOk result (λ found. 4 ∷ bytes.now ≡ edit_bytes found.0 ++ found.1.now) }
    ensures form { IsErrOf result EditFault.Form → (edit : Edit) (rest : List ℕ)
        → IsEdit edit → 4 ∷ bytes.now ≢ edit_bytes edit ++ rest }
{
    type Fields = (u8, (List<Key>, (List<u64>, List<TableRow>)));
    let (fields, rest) = Fields::decode(alloc, bytes)?;
    let (level, (keys, (inputs, outputs))) = fields;
    let edit = Edit::Cut {
        level,
        keys,
        inputs,
        outputs,
    };
    Ok((edit, rest))
}

fn merge_at(alloc: Global, bytes: &[u8]) -> Result<(Edit, &[u8]), EditFault>
    ensures fits { IfOk result (λ found. IsEdit found.0) }
    ensures found { IfOk result (λ found. 5 ∷ bytes.now ≡ edit_bytes found.0 ++ found.1.now) }
    ensures form { IsErrOf result EditFault.Form → (edit : Edit) (rest : List ℕ)
        → IsEdit edit → 5 ∷ bytes.now ≢ edit_bytes edit ++ rest }
{
    type Fields = (Number, (bool, (List<u64>, List<TableRow>)));
    let (fields, rest) = Fields::decode(alloc, bytes)?;
    let (floor, (whole, (inputs, outputs))) = fields;
    let edit = Edit::Merge {
        floor,
        whole,
        inputs,
        outputs,
    };
    Ok((edit, rest))
}
