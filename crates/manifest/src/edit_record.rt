//! An edit as the body of a manifest's record.

ghost use Rattle.std.specs.Prelude.{◌≡◌, ◌≢◌, ◌↔◌, ◌<◌, ◌+◌, ◌^◌, length, IfOk, IsErrOf, OnOk};
ghost use Rattle.flsm_model.specs.declared.edit.Edit.{Edit};
ghost use Rattle.record_log.specs.declared.add_fault.AddFault.TheVariants.{Full};
ghost use Rattle.manifest.specs.Edits.{edit_bytes, IsEdit};

use crate::edit_fault::EditFault;
use crate::encode::Encode;
use crate::reading::edit_at;
use flsm_model::Edit;
use record_log::AddFault;
use std::alloc::Global;

/// The most bytes that a record has, the four of its length among them.
const MOST: u64 = 1 << 31;

/// Spells an edit as the body of a record.
///
/// `Full` comes exactly where the record would have more than 2,147,483,648 bytes, the four of its
/// length among them, and else `Memory`.
pub fn write_edit(alloc: Global, edit: &Edit) -> Result<Vec<u8>, AddFault>
    ensures edit { OnOk result (IsEdit edit.now) }
    ensures bytes { IfOk result (λ bytes. bytes.items ≡ edit_bytes edit.now) }
    ensures full { IsErrOf result Full ↔ (2 ^ 31 < length (edit_bytes edit.now) + 4) }
{
    if edit.length() > MOST - 4 {
        return Err(AddFault::Full);
    }
    let mut bytes = Vec::new(alloc);
    edit.encode(&mut bytes)?;
    Ok(bytes)
}

/// Reads the edit that the body of a record spells.
///
/// `Form` comes exactly where the bytes spell no edit, and else `Memory`.
pub fn read_edit(alloc: Global, body: &[u8]) -> Result<Edit, EditFault>
    ensures edit { IfOk result IsEdit }
    ensures bytes { IfOk result (λ edit. body.now ≡ edit_bytes edit) }
    ensures form { IsErrOf result EditFault.Form → (edit : Edit) → IsEdit edit
        → body.now ≢ edit_bytes edit }
{
    let (edit, rest) = edit_at(alloc, body)?;
    if !rest.is_empty() {
        return Err(EditFault::Form);
    }
    Ok(edit)
}
