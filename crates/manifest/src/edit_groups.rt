//! Edits from the records of a manifest.

ghost use Rattle.std.specs.Prelude.{◌≡◌, ◌∷◌, List, ℕ, IfOk, IfErr, IfSome, IfNone, IsErrOf};
ghost use Rattle.std.specs.List.{AllByRecursion};
ghost use Rattle.record_log.specs.Groups.{AreGroups, placed};
ghost use Rattle.record_log.specs.Records.{view_of, views};
ghost use Rattle.manifest.specs.Edits.{edit_bytes, IsEdit};
ghost use Rattle.manifest.specs.GroupOfEdit.{goes_on, StandsAlone, StandsForNone, FirstNoEdit};
ghost use Rattle.manifest.specs.Manifests.{edit_groups, edits_of, ArePlaced};

use crate::edit_fault::EditFault;
use crate::edit_record::read_edit;
use flsm_model::Edit;
use record_log::{LogFault, Record};
use std::alloc::Global;

/// Whether the first of the records is of the group with this gate.
fn group_goes_on(gate: u64, records: &[Record]) -> bool
    ensures { result ≡ goes_on gate (views records.now) }
{
    !records.is_empty() && records[0].gate == gate
}

/// The edit of the group that begins with this record.
///
/// `Form` comes where the group has another record, or its body is no edit, and else `Memory`.
fn group_edit(alloc: Global, first: &Record, behind: &[Record]) -> Result<Edit, EditFault>
    ensures edit { IfOk result IsEdit }
    ensures found { IfOk result (λ edit. StandsAlone first.now.gate (edit_bytes edit)
        (view_of first.now ∷ views behind.now)) }
    ensures form { IsErrOf result EditFault.Form
        → StandsForNone first.now.gate (view_of first.now ∷ views behind.now) }
{
    if group_goes_on(first.gate, behind) {
        return Err(EditFault::Form);
    }
    read_edit(alloc, &first.body)
}

/// The edits of the groups up to the first that is no edit's, each behind the place of its group's
/// gate, and the place of that one's gate.
#[derive(Drop)]
pub struct EditsRead {
    pub edits: Vec<(u64, Edit)>,
    pub broken: Option<u64>,
}

/// The edits that groups spell, one each, of which these are the records, up to the first group
/// that is no edit's.
pub fn all_edits(alloc: Global, records: &[Record]) -> Result<EditsRead, LogFault>
    ensures each { IfOk result (λ found. AllByRecursion IsEdit (edits_of found.edits.items)) }
    ensures found { IfOk result (λ found. IfNone found.broken ((groups : List (List (List ℕ)))
        → AreGroups groups → views records.now ≡ placed 24 groups
        → groups ≡ edit_groups (edits_of found.edits.items))) }
    ensures placed { IfOk result (λ found. (groups : List (List (List ℕ))) → AreGroups groups
        → views records.now ≡ placed 24 groups → ArePlaced found.edits.items) }
    ensures broken { IfOk result (λ found. IfSome found.broken (λ at.
        (groups : List (List (List ℕ))) → AreGroups groups
        → views records.now ≡ placed 24 groups
        → FirstNoEdit groups (edits_of found.edits.items) at)) }
    ensures memory { IfErr result (λ fault. fault ≡ LogFault.Memory) }
{
    let mut edits = Vec::new(alloc);
    let mut rest = records;
    while !rest.is_empty() {
        let first = &rest[0];
        let behind = &rest[1..];
        let gate = first.gate;
        let edit = match group_edit(alloc, first, behind) {
            Ok(edit) => edit,
            Err(EditFault::Form) => {
                return Ok(EditsRead {
                    edits,
                    broken: Some(gate),
                });
            }
            Err(EditFault::Memory) => return Err(LogFault::Memory),
        };
        edits.push((gate, edit)).map_err(|_| LogFault::Memory)?;
        rest = behind;
    }
    Ok(EditsRead {
        edits,
        broken: None,
    })
}
