//! Laws of the spelling.

ghost use Rattle.std.specs.Prelude.{◌≡◌, ℕ, List, Option};
ghost use Rattle.flsm_model.specs.declared.edit.Edit.{Edit};
ghost use Rattle.manifest.specs.Edits.{edit_bytes, IsEdit};
ghost use Rattle.manifest.specs.Manifests.{IsManifest, IsDamagedManifest};
ghost use Rattle.peb_base.specs.declared.profile.Profile.{Profile};

use record_log::one_reading;

/// Bytes are the spelling of one edit at most.
pub fn one_edit()
    ensures { (a b : Edit) → IsEdit a → IsEdit b → edit_bytes a ≡ edit_bytes b → a ≡ b }
{}

/// What a manifest's file holds is determined by its bytes: one list of edits in one profile, and
/// then no damage, or one first place of damage.
pub fn one_manifest()
    ensures one_list { (found : Option (List ℕ)) (a b : Profile) (first second : List Edit)
        → IsManifest a first found → IsManifest b second found
        → (a ≡ b) × (first ≡ second) }
    ensures undamaged { (found : Option (List ℕ)) (profile : Profile) (edits : List Edit) (at : ℕ)
        → IsManifest profile edits found → IsDamagedManifest found at → ⊥ }
    ensures one_damage { (found : Option (List ℕ)) (m n : ℕ)
        → IsDamagedManifest found m → IsDamagedManifest found n → m ≡ n }
{
    // One header and one list of groups for these bytes.
    one_reading();
}
