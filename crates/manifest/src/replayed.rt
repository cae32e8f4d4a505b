//! What a manifest held.

ghost use Rattle.std.specs.Prelude.{◌≡◌, ℕ, Ok, Err, IfOk, IfErr};

use crate::manifest_file::Manifest;
use flsm_model::Edit;
use peb_base::{List, Profile};
use record_log::LogFault;

/// A manifest as it was read: the store's profile, the edits in order, each behind the place in the
/// file of its group's gate, and the manifest ready for further edits.
#[derive(Drop)]
pub struct Replayed {
    pub profile: Profile,
    pub edits: List<(u64, Edit)>,
    pub manifest: Manifest,
}

/// A manifest as it was read up to the first group that is no edit's: the same of the groups before
/// that one, and in place of the manifest the place of that one's gate.
#[derive(Drop)]
pub struct ManifestFront {
    pub profile: Profile,
    pub edits: List<(u64, Edit)>,
    pub manifest: Result<Manifest, u64>,
}

impl ManifestFront {
    /// The manifest, where each of its groups is an edit's. Else `Damaged` tells the gate of the
    /// first that isn't. No other fault comes.
    pub fn whole(self) -> Result<Replayed, LogFault>
        ensures whole { IfOk result (λ replayed. (self.manifest ≡ Ok replayed.manifest)
            × (replayed.profile ≡ self.profile) × (replayed.edits ≡ self.edits)) }
        ensures broken { IfErr result (λ fault. (at : ℕ) × (self.manifest ≡ Err at)
            × (fault ≡ LogFault.Damaged at)) }
    {
        let ManifestFront {
            profile,
            edits,
            manifest,
        } = self;
        match manifest {
            Ok(manifest) => Ok(Replayed {
                profile,
                edits,
                manifest,
            }),
            Err(at) => Err(LogFault::Damaged { at }),
        }
    }
}
