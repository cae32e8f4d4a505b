//! Laws of the layout. Each function runs nothing; its contract is the law.

ghost use Rattle.std.specs.Prelude.{◌≡◌, ℕ, List};
ghost use Rattle.peb_base.specs.Batches.{Batches};
ghost use Rattle.peb_base.specs.declared.profile.Profile.{Profile};
ghost use Rattle.disk_model.specs.Images.{Image};
ghost use Rattle.flsm_model.specs.Shape.{Record};
ghost use Rattle.store_layout.specs.Examples.{NothingStands, FirstStands};
ghost use Rattle.store_layout.specs.Logs.{Held, AreRecords, SpellsAll};
ghost use Rattle.store_layout.specs.Recorded.{ReadsBy, SameStore};

use manifest::one_manifest;
use record_log::{one_batch, one_reading};

/// Records are those of one list of batches at most, and so are the logs that hold them.
pub fn one_spelling()
    ensures records { (session : ℕ) (bodies : List (List ℕ)) (a b : Batches)
        → AreRecords session bodies a → AreRecords session bodies b → a ≡ b }
    ensures logs { (logs : List Held) (a b : Batches) → SpellsAll logs a → SpellsAll logs b
        → a ≡ b }
{
    // One batch for the bytes of a record.
    one_batch();
}

/// An image is read in one way at most, whatever the profile: one record, and by this one list of
/// logs, which spell one list of batches.
pub fn one_layout()
    ensures { (profile other : Profile) (image : Image) (d e : Record) (a b : List Held)
        (x y : Batches) → ReadsBy profile d image a x → ReadsBy other e image b y
        → SameStore d e a b x y }
{
    // One header and one list of groups for the bytes of a log.
    one_reading();
    one_batch();
    // One profile and one list of edits for the bytes of a manifest.
    one_manifest();
}

/// An image without files stands for no batches and for the record without edits; and so do the
/// files after the first opening, with that opening in the record.
pub fn first_images()
    ensures nothing { NothingStands }
    ensures opened { FirstStands }
{}
