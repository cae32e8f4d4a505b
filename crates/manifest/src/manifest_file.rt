//! The manifest: the edits of the store's record, in a file of the journal.

ghost use Rattle.std.specs.Prelude.{◌≡◌, ◌≢◌, ◌↔◌, ◌⊎◌, ◌<◌, ◌≤◌, ◌+◌, ◌^◌, ◌++◌, ◌∷◌, [], List, ℕ, IsTrue, length, IsErrOf, IfOk, IfErr, IfSome, IfNone, OnOk, Ok, Err, Some, None};
ghost use Rattle.std.specs.List.{AllByRecursion};
ghost use Rattle.disk_model.specs.Images.{Follows, In, Stays, Keeps, Elapses, Rose};
ghost use Rattle.disk_model.specs.declared.journal_file.JournalFile.{JournalFile};
ghost use Rattle.disk_model.specs.declared.journal_file.JournalFile.TheVariants.{ManifestA};
ghost use Rattle.flsm_model.specs.declared.edit.Edit.{Edit};
ghost use Rattle.peb_base.specs.declared.profile.Profile.{Profile};
ghost use Rattle.record_log.specs.Damage.{AtDamage};
ghost use Rattle.record_log.specs.Log.{HasNoHeader, IsUnfinished};
ghost use Rattle.record_log.specs.State.{log_file};
ghost use Rattle.manifest.specs.Edits.{edit_bytes, IsEdit};

use crate::append_fault::AppendFault;
use crate::edit_groups::{EditsRead, all_edits};
use crate::edit_record::write_edit;
use crate::replayed::{ManifestFront, Replayed};
use disk_model::{Journal, JournalFile};
use flsm_model::Edit;
use peb_base::{List, Profile};
use record_log::{Header, LogFault, LogFile, LogFront};
use std::alloc::Global;

/// The manifest: a file of edits, of which each is a group of one record.
#[derive(Drop)]
pub struct Manifest {
    alloc: Global,
    log: LogFile,
    ghost file: { log_file log ≡ ManifestA },
}

impl Manifest {
    ghost use Rattle.manifest.specs.Manifests.{IsManifest, IsBeforeOrAfterEdit, CreatesManifest, IsReadyManifest, IsUnspent, IsDamagedBehind, IsDamagedManifest, ArePlaced, edits_of};

    /// Creates a manifest with no edit, in place of one that is there. Until `Ok` a crash leaves
    /// the file as it was, or one that `replay` doesn't find, or the new one; after it, the new
    /// one.
    ///
    /// `Fault` tells that the journal failed, and leaves any of these three; `Memory` comes before
    /// any call on the journal. `Damaged` never comes.
    pub fn create<J: Journal>(
        alloc: Global,
        journal: &mut J,
        profile: Profile,
    ) -> Result<Manifest, LogFault>
        // what it gives
        ensures ready { IfOk result (λ manifest. IsTrue J.tells
            → IsReadyManifest J.tells J.seen J.may_leave journal.new manifest profile []) }
        ensures unspent { IfOk result IsUnspent }
        // what it leaves
        ensures any_moment { IsTrue J.tells
            → Follows (In ManifestA (CreatesManifest profile)) (J.may_leave journal.old)
            (J.left_since journal.new (J.moment journal.old)) }
        // when it fails
        ensures fault { IsErrOf result LogFault.Fault
            → Rose (J.faults journal.old) (J.faults journal.new) }
        ensures undamaged { (at : ℕ) → IsErrOf result (LogFault.Damaged at) → ⊥ }
        ensures memory { IsErrOf result LogFault.Memory → journal.new ≡ journal.old }
        // what stays
        ensures never_falls { J.faults journal.old ≤ J.faults journal.new }
        ensures elsewhere { (other : JournalFile) → other ≢ ManifestA
            → J.seen journal.new other ≡ J.seen journal.old other }
        ensures time { Elapses (J.moment journal.old) (J.moment journal.new)
            (J.left_since journal.old) (J.left_since journal.new) }
        ensures steady { J.steady journal.old → J.steady journal.new }
    {
        let header = Header {
            kind: b'M',
            form: 1,
            profile,
            number: 1,
            session: 0,
        };
        let log = LogFile::create(alloc, journal, JournalFile::ManifestA, header)?;
        Ok(Manifest { alloc, log })
    }

    /// Appends an edit, as one group. After `Ok` every crash leaves it; at any moment before, all
    /// of it or nothing.
    ///
    /// `Full` comes exactly where the edit's record would have more than 2,147,483,648 bytes, the
    /// four of its length among them. It and `Memory` come before any call on the journal, and
    /// leave the manifest ready as before. `Fault` tells that the journal failed. The manifest is
    /// spent then: replay its file again.
    pub fn append<J: Journal>(&mut self, journal: &mut J, edit: &Edit) -> Result<(), AppendFault>
        requires unspent { IsUnspent self.old }
        requires ready { IsTrue J.tells → (profile : Profile) × (edits : List Edit)
            × IsReadyManifest J.tells J.seen J.may_leave journal.old self.old profile edits }
        // what it gives
        ensures edit { OnOk result (IsEdit edit.now) }
        ensures appended { OnOk result ((profile : Profile) (edits : List Edit)
            → IsReadyManifest J.tells J.seen J.may_leave journal.old self.old profile edits
            → IsReadyManifest J.tells J.seen J.may_leave journal.new self.new profile
            (edits ++ edit.now ∷ [])) }
        ensures unspent { OnOk result (IsUnspent self.new) }
        // what it leaves
        ensures any_moment { (profile : Profile) (edits : List Edit)
            → IsReadyManifest J.tells J.seen J.may_leave journal.old self.old profile edits
            → Follows (In ManifestA (λ old new. IsBeforeOrAfterEdit profile edits edit.now new))
            (J.may_leave journal.old) (J.left_since journal.new (J.moment journal.old)) }
        ensures still_ready { IfErr result (λ fault. fault ≢ AppendFault.Fault
            → IsUnspent self.new × ((profile : Profile) (edits : List Edit)
            → IsReadyManifest J.tells J.seen J.may_leave journal.old self.old profile edits
            → IsReadyManifest J.tells J.seen J.may_leave journal.new self.new profile edits)) }
        ensures uncalled { IfErr result (λ fault. fault ≢ AppendFault.Fault
            → journal.new ≡ journal.old) }
        // when it fails
        ensures full { IsErrOf result AppendFault.Full
            ↔ (2 ^ 31 < length (edit_bytes edit.now) + 4) }
        ensures fault { IsErrOf result AppendFault.Fault
            → Rose (J.faults journal.old) (J.faults journal.new) }
        // what stays
        ensures never_falls { J.faults journal.old ≤ J.faults journal.new }
        ensures elsewhere { (other : JournalFile) → other ≢ ManifestA
            → J.seen journal.new other ≡ J.seen journal.old other }
        ensures time { Elapses (J.moment journal.old) (J.moment journal.new)
            (J.left_since journal.old) (J.left_since journal.new) }
        ensures steady { J.steady journal.old → J.steady journal.new }
    {
        let body = write_edit(self.alloc, edit)?;
        self.log.add(&body)?;
        self.log.close_group(journal)?;
        Ok(())
    }

    /// Syncs the manifest's file and reads it.
    ///
    /// `None` tells that the file isn't there or wasn't created to its end. `Damaged` tells the
    /// first place that isn't in form: 0 for the header, and else the gate of the first group that
    /// isn't one record of one edit, or isn't whole. `Fault` tells that the journal failed. Nothing
    /// is changed; after `Ok` every crash leaves the file as it was read.
    pub fn replay<J: Journal>(alloc: Global, journal: &mut J) -> Result<Option<Replayed>, LogFault>
        // what it gives
        ensures each { IfOk result (λ found. IfSome found
            (λ replayed. AllByRecursion IsEdit (edits_of replayed.edits))) }
        ensures found { IfOk result (λ found. IfSome found (λ replayed. IsTrue J.tells
            → IsManifest replayed.profile (edits_of replayed.edits)
            (J.seen journal.old ManifestA))) }
        ensures gates { IfOk result (λ found. IfSome found (λ replayed. IsTrue J.tells
            → ArePlaced replayed.edits)) }
        ensures ready { IfOk result (λ found. IfSome found (λ replayed. IsTrue J.tells
            → IsReadyManifest J.tells J.seen J.may_leave journal.new replayed.manifest
            replayed.profile (edits_of replayed.edits))) }
        ensures unspent { IfOk result (λ found. IfSome found
            (λ replayed. IsUnspent replayed.manifest)) }
        ensures absent { IfOk result (λ found. IfNone found (IsTrue J.tells
            → IsUnfinished (J.seen journal.old ManifestA))) }
        // when it fails
        ensures damaged { IfErr result (λ fault. IsTrue J.tells
            → AtDamage fault (IsDamagedManifest (J.seen journal.old ManifestA))) }
        ensures fault { IsErrOf result LogFault.Fault
            → Rose (J.faults journal.old) (J.faults journal.new) }
        // what it leaves
        ensures kept { OnOk result (Keeps ManifestA (J.seen journal.old ManifestA)
            (J.may_leave journal.new)) }
        ensures seen { J.seen journal.new ≡ J.seen journal.old }
        ensures any_moment { Follows (In ManifestA Stays) (J.may_leave journal.old)
            (J.left_since journal.new (J.moment journal.old)) }
        // what stays
        ensures never_falls { J.faults journal.old ≤ J.faults journal.new }
        ensures time { Elapses (J.moment journal.old) (J.moment journal.new)
            (J.left_since journal.old) (J.left_since journal.new) }
        ensures steady { J.steady journal.old → J.steady journal.new }
    {
        match Manifest::replay_front(alloc, journal) {
            Ok(Some(front)) => match front.whole() {
                Ok(replayed) => Ok(Some(replayed)),
                Err(fault) => Err(fault),
            },
            Ok(None) => Ok(None),
            Err(fault) => Err(fault),
        }
    }

    /// Syncs the manifest's file and reads it up to the first group that isn't one record of one
    /// edit, or isn't whole: the edits before that one, and its gate; or, where there is none, all
    /// edits, and the manifest ready for further ones.
    ///
    /// `None` tells that the file isn't there or wasn't created to its end. `Damaged` tells that no
    /// header of a manifest stands at its front, and its place is 0. `Fault` tells that the journal
    /// failed. Nothing is changed; after `Ok` every crash leaves the file as it was read.
    pub fn replay_front<J: Journal>(
        alloc: Global,
        journal: &mut J,
    ) -> Result<Option<ManifestFront>, LogFault>
        // what it gives
        ensures each { IfOk result (λ found. IfSome found
            (λ front. AllByRecursion IsEdit (edits_of front.edits))) }
        ensures found { IfOk result (λ found. IfSome found (λ front. IfOk front.manifest
            (λ manifest. IsTrue J.tells → IsManifest front.profile (edits_of front.edits)
            (J.seen journal.old ManifestA)))) }
        ensures broken { IfOk result (λ found. IfSome found (λ front. IfErr front.manifest
            (λ at. IsTrue J.tells → IsDamagedBehind front.profile (edits_of front.edits)
            (J.seen journal.old ManifestA) at))) }
        ensures gates { IfOk result (λ found. IfSome found (λ front. IsTrue J.tells
            → ArePlaced front.edits)) }
        ensures ready { IfOk result (λ found. IfSome found (λ front. IfOk front.manifest
            (λ manifest. IsTrue J.tells
            → IsReadyManifest J.tells J.seen J.may_leave journal.new manifest front.profile
            (edits_of front.edits)))) }
        ensures unspent { IfOk result (λ found. IfSome found
            (λ front. IfOk front.manifest IsUnspent)) }
        ensures absent { IfOk result (λ found. IfNone found (IsTrue J.tells
            → IsUnfinished (J.seen journal.old ManifestA))) }
        // when it fails
        ensures damaged { IfErr result (λ fault. AtDamage fault (λ at. (at ≡ 0)
            × (IsTrue J.tells → HasNoHeader ManifestA (J.seen journal.old ManifestA)))) }
        ensures fault { IsErrOf result LogFault.Fault
            → Rose (J.faults journal.old) (J.faults journal.new) }
        // what it leaves
        ensures kept { OnOk result (Keeps ManifestA (J.seen journal.old ManifestA)
            (J.may_leave journal.new)) }
        ensures seen { J.seen journal.new ≡ J.seen journal.old }
        ensures any_moment { Follows (In ManifestA Stays) (J.may_leave journal.old)
            (J.left_since journal.new (J.moment journal.old)) }
        // what stays
        ensures never_falls { J.faults journal.old ≤ J.faults journal.new }
        ensures time { Elapses (J.moment journal.old) (J.moment journal.new)
            (J.left_since journal.old) (J.left_since journal.new) }
        ensures steady { J.steady journal.old → J.steady journal.new }
    {
        let front = match LogFile::read_front(alloc, journal, JournalFile::ManifestA) {
            Ok(Some(front)) => front,
            Ok(None) => return Ok(None),
            Err(fault) => return Err(fault),
        };
        let LogFront {
            header,
            records,
            log,
        } = front;
        let EditsRead { edits, broken } = match all_edits(alloc, &records) {
            Ok(read) => read,
            Err(fault) => return Err(fault),
        };
        Ok(Some(ManifestFront {
            profile: header.profile,
            edits: List::of(edits),
            manifest: manifest_of(alloc, log, broken),
        }))
    }
}

/// The manifest of a log all of whose groups are edits', or the first gate of a group that isn't.
fn manifest_of(
    alloc: Global,
    log: Result<LogFile, u64>,
    broken: Option<u64>,
) -> Result<Manifest, u64>
    requires { IfOk log (λ l. log_file l ≡ ManifestA) }
    ensures whole { IfOk result (λ manifest. (broken ≡ None)
        × (log ≡ Ok manifest.log)) }
    ensures broken { IfErr result (λ at. (broken ≡ Some at) ⊎ ((broken ≡ None) × (log ≡ Err at))) }
{
    if let Some(at) = broken {
        return Err(at);
    }
    match log {
        Ok(log) => Ok(Manifest { alloc, log }),
        Err(at) => Err(at),
    }
}
