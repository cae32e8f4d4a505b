ghost use Rattle.std.specs.Prelude.{◌≡◌, ◌^◌, ◌<◌, ◌≤◌, ◌+◌, ◌%◌, None, Some, IfSome, IfOk, OnErr, IsTrue, is_err, length, take, drop, true, reverse};
ghost use Rattle.std.proofs.Props.{props};
ghost use Rattle.disk_model.specs.declared.journal_file.JournalFile.{JournalFile};
ghost use Rattle.std.specs.Option.{option_copied};
ghost use Rattle.disk_model.specs.declared.pick.Pick.TheVariants.{Old, New};
ghost use Rattle.disk_model.specs.Images.{content, size_of, IsAtRest};
ghost use Rattle.disk_model.specs.Files.{image_of, changed};
ghost use Rattle.disk_model.specs.Plans.{IsEmptyPlan, fails_at};
ghost use Rattle.disk_model.specs.Past.{read_after, kept_after, AreCalls, AreCalls-prop};

use crate::call::Call;
use crate::calls::{add_removal, add_sync, add_write};
use crate::crash::leave;
use crate::files::{copy_from, copy_of, get, put};
use crate::stored::Stored;
use crate::turns::Turns;
use crate::{FailPlan, Failed, Journal, JournalFile, Pick};
use std::alloc::{AllocError, Global};

/// A journal in memory. It tells all it holds, and fails by its plan.
///
/// It keeps its calls but `size` and `read`, from which it tells what a crash may leave.
#[derive(Drop)]
pub struct MemJournal {
    alloc: Global,
    turns: Turns,
    first: Vec<Stored>,
    past: Vec<Call>,
    files: Vec<Stored>,
    ghost agrees: { (file : JournalFile)
        → image_of files.items file
        ≡ read_after (image_of first.items) (reverse past.items) file } by { Prim.hlevel props },
    ghost calls: { AreCalls (image_of first.items) (reverse past.items) } by { AreCalls-prop
        (image_of first.items) (reverse past.items) },
}

fn size_in(files: &[Stored], file: JournalFile) -> Option<u64>
    ensures size { result ≡ size_of (image_of files.now file) }
    ensures fits { IfSome result (λ n. n < 2 ^ 63) }
{
    match get(files, file) {
        Some(bytes) => Some(bytes.len() as u64),
        None => None,
    }
}

fn read_in(files: &[Stored], file: JournalFile, at: u64, out: &mut [u8]) -> usize
    ensures count { result ≤ length out.old }
    ensures read { take result out.new
        ≡ take (length out.old) (drop at (content (image_of files.now file))) }
{
    match get(files, file) {
        Some(bytes) => copy_from(bytes, at, out),
        None => 0,
    }
}

impl Journal for MemJournal {
    ghost use Rattle.disk_model.specs.Past.{IsLeft, IsLeftSince, left_now, only_left, kept_left};

    ghost tells = { true };

    ghost is_atomic = { true };

    ghost seen = { λ m. image_of m.files.items };

    ghost may_leave = { λ m image. IsLeft (image_of m.first.items) (reverse m.past.items) image };

    ghost moment = { λ m. length (reverse m.past.items) };

    ghost left_since = { λ m t image. IsLeftSince (image_of m.first.items) (reverse m.past.items) t image };

    ghost faults = { λ m. m.turns.faults };

    ghost steady = { λ m. IsEmptyPlan m.turns.plan };

    ghost counts_now = { λ m t image le now. left_now (image_of m.first.items)
        (reverse m.past.items) t image now };

    ghost only_now = { λ m image left. only_left (image_of m.first.items)
        (reverse m.past.items) image left };

    ghost read_is_left = { λ m told. kept_left (image_of m.first.items) (reverse m.past.items)
        (image_of m.files.items) m.calls m.agrees };

    #[tactic(auto, using(crate::proofs::Kept::follows_same, crate::proofs::Kept::elapses_same))]
    fn size(&mut self, file: JournalFile) -> Result<Option<u64>, Failed> {
        self.turns.begin()?;
        Ok(size_in(&self.files, file))
    }

    #[tactic(auto, using(crate::proofs::Kept::follows_same, crate::proofs::Kept::elapses_same))]
    fn read(&mut self, file: JournalFile, at: u64, out: &mut [u8]) -> Result<usize, Failed> {
        self.turns.begin()?;
        Ok(read_in(&self.files, file, at, out))
    }

    fn write(&mut self, file: JournalFile, at: u64, bytes: &[u8]) -> Result<(), Failed> {
        self.turns.begin()?;
        let (past, files) = (&mut self.past, &mut self.files);
        match add_write(self.alloc, past, files, file, at, bytes) {
            Ok(()) => Ok(()),
            Err(_) => Err(self.turns.fail()),
        }
    }

    fn sync(&mut self, file: JournalFile) -> Result<(), Failed> {
        self.turns.begin()?;
        match add_sync(&mut self.past, file) {
            Ok(()) => Ok(()),
            Err(_) => Err(self.turns.fail()),
        }
    }

    fn drop_file(&mut self, file: JournalFile) -> Result<(), Failed> {
        self.turns.begin()?;
        match add_removal(&mut self.past, &mut self.files, file) {
            Ok(()) => Ok(()),
            Err(_) => Err(self.turns.fail()),
        }
    }
}

impl MemJournal {
    ghost use Rattle.disk_model.specs.Failing.{journal_plan};

    /// A journal with no file.
    pub fn new(alloc: Global, plan: FailPlan) -> MemJournal
        ensures empty { ⟦<MemJournal as Journal>⟧.seen result ≡ (λ _. None) }
        ensures rests { IsAtRest (⟦<MemJournal as Journal>⟧.seen result)
            (⟦<MemJournal as Journal>⟧.may_leave result) }
        ensures faults { ⟦<MemJournal as Journal>⟧.faults result ≡ 0 }
        ensures plan { journal_plan result ≡ plan }
    {
        MemJournal {
            alloc,
            turns: Turns::new(plan),
            first: Vec::new(alloc),
            past: Vec::new(alloc),
            files: Vec::new(alloc),
        }
    }

    /// A journal that rests on these files.
    fn resting(alloc: Global, plan: FailPlan, first: Vec<Stored>) -> Result<MemJournal, AllocError>
        ensures seen { IfOk result (λ journal. ⟦<MemJournal as Journal>⟧.seen journal
            ≡ image_of first.items) }
        ensures rests { IfOk result (λ journal.
            IsAtRest (⟦<MemJournal as Journal>⟧.seen journal)
            (⟦<MemJournal as Journal>⟧.may_leave journal)) }
        ensures faults { IfOk result (λ journal. ⟦<MemJournal as Journal>⟧.faults journal ≡ 0) }
        ensures plan { IfOk result (λ journal. journal_plan journal ≡ plan) }
    {
        let files = copy_of(alloc, &first)?;
        Ok(MemJournal {
            alloc,
            turns: Turns::new(plan),
            first,
            past: Vec::new(alloc),
            files,
        })
    }

    /// The journal after a crash, which rests on one of the images that the crash may leave.
    pub fn crash(self, pick: Pick) -> Result<MemJournal, AllocError>
        ensures allowed { IfOk result (λ after.
            ⟦<MemJournal as Journal>⟧.may_leave self (⟦<MemJournal as Journal>⟧.seen after)) }
        ensures old { pick ≡ Old →
            IfOk result (λ after. ⟦<MemJournal as Journal>⟧.seen after
            ≡ kept_after (image_of self.first.items) (reverse self.past.items)) }
        ensures new { pick ≡ New →
            IfOk result (λ after. ⟦<MemJournal as Journal>⟧.seen after
            ≡ ⟦<MemJournal as Journal>⟧.seen self) }
        ensures rests { IfOk result (λ after.
            IsAtRest (⟦<MemJournal as Journal>⟧.seen after)
            (⟦<MemJournal as Journal>⟧.may_leave after)) }
        ensures faults { IfOk result (λ after. ⟦<MemJournal as Journal>⟧.faults after ≡ 0) }
        ensures plan { IfOk result (λ after. IsEmptyPlan (journal_plan after)) }
    {
        let MemJournal {
            alloc,
            turns: _,
            first,
            past,
            files: _,
        } = self;
        let left = leave(alloc, pick, first, &past)?;
        MemJournal::resting(alloc, FailPlan::empty(alloc), left)
    }

    /// The journal that rests on the files with these bytes in place of one file's.
    pub fn with_file(self, file: JournalFile, bytes: &[u8]) -> Result<MemJournal, AllocError>
        ensures seen { IfOk result (λ after. ⟦<MemJournal as Journal>⟧.seen after
            ≡ changed file (Some bytes.now) (⟦<MemJournal as Journal>⟧.seen self)) }
        ensures rests { IfOk result (λ after.
            IsAtRest (⟦<MemJournal as Journal>⟧.seen after)
            (⟦<MemJournal as Journal>⟧.may_leave after)) }
        ensures faults { IfOk result (λ after. ⟦<MemJournal as Journal>⟧.faults after ≡ 0) }
        ensures plan { IfOk result (λ after. journal_plan after ≡ journal_plan self) }
    {
        let MemJournal {
            alloc,
            turns,
            first: _,
            past: _,
            mut files,
        } = self;
        put(&mut files, file, Some(bytes.to_vec(alloc)?))?;
        MemJournal::resting(alloc, turns.into_plan(), files)
    }

    /// The file's bytes as reads give them.
    pub fn bytes_of(&self, file: JournalFile) -> Option<&[u8]>
        ensures { option_copied result ≡ ⟦<MemJournal as Journal>⟧.seen self.now file }
    {
        get(&self.files, file)
    }
}
