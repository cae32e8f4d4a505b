//! The jobs that ranges want.

ghost use Rattle.std.specs.Prelude.{◌≡◌, ◌≤◌, ◌<◌, ◌-◌, ◌&&◌, ◌||◌, ◌==◌, not, suc, false, [], length, filter, unwrap_or, IfOk, IfSome};
ghost use Rattle.std.specs.Option.{option_copied};
ghost use Rattle.peb_base.specs.Guards.{Ascend};
ghost use Rattle.peb_base.specs.Profiles.{column, Column};
ghost use Rattle.flsm_model.specs.declared.job.Job.{Job};
ghost use Rattle.flsm_model.specs.declared.job_kind.JobKind.TheVariants.{Flush};
ghost use Rattle.flsm_model.specs.GuardRanges.{range_at};
ghost use Rattle.flsm_model.specs.Picking as picking;
ghost use Rattle.flsm_model.specs.Ranges.{has_key, range_of};
ghost use Rattle.flsm_model.specs.Shape.{Shape, guards_at};
ghost use Rattle.job_picker.specs.Seen as seen;
ghost use Rattle.job_picker.specs.Seen.{keys_at, IsVersion, AreCandidates, job_of_range};

use crate::guard_range::GuardRange;
use crate::job_claims::copy_end;
use crate::keys::{first_missing, is_guard, keys_in};
use crate::levels::{guard_of, keys_of, tables_of};
use crate::numbers::{numbers_of, numbers_split};
use flsm_model::{Job, JobKind, law_candidates};
use guard_choice::Candidates;
use peb_base::{Key, List, Memory, Number, Options, TableLike};
use std::alloc::Global;
use version::Version;

/// A job over a range, not whole; its table numbers and its floor are 0 until it begins.
fn job_over(
    alloc: Global,
    kind: JobKind,
    level: u8,
    range: GuardRange,
    inputs: Vec<u64>,
    keys: Vec<Key>,
) -> Result<Job, Memory>
    ensures { IfOk result (λ job. job ≡ picking.job_over kind level
        (range.entry.lo.now, option_copied range.entry.hi) inputs.items keys.items false) }
{
    let lo = List::of(Vec::from_slice(alloc, range.lo)?);
    let hi = copy_end(alloc, range.hi)?;
    Ok(Job {
        kind,
        level,
        lo,
        hi,
        inputs: List::of(inputs),
        keys: List::of(keys),
        numbers: 0,
        floor: Number::of_packed(0),
        whole: false,
    })
}

/// The Flush.
pub fn flush_job(alloc: Global) -> Result<Job, Memory>
    ensures { IfOk result (λ job. job ≡ picking.flush_job) }
{
    let all = GuardRange { lo: &[], hi: None };
    job_over(
        alloc,
        JobKind::Flush,
        0,
        all,
        Vec::new(alloc),
        Vec::new(alloc),
    )
}

/// The Move of all tables of a guard of a level above the last.
fn move_job<T: TableLike + Drop>(
    alloc: Global,
    version: &Version<T>,
    level: u8,
    guard: usize,
) -> Result<Job, Memory>
    requires level { level < length version.now.levels }
    requires small { level < 255 }
    requires guard { guard ≤ length (keys_at version.now level) }
    ensures level { IfOk result (λ job. job.level ≡ level) }
    ensures job { IfOk result (λ job. (o : Column) (s : Shape)
        → IsVersion T.HasRow.the_row o version.now s
        → job ≡ picking.move_job s level (range_at (keys_at version.now level) guard)) }
{
    let range = GuardRange::of(keys_of(version, level), guard);
    let inputs = numbers_of(alloc, tables_of(version, level, guard))?;
    let keys = keys_in(alloc, keys_of(version, level + 1), range)?;
    job_over(alloc, JobKind::Move, level, range, inputs, keys)
}

/// The whole Merge of a guard of the last level.
fn merge_job<T: TableLike + Drop>(
    alloc: Global,
    version: &Version<T>,
    level: u8,
    guard: usize,
) -> Result<Job, Memory>
    requires level { level ≡ length version.now.levels }
    requires guard { guard ≤ length (keys_at version.now level) }
    ensures level { IfOk result (λ job. job.level ≡ level) }
    ensures job { IfOk result (λ job. (o : Column) (s : Shape)
        → IsVersion T.HasRow.the_row o version.now s
        → job ≡ picking.merge_job o s (range_at (keys_at version.now level) guard)) }
{
    let range = GuardRange::of(keys_of(version, level), guard);
    let inputs = numbers_of(alloc, tables_of(version, level, guard))?;
    let job = job_over(alloc, JobKind::Merge, level, range, inputs, Vec::new(alloc))?;
    Ok(Job { whole: true, ..job })
}

/// Whether the key, a candidate of the level, may be a new guard there: it is none yet, and is one
/// of the next level, if there is one.
fn is_new_guard<T: TableLike + Drop>(
    version: &Version<T>,
    options: &Options,
    level: u8,
    key: &[u8],
) -> bool
    requires levels { length version.now.levels ≡ options.now.last_level }
    requires level { level ≤ options.now.last_level }
    ensures { result ≡ seen.is_new_guard version.now options.now.last_level level key.now }
{
    !is_guard(keys_of(version, level), key)
        && (level == options.last_level || is_guard(keys_of(version, level + 1), key))
}

/// Those of the candidates of a level that may be new guards there.
fn new_guards<T: TableLike + Drop>(
    alloc: Global,
    version: &Version<T>,
    options: &Options,
    level: u8,
    found: Vec<Key>,
) -> Result<Vec<Key>, Memory>
    requires levels { length version.now.levels ≡ options.now.last_level }
    requires level { level ≤ options.now.last_level }
    ensures { IfOk result (λ keys. keys.items
        ≡ filter (seen.is_new_guard version.now options.now.last_level level) found.items) }
{
    let mut keys = Vec::new(alloc);
    for key in found {
        if is_new_guard(version, options, level, key.bytes()) {
            keys.push(key)?;
        }
    }
    Ok(keys)
}

/// The Cut of the guard of a level that has the key, by all keys that may be cut there.
fn cut_job<T: TableLike + Drop>(
    alloc: Global,
    version: &Version<T>,
    candidates: &Candidates,
    options: &Options,
    level: u8,
    key: &[u8],
) -> Result<Job, Memory>
    requires levels { length version.now.levels ≡ options.now.last_level }
    requires level { level ≤ options.now.last_level }
    ensures level { IfOk result (λ job. job.level ≡ level) }
    ensures job { IfOk result (λ job. (s : Shape)
        → IsVersion T.HasRow.the_row (column options.now.profile) version.now s
        → AreCandidates candidates.now s
        → job ≡ picking.cut_job (column options.now.profile) s level
        (range_of (guards_at s level) key.now)) }
{
    // Ascending keys are known by the test for which they hold.
    law_candidates();
    let guard = guard_of(version, level, key);
    let range = GuardRange::of(keys_of(version, level), guard);
    let found = candidates.in_range(level, range.lo, range.hi)?;
    let keys = new_guards(alloc, version, options, level, found)?;
    let inputs = numbers_split(alloc, tables_of(version, level, guard), &keys)?;
    job_over(alloc, JobKind::Cut, level, range, inputs, keys)
}

/// The Cut of the level at the first of the wanted keys that is no guard there, if there is one.
fn cut_at<T: TableLike + Drop>(
    alloc: Global,
    version: &Version<T>,
    candidates: &Candidates,
    options: &Options,
    level: u8,
    wanted: &[Key],
) -> Result<Option<Job>, Memory>
    requires levels { length version.now.levels ≡ options.now.last_level }
    requires level { level ≤ options.now.last_level }
    ensures level { IfOk result (λ found. IfSome found (λ job. job.level ≡ level)) }
    ensures job { IfOk result (λ found. (s : Shape) (other : Job)
        → IsVersion T.HasRow.the_row (column options.now.profile) version.now s
        → AreCandidates candidates.now s
        → picking.cut_or (column options.now.profile) s level
        (filter (λ key. not (has_key key (keys_at version.now level))) wanted.now) other
        ≡ unwrap_or found other) }
{
    let Some(key) = first_missing(keys_of(version, level), wanted) else {
        return Ok(None);
    };
    let job = cut_job(alloc, version, candidates, options, level, key.bytes())?;
    Ok(Some(job))
}

/// The Cut that comes before the Move of a guard of a level above the last, if there is one: at the
/// deepest level where a candidate of the next level is missing.
fn cut_before<T: TableLike + Drop>(
    alloc: Global,
    version: &Version<T>,
    candidates: &Candidates,
    options: &Options,
    level: u8,
    guard: usize,
) -> Result<Option<Job>, Memory>
    requires levels { length version.now.levels ≡ options.now.last_level }
    requires level { level < options.now.last_level }
    requires guard { guard ≤ length (keys_at version.now level) }
    ensures level { IfOk result
        (λ found. IfSome found (λ job. job.level ≤ options.now.last_level)) }
    ensures job { IfOk result (λ found. (s : Shape) (other : Job)
        → IsVersion T.HasRow.the_row (column options.now.profile) version.now s
        → AreCandidates candidates.now s
        → picking.job_at (column options.now.profile) s (suc level)
        (range_at (keys_at version.now level) guard) (options.now.last_level - level) other
        ≡ unwrap_or found other) }
{
    // Ascending keys are known by the test for which they hold.
    law_candidates();
    let range = GuardRange::of(keys_of(version, level), guard);
    let wanted = candidates.in_range(level + 1, range.lo, range.hi)?;
    let mut deeper = options.last_level;
    while deeper > level {
        if let Some(cut) = cut_at(alloc, version, candidates, options, deeper, &wanted)? {
            return Ok(Some(cut));
        }
        deeper -= 1;
    }
    Ok(None)
}

/// The job of a guard that holds too many tables; the sentinel is the first.
pub fn job_of<T: TableLike + Drop>(
    alloc: Global,
    version: &Version<T>,
    candidates: &Candidates,
    options: &Options,
    level: u8,
    guard: usize,
) -> Result<Job, Memory>
    requires levels { length version.now.levels ≡ options.now.last_level }
    requires level { level ≤ options.now.last_level }
    requires guard { guard ≤ length (keys_at version.now level) }
    ensures level { IfOk result (λ job. job.level ≤ options.now.last_level) }
    ensures job { IfOk result (λ job. (s : Shape)
        → IsVersion T.HasRow.the_row (column options.now.profile) version.now s
        → AreCandidates candidates.now s
        → job ≡ job_of_range (column options.now.profile) s level
        (range_at (keys_at version.now level) guard)) }
{
    if level == options.last_level {
        return merge_job(alloc, version, level, guard);
    }
    match cut_before(alloc, version, candidates, options, level, guard)? {
        Some(cut) => Ok(cut),
        None => move_job(alloc, version, level, guard),
    }
}
