//! Which job is due.

ghost use Rattle.std.specs.Prelude.{◌≡◌, ◌≤◌, ◌<◌, ◌∷◌, [], ℕ, List, Option, length, find, is_some, IfOk};
ghost use Rattle.peb_base.specs.Profiles.{column};
ghost use Rattle.flsm_model.specs.Claims as claiming;
ghost use Rattle.flsm_model.specs.Events.{Running};
ghost use Rattle.flsm_model.specs.Fits.{is_some_list};
ghost use Rattle.flsm_model.specs.GuardRanges.{range_at};
ghost use Rattle.flsm_model.specs.Picking.{over_at, ranges_at, wanted};
ghost use Rattle.flsm_model.specs.Shape.{Shape};
ghost use Rattle.job_picker.specs.Kept.{AreClaimsOf};
ghost use Rattle.job_picker.specs.Seen.{keys_at, IsVersion, AreCandidates, job_of_range, jobs_in, jobs_from};

use crate::claims::Claims;
use crate::job_claims::claims_of;
use crate::jobs::{flush_job, job_of};
use crate::levels::{count_of, room_of, tables_of};
use flsm_model::Job;
use guard_choice::Candidates;
use peb_base::{Memory, Options, TableLike};
use std::alloc::Global;
use version::Version;

/// Whether a guard of the level holds too many tables.
fn is_over<T: TableLike + Drop>(version: &Version<T>, options: &Options, level: u8) -> bool
    requires { level ≤ length version.now.levels }
    ensures { (s : Shape) → IsVersion T.HasRow.the_row (column options.now.profile) version.now s
        → result ≡ is_some_list (over_at (column options.now.profile) s level) }
{
    let room = room_of(options, level);
    for guard in 0..count_of(version, level) {
        if tables_of(version, level, guard).len() > room {
            return true;
        }
    }
    false
}

/// Whether a guard of some level holds too many tables.
fn is_any_over<T: TableLike + Drop>(version: &Version<T>, options: &Options) -> bool
    requires { length version.now.levels ≡ options.now.last_level }
    ensures { (s : Shape) → IsVersion T.HasRow.the_row (column options.now.profile) version.now s
        → result ≡ is_some_list (jobs_from (column options.now.profile) s 0) }
{
    for level in 0..options.last_level {
        if is_over(version, options, level) {
            return true;
        }
    }
    is_over(version, options, options.last_level)
}

/// Whether a job is wanted: something is frozen, or level 0 or a guard holds more tables than it
/// may. It takes no memory.
///
/// The version has the levels of the profile.
pub fn due<T: TableLike + Drop>(version: &Version<T>, frozen: bool, options: &Options) -> bool
    requires { length version.now.levels ≡ options.now.last_level }
    ensures { (s : Shape) (to : Option ℕ)
        → IsVersion T.HasRow.the_row (column options.now.profile) version.now s
        → frozen ≡ is_some to
        → result ≡ is_some_list (wanted (column options.now.profile) s to) }
{
    frozen || is_any_over(version, options)
}

/// Whether the job conflicts with no job in flight.
fn is_free(alloc: Global, claims: &Claims, job: &Job) -> Result<bool, Memory>
    requires { job.now.level < 255 }
    ensures { IfOk result (λ free. (rs : List Running) → AreClaimsOf claims.now rs
        → free ≡ claiming.is_free job.now rs) }
{
    let own = claims_of(alloc, job)?;
    Ok(claims.conflict(&own).is_none())
}

/// The job of a guard that holds too many tables, where it is free.
fn free_at<T: TableLike + Drop>(
    alloc: Global,
    version: &Version<T>,
    candidates: &Candidates,
    claims: &Claims,
    options: &Options,
    level: u8,
    guard: usize,
) -> Result<Option<Job>, Memory>
    requires levels { length version.now.levels ≡ options.now.last_level }
    requires level { level ≤ options.now.last_level }
    requires guard { guard ≤ length (keys_at version.now level) }
    ensures { IfOk result (λ found. (s : Shape) (rs : List Running)
        → IsVersion T.HasRow.the_row (column options.now.profile) version.now s
        → AreCandidates candidates.now s → AreClaimsOf claims.now rs
        → found ≡ find (λ j. claiming.is_free j rs)
        (job_of_range (column options.now.profile) s level
        (range_at (keys_at version.now level) guard) ∷ [])) }
{
    let job = job_of(alloc, version, candidates, options, level, guard)?;
    if is_free(alloc, claims, &job)? {
        return Ok(Some(job));
    }
    Ok(None)
}

/// The first free job of the guards of a level that hold too many tables.
fn pick_at<T: TableLike + Drop>(
    alloc: Global,
    version: &Version<T>,
    candidates: &Candidates,
    claims: &Claims,
    options: &Options,
    level: u8,
) -> Result<Option<Job>, Memory>
    requires levels { length version.now.levels ≡ options.now.last_level }
    requires level { level ≤ options.now.last_level }
    ensures { IfOk result (λ found. (s : Shape) (rs : List Running)
        → IsVersion T.HasRow.the_row (column options.now.profile) version.now s
        → AreCandidates candidates.now s → AreClaimsOf claims.now rs
        → found ≡ find (λ j. claiming.is_free j rs)
        (jobs_in (column options.now.profile) s level (ranges_at s level))) }
{
    let room = room_of(options, level);
    for guard in 0..count_of(version, level) {
        if tables_of(version, level, guard).len() <= room {
            continue;
        }
        let found = free_at(alloc, version, candidates, claims, options, level, guard)?;
        if let Some(job) = found {
            return Ok(Some(job));
        }
    }
    Ok(None)
}

/// The first free job of the guards of all levels that hold too many tables.
fn pick_below<T: TableLike + Drop>(
    alloc: Global,
    version: &Version<T>,
    candidates: &Candidates,
    claims: &Claims,
    options: &Options,
) -> Result<Option<Job>, Memory>
    requires { length version.now.levels ≡ options.now.last_level }
    ensures { IfOk result (λ found. (s : Shape) (rs : List Running)
        → IsVersion T.HasRow.the_row (column options.now.profile) version.now s
        → AreCandidates candidates.now s → AreClaimsOf claims.now rs
        → found ≡ find (λ j. claiming.is_free j rs)
        (jobs_from (column options.now.profile) s 0)) }
{
    for level in 0..options.last_level {
        let found = pick_at(alloc, version, candidates, claims, options, level)?;
        if let Some(job) = found {
            return Ok(Some(job));
        }
    }
    pick_at(
        alloc,
        version,
        candidates,
        claims,
        options,
        options.last_level,
    )
}

/// The first job that is wanted and conflicts with no job in flight: the Flush, where something is
/// frozen; then, from level 0 down, the job of each range that holds too many tables, which is a Cut
/// at the deepest level where a guard is missing, or else the Move; then the Merges of the last
/// level. None comes exactly where there is none. The caller sets the job's `numbers` and `floor`,
/// which are 0.
///
/// The version has the levels of the profile. The version and the candidates stand for a shape that
/// a legal record leaves, and the claims are those of the jobs in flight.
pub fn pick<T: TableLike + Drop>(
    alloc: Global,
    version: &Version<T>,
    frozen: bool,
    candidates: &Candidates,
    claims: &Claims,
    options: &Options,
) -> Result<Option<Job>, Memory>
    requires { length version.now.levels ≡ options.now.last_level }
    ensures { IfOk result (λ found. (s : Shape) (to : Option ℕ) (rs : List Running)
        → IsVersion T.HasRow.the_row (column options.now.profile) version.now s
        → AreCandidates candidates.now s → frozen ≡ is_some to → AreClaimsOf claims.now rs
        → found ≡ find (λ j. claiming.is_free j rs) (wanted (column options.now.profile) s to)) }
{
    if !frozen {
        return pick_below(alloc, version, candidates, claims, options);
    }
    let job = flush_job(alloc)?;
    if is_free(alloc, claims, &job)? {
        return Ok(Some(job));
    }
    pick_below(alloc, version, candidates, claims, options)
}
