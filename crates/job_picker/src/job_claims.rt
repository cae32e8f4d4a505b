//! The claims of a job.

ghost use Rattle.std.specs.Prelude.{◌≡◌, ◌<◌, ◌+◌, IfOk};
ghost use Rattle.std.specs.Option.{option_copied};
ghost use Rattle.flsm_model.specs.Claims as model;

use flsm_model::{Claim, Job, JobKind, Mode};
use peb_base::{Key, List, Memory};
use std::alloc::Global;

/// A copy of the end of a range, if it has one.
pub fn copy_end(alloc: Global, end: Option<&Key>) -> Result<Option<Key>, Memory>
    ensures { IfOk result (λ copy. copy ≡ option_copied end.entry) }
{
    match end {
        Some(end) => Ok(Some(end.copy(alloc)?)),
        None => Ok(None),
    }
}

/// A claim over the job's range.
fn claim(alloc: Global, job: &Job, level: u8, mode: Mode) -> Result<Claim, Memory>
    ensures { IfOk result (λ claim. claim ≡ model.claim job.now level mode) }
{
    let lo = List::of(Vec::from_slice(alloc, job.lo.items())?);
    let hi = copy_end(alloc, job.hi.as_ref())?;
    Ok(Claim {
        level,
        lo,
        hi,
        mode,
    })
}

/// The level at which a Flush has its claims.
const FLUSH_LEVEL: u8 = 255;

/// The claims of a job, the same one twice where it needs one. A Move's level is below 255.
pub fn claims_of(alloc: Global, job: &Job) -> Result<[Claim; 2], Memory>
    requires { job.now.level < 255 }
    ensures { IfOk result (λ claims. claims ≡ model.claims_of job.now) }
{
    let (level, mode, next, second) = match job.kind {
        JobKind::Flush => (FLUSH_LEVEL, Mode::Take, FLUSH_LEVEL, Mode::Take),
        JobKind::Move => (job.level, Mode::Take, job.level + 1, Mode::Append),
        JobKind::Cut => (job.level, Mode::Cut, job.level, Mode::Cut),
        JobKind::Merge => (job.level, Mode::Take, job.level, Mode::Take),
    };
    Ok([
        claim(alloc, job, level, mode)?,
        claim(alloc, job, next, second)?,
    ])
}
