//! Claims of jobs in flight.

ghost use Rattle.std.specs.Prelude.{◌≡◌, ◌<◌, ◌∷◌, [], List, length, set, replicate, is_ok, is_none, Some, None, IfSome, IfOk, OnOk, OnErr, IfErr};
ghost use Rattle.std.specs.Option.{option_copied};
ghost use Rattle.flsm_model.specs.declared.job.Job.{Job};
ghost use Rattle.flsm_model.specs.Claims as model;
ghost use Rattle.flsm_model.specs.Events.{Running};
ghost use Rattle.flsm_model.specs.Steps.{without_job};
ghost use Rattle.job_picker.specs.Kept as keeping;
ghost use Rattle.job_picker.specs.Kept.{kept_by, first_conflict, AreClaimsOf};

use crate::conflicts::some_conflict;
use flsm_model::Claim;
use peb_base::Memory;
use std::alloc::Global;
use std::marker::Model;

/// Compaction locks: the claims of the jobs in flight, each kept by the actor that runs the job.
/// Those of different actors don't conflict.
#[derive(Drop)]
pub struct Claims {
    kept: Vec<Option<[Claim; 2]>>,
}

impl Model for Claims {
    ghost use Rattle.std.specs.Prelude.{length, ◌<◌, ◌^◌};
    ghost use Rattle.job_picker.specs.Kept.{Kept};

    ghost Value = { Kept };

    ghost view = { λ claims. claims.kept.items };

    ghost invariant = { λ claims. length claims.kept.items < 2 ^ 32 };
}

/// Whether one of the claims conflicts with one that an actor keeps.
fn meets_kept(claims: &[Claim], kept: &Option<[Claim; 2]>) -> bool
    ensures { result ≡ keeping.meets_kept claims.now kept.now }
{
    match kept {
        Some(kept) => some_conflict(claims, kept),
        None => false,
    }
}

/// The place of the first that keeps a claim with which one of these conflicts.
fn first_met(claims: &[Claim], kept: &[Option<[Claim; 2]>]) -> Option<usize>
    ensures first { result ≡ first_conflict kept.now claims.now }
    ensures within { IfSome result (λ place. place < length kept.now) }
{
    kept.iter().position(|kept| meets_kept(claims, kept))
}

impl Claims {
    /// No claims, with room for those of the actors numbered below `actors`. No later call takes
    /// memory.
    pub fn new(alloc: Global, actors: u32) -> Result<Claims, Memory>
        ensures room { IfOk result (λ claims. claims ≡ replicate actors None) }
        ensures jobs { IfOk result (λ claims. AreClaimsOf claims []) }
    {
        let mut kept = Vec::with_capacity(alloc, actors as usize)?;
        for _ in 0..actors {
            kept.push(None)?;
        }
        Ok(Claims { kept })
    }

    /// The first actor that keeps a claim with which one of these conflicts.
    pub fn conflict(&self, claims: &[Claim; 2]) -> Option<u32>
        ensures first { result ≡ first_conflict self.now claims.now }
        ensures jobs { (rs : List Running) (j : Job) → AreClaimsOf self.now rs
            → claims.now ≡ model.claims_of j → is_none result ≡ model.is_free j rs }
    {
        match first_met(claims, &self.kept) {
            Some(actor) => Some(actor as u32),
            None => None,
        }
    }

    /// Takes these claims for a worker below the number of actors, which keeps none, where no kept
    /// claim conflicts with one of them.
    ///
    /// It is refused exactly where one does, with the first actor that keeps such a claim, and then
    /// nothing changes. So a worker has the claims of its job exactly where the job conflicts with
    /// no job in flight.
    pub fn try_claim(&mut self, worker: u32, claims: [Claim; 2]) -> Result<(), u32>
        requires within { worker < length self.old }
        requires none { kept_by self.old worker ≡ None }
        ensures apart { OnOk result (first_conflict self.old claims ≡ None) }
        ensures taken { OnOk result (self.new ≡ set self.old worker (Some claims)) }
        ensures refused { IfErr result (λ actor. first_conflict self.old claims ≡ Some actor) }
        ensures stays { OnErr result (self.new ≡ self.old) }
        ensures free { (rs : List Running) (j : Job) → AreClaimsOf self.old rs
            → claims ≡ model.claims_of j → is_ok result ≡ model.is_free j rs }
        ensures jobs { OnOk result ((rs : List Running) (j : Job) → AreClaimsOf self.old rs
            → claims ≡ model.claims_of j → AreClaimsOf self.new ((worker, j) ∷ rs)) }
    {
        if let Some(actor) = self.conflict(&claims) {
            return Err(actor);
        }
        self.kept[worker as usize] = Some(claims);
        Ok(())
    }

    /// Lends the claims that an actor keeps. None comes exactly where it keeps none.
    pub fn kept(&self, worker: u32) -> Option<&[Claim; 2]>
        ensures { option_copied result ≡ kept_by self.now worker }
    {
        match self.kept.get(worker as usize) {
            Some(Some(claims)) => Some(claims),
            _ => None,
        }
    }

    /// Frees the claims that a worker keeps, if it keeps any: its job isn't in flight any more.
    pub fn free(&mut self, worker: u32)
        ensures freed { self.new ≡ set self.old worker None }
        ensures jobs { (rs : List Running) → AreClaimsOf self.old rs
            → AreClaimsOf self.new (without_job rs worker) }
    {
        if (worker as usize) < self.kept.len() {
            self.kept[worker as usize] = None;
        }
    }
}
