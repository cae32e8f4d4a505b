//! Which claims conflict.

ghost use Rattle.std.specs.Prelude.{◌≡◌};
ghost use Rattle.std.specs.Option.{option_copied};
ghost use Rattle.std.specs.List.{list_any};
ghost use Rattle.flsm_model.specs.Claims as model;
ghost use Rattle.flsm_model.specs.Ranges as ranges;

use flsm_model::{Claim, Mode};
use peb_base::{Key, is_below};

/// Whether the key comes before the end of a range, if it has one.
fn comes_before(key: &[u8], end: Option<&Key>) -> bool
    ensures { result ≡ ranges.is_below key.now (option_copied end.entry) }
{
    match end {
        Some(end) => is_below(key, end.bytes()),
        None => true,
    }
}

/// Whether a job of the one mode bears none of the other in its range. A cut of guards bears
/// nothing beside it, and two jobs don't take tables from one range.
fn modes_conflict(mode: Mode, other: Mode) -> bool
    ensures { result ≡ model.modes_conflict mode other }
{
    match (mode, other) {
        (Mode::Cut, _) | (_, Mode::Cut) | (Mode::Take, Mode::Take) => true,
        _ => false,
    }
}

/// Whether the claims have a level and a key in common, and their modes conflict.
fn claims_conflict(claim: &Claim, other: &Claim) -> bool
    ensures { result ≡ model.claims_conflict claim.now other.now }
{
    claim.level == other.level
        && comes_before(claim.lo.items(), other.hi.as_ref())
        && comes_before(other.lo.items(), claim.hi.as_ref())
        && modes_conflict(claim.mode, other.mode)
}

/// Whether one of the claims conflicts with one of the others.
pub fn some_conflict(claims: &[Claim], others: &[Claim]) -> bool
    ensures { result ≡ list_any (λ c. list_any (model.claims_conflict c) others.now) claims.now }
{
    claims.iter().any(|claim| has_conflict(claim, others))
}

/// Whether the claim conflicts with one of the others.
fn has_conflict(claim: &Claim, others: &[Claim]) -> bool
    ensures { result ≡ list_any (model.claims_conflict claim.now) others.now }
{
    others.iter().any(|other| claims_conflict(claim, other))
}
