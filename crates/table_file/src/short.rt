//! Jobs without an outcome.

use flsm_model::ShortCause;

/// Why a job ended without an outcome, and how many bytes its maker took for it.
#[derive(Clone, Copy, Debug, PartialEq, Eq)]
pub struct Short {
    pub cause: ShortCause,
    pub bytes: u64,
}
