//! The model of the store's history: what happens to a store, what its tables then hold, and what
//! was written how often.
//!
//! The layers above use the plain types `Edit`, `Job` and `Claim`, count what is written in a
//! `Ledger`, fold the manifest's edits into a `Shape`, and state their contracts by the definitions
//! in `specs/`: which edits fit a record, which histories are legal, what an outcome of a job is.
//! The laws in `laws.rt` say what every legal history keeps. Each definition is a plain slow
//! program or a relation; none knows how tables, versions or logs are kept.
#![tactic(auto)]

mod chosen;
mod claim;
mod copying;
mod edit;
mod fitting;
mod growing;
mod job;
mod job_kind;
mod laws;
mod ledger;
mod level_count;
mod merging;
mod mode;
mod range;
mod rows;
mod searches;
mod shape;
mod short_cause;
#[cfg(test)]
mod tests;

pub use chosen::Chosen;
pub use claim::Claim;
pub use edit::Edit;
pub use job::Job;
pub use job_kind::JobKind;
pub use laws::{
    law_bound, law_candidates, law_claims, law_due, law_fronts, law_guard_ranges, law_guards,
    law_idle, law_jobs, law_lookup, law_map, law_marks, law_order, law_outcomes, law_place,
    law_record, law_settles, law_shape, law_stays, law_stop, law_tables,
};
pub use ledger::Ledger;
pub use level_count::LevelCount;
pub use mode::Mode;
pub use range::Range;
pub use rows::straddles;
pub use shape::Shape;
pub use short_cause::ShortCause;
