//! Kinds of jobs.

/// What a job does: write the frozen memtable, compact into the next level, split at new guards, or
/// compact within the last level.
#[derive(Clone, Copy, Debug, PartialEq, Eq)]
pub enum JobKind {
    Flush,
    Move,
    Cut,
    Merge,
}
