//! What every legal history keeps. Each function runs nothing; its contract is the law.
//!
//! A law speaks of every profile and every legal history over a base. `Always` takes a record that
//! is true of the batches; `AlwaysFormed` takes any legal record, so that the law also holds over
//! devices that tell nothing, where a history has no contents. Jobs in flight, jobs that were cut
//! short, faults of the journal and stops are all part of such a history. Since each front of a
//! legal history is legal, a law holds at every moment.

ghost use Rattle.flsm_model.specs.Legal.{Always, AlwaysFormed};
ghost use Rattle.flsm_model.specs.Placing.{OnePlace, OrderHolds, PlaceInGuards, AlwaysCut};
ghost use Rattle.flsm_model.specs.Bounds.{WrittenOnce, RecordBound};
ghost use Rattle.flsm_model.specs.Reading.{MapHolds, MapShows};
ghost use Rattle.flsm_model.specs.Stops.{RecordIsLegal, AlwaysEndsWithSession, RecordIsTrue, StopLeavesBase, StopsAtLast};
ghost use Rattle.flsm_model.specs.Undisturbed.{JobsUndisturbed};
ghost use Rattle.flsm_model.specs.Made.{OutcomesFit, OutcomesStay};
ghost use Rattle.flsm_model.specs.LastLevel.{WrittenByMerges};
ghost use Rattle.flsm_model.specs.Fronts.{EmptyIsTrue, FrontsAreLegal, HistoriesJoin, MarksInOrder};
ghost use Rattle.flsm_model.specs.Settling.{EditsSettle, NumberFalls, OutcomesConserve, OutcomesSettle};
ghost use Rattle.flsm_model.specs.Picked.{PickedIsLawful, IdleHasRoom, ChosenAscend, AscendingAreEqual};
ghost use Rattle.flsm_model.specs.PickedSettles.{PickedSettles, PickedHasWork};
ghost use Rattle.flsm_model.specs.Candidates.{CandidatesMeet};
ghost use Rattle.flsm_model.specs.Claims.{FreeByClaims};
ghost use Rattle.flsm_model.specs.GuardRanges.{RangeIsOfGuard, RangesPartKeys, RowsLieInRanges, NewGuardIsInserted};
ghost use Rattle.flsm_model.specs.Contents.{TablesStand, NewestIsShown, NewestIsInMap};
ghost use Rattle.flsm_model.specs.Sound.{RecordsSound, RecordsNested, RecordsBounded};

/// Each entry is in one live table at most.
pub fn law_place()
    ensures { Always OnePlace }
{}

/// A key's numbers fall from each level to every deeper one, so a read may stop at the first level
/// that has the key.
pub fn law_order()
    ensures { Always OrderHolds }
{}

/// Each live table below level 0 lies in one guard's range of its level, and a compaction's inputs
/// have no put of a candidate of the next level that isn't a guard there.
pub fn law_guards()
    ensures placed { AlwaysFormed PlaceInGuards }
    ensures cut { AlwaysCut }
{}

/// Where a number is last or held, the newest puts up to it in the memtables and live tables are
/// those of the batches; as lists of rows, they are the ordered map.
pub fn law_map()
    ensures puts { Always MapHolds }
    ensures rows { Always MapShows }
{}

/// Above the last level each entry is written once, once more for each new guard inside its table,
/// and once for each attempt. Further writings into the last level are those of Merges.
pub fn law_bound()
    ensures history { Always WrittenOnce }
    ensures edits { RecordBound }
    ensures last { Always WrittenByMerges }
{}

/// The record is legal, and true of the batches where contents are known; the tree is the one that
/// the record spells. It ends with the open session's opening and the edits of its jobs since, and
/// the attempts end with its jobs that were cut short, each with its level and its bytes.
pub fn law_record()
    ensures legal { AlwaysFormed RecordIsLegal }
    ensures holds { Always RecordIsTrue }
    ensures session { AlwaysEndsWithSession }
{}

/// What stands where no session is open is a true base, and below the limit of sessions the next
/// one may be opened. An open session may stop at any moment, at the last number.
pub fn law_stop()
    ensures base { Always StopLeavesBase }
    ensures last { AlwaysFormed StopsAtLast }
{}

/// No claims of two jobs in flight conflict, and each such job still has its range, its inputs, its
/// keys and its numbers.
pub fn law_jobs()
    ensures { AlwaysFormed JobsUndisturbed }
{}

/// What a job in flight makes fits the record, whatever other jobs did since it began.
pub fn law_outcomes()
    ensures { AlwaysFormed OutcomesFit }
{}

/// The outcome of each job in flight is what the job makes of its inputs by its own keys, and stays
/// so while the job is in flight.
pub fn law_stays()
    ensures { Always OutcomesStay }
{}

/// What a legal record leaves: guards ascend and are nested, each live table lies in one guard of
/// its level, no two have one number, logs and marks lie within the session, and each chosen key
/// stands at its level.
pub fn law_shape()
    ensures sound { RecordsSound }
    ensures nested { RecordsNested }
    ensures bounded { RecordsBounded }
{}

/// Where nothing is stored a history begins. Each front of a legal history is legal, and so is one
/// that goes on legally from where it leads.
pub fn law_fronts()
    ensures empty { EmptyIsTrue }
    ensures fronts { FrontsAreLegal }
    ensures joined { HistoriesJoin }
{}

/// What was flushed is stable, what is frozen lies above it and is stable too, and nothing above
/// the last number is.
pub fn law_marks()
    ensures { AlwaysFormed MarksInOrder }
{}

/// An edit that has work, and writes no more entries than it takes, leaves less to do until the
/// store is settled: fewer levels to go, or else fewer candidates without a guard, or else fewer
/// tables in the last level. As one number that is less too, so at most so many such edits follow
/// one another. Outcomes write no more than their jobs take, so that each one that has work leaves
/// less to do; what the job that is picked makes always does, and has work over any device.
pub fn law_settles()
    ensures edits { EditsSettle }
    ensures number { NumberFalls }
    ensures outcomes { Always OutcomesConserve }
    ensures less { Always OutcomesSettle }
    ensures picked { Always PickedSettles }
    ensures work { AlwaysFormed PickedHasWork }
{}

/// A job that is picked may begin, if the session has table numbers left for it.
pub fn law_due()
    ensures { AlwaysFormed PickedIsLawful }
{}

/// Where no job is in flight and none is picked, nothing is frozen, and level 0 and each guard have
/// room.
pub fn law_idle()
    ensures { AlwaysFormed IdleHasRoom }
{}

/// The rows of the live tables are the live ones, in their order; each tells of its table, each
/// table's entries ascend, and no two entries of tables and memtables have one number.
pub fn law_tables()
    ensures { Always TablesStand }
{}

/// A key's value in what entries show at a number is that of its newest entry at or below it. So it
/// is in the ordered map at a number that is read, by the entries of tables and memtables.
pub fn law_lookup()
    ensures shown { NewestIsShown }
    ensures map { Always NewestIsInMap }
{}

/// Where each key stands with the shallowest level that it meets, as those of a legal record do,
/// the candidates of a level are the chosen keys that meet the level's need. The chosen keys for
/// which a test holds ascend, and an ascending list is known by its keys.
pub fn law_candidates()
    ensures meet { CandidatesMeet }
    ensures ascend { ChosenAscend }
    ensures equal { AscendingAreEqual }
{}

/// A job is free exactly where each of its claims is, so that claims can be tested before inputs
/// and keys are collected.
pub fn law_claims()
    ensures { FreeByClaims }
{}

/// The guards of a level by their index and by their ranges are the same: the range that has a key
/// is the one at its guard's index, each key lies in just one, and a table lies in a guard exactly
/// where its row lies in the guard's range. A new guard key is inserted behind those of its guard.
pub fn law_guard_ranges()
    ensures range { RangeIsOfGuard }
    ensures keys { RangesPartKeys }
    ensures rows { RowsLieInRanges }
    ensures insert { NewGuardIsInserted }
{}
