//! Claims of two workers, and the jobs of small versions.

use crate::{Claims, claims_of, due, pick};
use flsm_model::{Chosen, Claim, Job, JobKind, Mode};
use guard_choice::Candidates;
use guard_level::Level;
use peb_base::{HasRow, Key, List, Number, Options, Profile, TableRow, is_below};
use std::alloc::Global;
use std::process::Abort;
use std::slice;
use std::sync::Arc;
use std::test::Fail;
use version::Version;

/// A table that is its row alone.
#[derive(Drop)]
pub struct Bare {
    row: TableRow,
}

impl HasRow for Bare {
    ghost the_row = { λ table. table.row };

    ghost holds = { λ table es. ⊥ };

    fn row(&self) -> &TableRow {
        &self.row
    }

    ghost agrees = { λ table es h. absurd h };
}

/// A handle to a table.
pub type Handle = Arc<Bare, Global>;

/// A claim from a key on to no end, twice.
fn from(alloc: Global, level: u8, lo: &[u8], mode: Mode) -> Result<[Claim; 2], Fail> {
    Ok([one(alloc, level, lo, mode)?, one(alloc, level, lo, mode)?])
}

/// A claim from a key on to no end.
fn one(alloc: Global, level: u8, lo: &[u8], mode: Mode) -> Result<Claim, Fail> {
    Ok(Claim {
        level,
        lo: List::of(Vec::from_slice(alloc, lo)?),
        hi: None,
        mode,
    })
}

#[test]
fn a_cut_of_a_level_waits_for_what_is_appended_there(rt: HostRuntime) -> Result<(), Fail> {
    let alloc = rt.alloc();
    let mut claims = Claims::new(alloc, 3)?;
    assert!(rt;
        claims
            .try_claim(1, from(alloc, 1, b"", Mode::Append)?)
            .is_ok()
    );
    let refused = claims.try_claim(2, from(alloc, 1, b"o", Mode::Cut)?);
    assert!(rt; refused == Err(1));
    let Some(kept) = claims.kept(1) else {
        return Err("none kept")?;
    };
    assert!(rt; kept[0].level == 1 && kept[0].lo.items().is_empty() && kept[0].hi.is_none());
    assert!(rt; kept[1].mode == Mode::Append);
    assert!(rt; claims.kept(2).is_none());
    assert!(rt;
        claims
            .try_claim(2, from(alloc, 2, b"o", Mode::Cut)?)
            .is_ok()
    );
    Ok(())
}

#[test]
fn a_freed_claim_is_in_nobodys_way(rt: HostRuntime) -> Result<(), Fail> {
    let alloc = rt.alloc();
    let mut claims = Claims::new(alloc, 3)?;
    assert!(rt;
        claims
            .try_claim(1, from(alloc, 1, b"", Mode::Take)?)
            .is_ok()
    );
    assert!(rt; claims.conflict(&from(alloc, 1, b"o", Mode::Take)?) == Some(1));
    assert!(rt;
        claims
            .conflict(&from(alloc, 1, b"o", Mode::Append)?)
            .is_none()
    );
    claims.free(1);
    assert!(rt;
        claims
            .conflict(&from(alloc, 1, b"o", Mode::Take)?)
            .is_none()
    );
    Ok(())
}

/// A table of this number at a level, from one key to another.
pub fn table(
    alloc: Global,
    number: u64,
    level: u8,
    smallest: &[u8],
    largest: &[u8],
) -> Result<Handle, Fail> {
    let row = TableRow {
        number,
        level,
        tier: 0,
        smallest: Key::new(alloc, smallest)?,
        largest: Key::new(alloc, largest)?,
        entries: 2,
        raw: 4,
        first: Number::new(1, 1),
        last: Number::new(1, 2),
        bytes: 130,
    };
    Ok(Arc::new(alloc, Bare { row })?)
}

/// Appends a table, having seen that it lies in one guard.
pub fn append(rt: &impl Abort, level: &mut Level<Handle>, table: Handle) -> Result<(), Fail> {
    let row = table.row();
    let guard = level.guard_of(row.smallest.bytes());
    let last = level.guard_of(row.largest.bytes());
    assert!(rt; guard == last);
    assert!(rt; !is_below(row.largest.bytes(), row.smallest.bytes()));
    level.append(table).map_err(|_| "no memory")?;
    Ok(())
}

/// A level with the guard `o`, or none.
fn level(alloc: Global, is_cut: bool) -> Result<Level<Handle>, Fail> {
    let mut level = Level::new(alloc);
    if is_cut {
        level.cut(Key::new(alloc, b"o")?)?;
    }
    Ok(level)
}

/// Three tables of level 0, numbered 9, 7 and 8, over three levels that have the guard `o` from this
/// one on.
fn over(alloc: Global, from: u8) -> Result<Version<Handle>, Fail> {
    let top = vec![in alloc;
        table(alloc, 9, 0, b"a", b"z")?,
        table(alloc, 7, 0, b"b", b"p")?,
        table(alloc, 8, 0, b"o", b"o")?,
    ]?;
    let levels = vec![in alloc;
        level(alloc, from <= 1)?,
        level(alloc, from <= 2)?,
        level(alloc, from <= 3)?,
    ]?;
    Ok(Version::of_parts(alloc, top, levels)?)
}

/// The candidate `o`, chosen with level 1.
fn candidates(alloc: Global) -> Result<Candidates, Fail> {
    let mut candidates = Candidates::new(alloc);
    let chosen = vec![in alloc;
        Chosen {
            key: Key::new(alloc, b"o")?,
            level: 1
        },
    ]?;
    candidates.add(&chosen)?;
    Ok(candidates)
}

/// What is picked from a version of the profile `small`, beside these claims, where `o` was chosen.
fn picked(
    rt: &impl Abort,
    alloc: Global,
    version: &Version<Handle>,
    frozen: bool,
    claims: &Claims,
) -> Result<Option<Job>, Fail> {
    picked_of(rt, alloc, version, frozen, &candidates(alloc)?, claims)
}

/// What is picked from a version of the profile `small`, beside these candidates and claims.
pub fn picked_of(
    rt: &impl Abort,
    alloc: Global,
    version: &Version<Handle>,
    frozen: bool,
    candidates: &Candidates,
    claims: &Claims,
) -> Result<Option<Job>, Fail> {
    let options = Options::of(Profile::Small);
    assert!(rt; version.last_level() == options.last_level);
    let job = pick(alloc, version, frozen, candidates, claims, &options)?;
    assert!(rt; due(version, frozen, &options) || job.is_none());
    Ok(job)
}

/// Whether it is a job of this kind at a level, over all keys, with these inputs and keys of one byte.
fn is(job: &Option<Job>, kind: JobKind, level: u8, inputs: &[u64], keys: &[u8]) -> bool {
    let Some(job) = job else {
        return false;
    };
    job.kind == kind
        && job.level == level
        && job.lo.items().is_empty()
        && job.hi.is_none()
        && job.inputs.items() == inputs
        && are(job.keys.items(), keys)
}

/// Whether the keys are these bytes.
fn are(keys: &[Key], bytes: &[u8]) -> bool {
    keys.len() == bytes.len()
        && keys
            .iter()
            .zip(bytes.iter())
            .all(|(key, byte)| key.bytes() == slice::from_ref(byte))
}

#[test]
fn guards_are_cut_from_the_last_level_up_before_a_move(rt: HostRuntime) -> Result<(), Fail> {
    let alloc = rt.alloc();
    let claims = Claims::new(alloc, 1)?;
    let cut = picked(&rt, alloc, &over(alloc, 4)?, false, &claims)?;
    assert!(rt; is(&cut, JobKind::Cut, 3, &[], b"o"));
    let cut = picked(&rt, alloc, &over(alloc, 3)?, false, &claims)?;
    assert!(rt; is(&cut, JobKind::Cut, 2, &[], b"o"));
    let cut = picked(&rt, alloc, &over(alloc, 2)?, false, &claims)?;
    assert!(rt; is(&cut, JobKind::Cut, 1, &[], b"o"));
    let job = picked(&rt, alloc, &over(alloc, 1)?, false, &claims)?;
    assert!(rt; is(&job, JobKind::Move, 0, &[7, 8, 9], b"o"));
    Ok(())
}

#[test]
fn a_flush_comes_first_where_it_is_free(rt: HostRuntime) -> Result<(), Fail> {
    let alloc = rt.alloc();
    let mut claims = Claims::new(alloc, 2)?;
    let version = over(alloc, 1)?;
    let job = picked(&rt, alloc, &version, true, &claims)?;
    assert!(rt; is(&job, JobKind::Flush, 0, &[], b""));
    let Some(flush) = job else {
        return Err("no job")?;
    };
    assert!(rt; flush.level == 0);
    assert!(rt; claims.try_claim(1, claims_of(alloc, &flush)?).is_ok());
    let job = picked(&rt, alloc, &version, true, &claims)?;
    assert!(rt; is(&job, JobKind::Move, 0, &[7, 8, 9], b"o"));
    Ok(())
}

/// Three tables of the last level in the guard `o`, which one below it, and two in the sentinel.
fn last_over(rt: &impl Abort, alloc: Global) -> Result<Version<Handle>, Fail> {
    let mut last = level(alloc, true)?;
    append(rt, &mut last, table(alloc, 3, 3, b"o", b"p")?)?;
    append(rt, &mut last, table(alloc, 1, 3, b"a", b"b")?)?;
    append(rt, &mut last, table(alloc, 5, 3, b"q", b"q")?)?;
    append(rt, &mut last, table(alloc, 2, 3, b"c", b"n")?)?;
    append(rt, &mut last, table(alloc, 4, 3, b"o", b"z")?)?;
    let levels = vec![in alloc; level(alloc, false)?, level(alloc, false)?, last]?;
    Ok(Version::of_parts(alloc, Vec::new(alloc), levels)?)
}

#[test]
fn a_guard_of_the_last_level_is_merged_where_it_is_over_its_room(
    rt: HostRuntime,
) -> Result<(), Fail> {
    let alloc = rt.alloc();
    let mut claims = Claims::new(alloc, 2)?;
    let version = last_over(&rt, alloc)?;
    let Some(job) = picked(&rt, alloc, &version, false, &claims)? else {
        return Err("no job")?;
    };
    assert!(rt; job.kind == JobKind::Merge && job.level == 3 && job.whole);
    assert!(rt; job.lo.items() == b"o".as_slice() && job.hi.is_none());
    assert!(rt; job.inputs.items() == [3, 4, 5].as_slice());
    assert!(rt; claims.try_claim(1, claims_of(alloc, &job)?).is_ok());
    assert!(rt; picked(&rt, alloc, &version, false, &claims)?.is_none());
    Ok(())
}
