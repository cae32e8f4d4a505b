//! What is picked over every shape of the profile `small` with up to six tables over four keys in two
//! neighbouring levels, beside the rule of picking in plain numbers.
//!
//! The keys are `b`, `g`, `k` and `o`, numbered from 1: their last bytes end in 0, 3, 2 and 4 one bits,
//! so that they may be guards of no level, and from the levels 2, 3 and 1 on. 0 stands in front of
//! them all, and 5 behind them.

use crate::tests::{Handle, append, picked_of, table};
use crate::{Claims, due};
use flsm_model::{Chosen, Job, JobKind};
use guard_choice::Candidates;
use guard_level::Level;
use peb_base::{Key, Options, Profile, TableLike};
use std::alloc::Global;
use std::process::Abort;
use std::test::Fail;
use version::Version;

/// Each key, and the level from which on it is a candidate where it was chosen; 4 is none.
const KEYS: [(u8, u8); 4] = [(b'b', 4), (b'g', 2), (b'k', 3), (b'o', 1)];

/// The level behind the last one: that of what stands nowhere.
const NOWHERE: u8 = 4;

/// From which level on a key is a candidate, and from which on a guard.
#[derive(Clone, Copy)]
struct Choice {
    chosen: u8,
    guard: u8,
}

/// A table: its number, its place among the pieces, its level, and its first and last key.
#[derive(Clone, Copy)]
struct Row {
    number: u64,
    piece: usize,
    level: u8,
    first: u8,
    last: u8,
}

/// The keys of a guard of a level: from one to before another.
#[derive(Clone, Copy)]
struct Range {
    level: u8,
    lo: u8,
    hi: u8,
}

/// A job: its kind and its range.
#[derive(Clone, Copy)]
struct Plain {
    kind: JobKind,
    range: Range,
}

/// What each key is, and the tables.
#[derive(Drop)]
struct Shape {
    choices: Vec<Choice>,
    rows: Vec<Row>,
}

impl Shape {
    fn choice(&self, key: u8) -> Choice {
        match self.choices.get((key as usize).wrapping_sub(1)) {
            Some(choice) => *choice,
            None => Choice {
                chosen: NOWHERE,
                guard: NOWHERE,
            },
        }
    }

    fn is_candidate(&self, level: u8, key: u8) -> bool {
        self.choice(key).chosen <= level
    }

    fn is_guard(&self, level: u8, key: u8) -> bool {
        self.choice(key).guard <= level
    }

    /// The range of the guard of a level in which a key lies.
    fn range_of(&self, level: u8, key: u8) -> Range {
        Range {
            level,
            lo: self.lower(level, key),
            hi: self.upper(level, key),
        }
    }

    fn lower(&self, level: u8, key: u8) -> u8 {
        for back in 0..4 {
            let other = 4 - back;
            if other <= key && self.is_guard(level, other) {
                return other;
            }
        }
        0
    }

    fn upper(&self, level: u8, key: u8) -> u8 {
        for other in 1..5 {
            if other > key && self.is_guard(level, other) {
                return other;
            }
        }
        5
    }

    /// Whether more than two tables lie in the range.
    fn is_over(&self, range: Range) -> bool {
        let mut room = 2_u8;
        for row in &self.rows {
            if lies_in(*row, range) {
                if room == 0 {
                    return true;
                }
                room -= 1;
            }
        }
        false
    }

    /// The first guard of a level with more than two tables.
    fn first_over(&self, level: u8) -> Option<Range> {
        for key in 0..5 {
            let range = self.range_of(level, key);
            if range.lo == key && self.is_over(range) {
                return Some(range);
            }
        }
        None
    }

    /// The first candidate of the level below the range that is no guard of this level.
    fn first_missing(&self, range: Range, level: u8) -> Option<u8> {
        for key in 1..5 {
            if range.lo <= key
                && key < range.hi
                && self.is_candidate(range.level.saturating_add(1), key)
                && !self.is_guard(level, key)
            {
                return Some(key);
            }
        }
        None
    }

    /// The job of a range with more than two tables above the last level: the Cut at the deepest
    /// level where a candidate of the next one isn't a guard, or else the Move.
    fn target(&self, range: Range) -> Plain {
        for back in 0..3 {
            let level = 3 - back;
            if level <= range.level {
                break;
            }
            if let Some(key) = self.first_missing(range, level) {
                return Plain {
                    kind: JobKind::Cut,
                    range: self.range_of(level, key),
                };
            }
        }
        Plain {
            kind: JobKind::Move,
            range,
        }
    }

    /// The job that is picked where nothing is frozen and nothing in flight.
    fn plain(&self) -> Option<Plain> {
        for level in 0..3 {
            if let Some(range) = self.first_over(level) {
                return Some(self.target(range));
            }
        }
        let range = self.first_over(3)?;
        Some(Plain {
            kind: JobKind::Merge,
            range,
        })
    }

    /// Whether the job has this key.
    fn has_key(&self, job: Plain, key: u8) -> bool {
        let Range { level, lo, hi } = job.range;
        let below = level.saturating_add(1);
        let inside = lo <= key && key < hi;
        match job.kind {
            JobKind::Move => inside && self.is_guard(below, key),
            JobKind::Cut => {
                inside
                    && self.is_candidate(level, key)
                    && !self.is_guard(level, key)
                    && (level == 3 || self.is_guard(below, key))
            }
            _ => false,
        }
    }

    /// Whether a key of the job parts the table: one goes up to before it, and another from it on.
    fn is_parted(&self, job: Plain, row: Row) -> bool {
        for key in 1..5 {
            if row.first < key && key <= row.last && self.has_key(job, key) {
                return true;
            }
        }
        false
    }

    /// Whether the job reads the table.
    fn has_input(&self, job: Plain, row: Row) -> bool {
        lies_in(row, job.range) && (job.kind != JobKind::Cut || self.is_parted(job, row))
    }

    /// Whether these are the numbers of the tables that the job reads. Those of the rows descend.
    fn are_inputs(&self, job: Plain, numbers: &[u64]) -> bool {
        let mut rest = numbers;
        for row in self.rows.iter().rev() {
            if !self.has_input(job, *row) {
                continue;
            }
            match rest.split_first() {
                Some((number, behind)) if *number == row.number => rest = behind,
                _ => return false,
            }
        }
        rest.is_empty()
    }

    /// Whether these are the keys of the job.
    fn are_keys(&self, job: Plain, keys: &[Key]) -> bool {
        let mut rest = keys;
        for key in 1..5 {
            if !self.has_key(job, key) {
                continue;
            }
            match rest.split_first() {
                Some((first, behind)) if first.bytes() == name(key) => rest = behind,
                _ => return false,
            }
        }
        rest.is_empty()
    }

    /// Whether this is the job.
    fn is(&self, job: Plain, picked: &Job) -> bool {
        let Range { level, lo, hi } = job.range;
        picked.kind == job.kind
            && picked.level == level
            && picked.lo.items() == name(lo)
            && ends_at(picked, hi)
            && self.are_inputs(job, picked.inputs.items())
            && self.are_keys(job, picked.keys.items())
            && picked.whole == (job.kind == JobKind::Merge)
    }
}

/// Whether the table lies in the range.
fn lies_in(row: Row, range: Range) -> bool {
    row.level == range.level && range.lo <= row.first && row.last < range.hi
}

/// The bytes of a key; none for the front.
fn name(key: u8) -> &'static [u8] {
    match key {
        1 => b"b",
        2 => b"g",
        3 => b"k",
        4 => b"o",
        _ => b"",
    }
}

/// Whether the job ends at this key, or where it is 5 nowhere.
fn ends_at(job: &Job, hi: u8) -> bool {
    match &job.hi {
        Some(key) => key.bytes() == name(hi),
        None => hi == 5,
    }
}

/// A table of a shape, as a handle for each number that it may have.
#[derive(Drop)]
struct Piece {
    row: Row,
    handles: Vec<Handle>,
}

/// What all shapes with the same guards and candidates share.
#[derive(Drop)]
struct Case {
    levels: Vec<Level<Handle>>,
    candidates: Candidates,
    claims: Claims,
    pieces: Vec<Piece>,
}

/// A key's choice by a digit: none at 0, else chosen, and from the level that the digit tells a guard.
fn choice_of(level: u8, digit: u8) -> Option<Choice> {
    if digit == 0 {
        return Some(Choice {
            chosen: NOWHERE,
            guard: NOWHERE,
        });
    }
    let guard = level.saturating_add(digit - 1);
    if level == NOWHERE || guard > NOWHERE {
        return None;
    }
    Some(Choice {
        chosen: level,
        guard,
    })
}

/// The choices of the keys by the digits of a code, where all digits tell one.
fn choices_of(alloc: Global, code: u16) -> Result<Option<Vec<Choice>>, Fail> {
    let mut choices = Vec::new(alloc);
    let mut rest = code;
    for (_, level) in KEYS {
        let Some(choice) = choice_of(level, (rest % 5) as u8) else {
            return Ok(None);
        };
        choices.push(choice)?;
        rest /= 5;
    }
    Ok(Some(choices))
}

/// The candidates of the shape.
fn candidates_of(alloc: Global, shape: &Shape) -> Result<Candidates, Fail> {
    let mut chosen = Vec::new(alloc);
    for key in 1..5 {
        let level = shape.choice(key).chosen;
        if level < NOWHERE {
            let key = Key::new(alloc, name(key))?;
            chosen.push(Chosen { key, level })?;
        }
    }
    let mut candidates = Candidates::new(alloc);
    candidates.add(&chosen)?;
    Ok(candidates)
}

/// A level with the shape's guards and no table.
fn level_of(rt: &impl Abort, alloc: Global, shape: &Shape, at: u8) -> Result<Level<Handle>, Fail> {
    let mut level = Level::new(alloc);
    for key in 1..5 {
        if shape.is_guard(at, key) {
            cut(rt, &mut level, Key::new(alloc, name(key))?)?;
        }
    }
    Ok(level)
}

/// Makes a key a guard, having seen that the guard that it lies in has no tables.
fn cut(rt: &impl Abort, level: &mut Level<Handle>, key: Key) -> Result<(), Fail> {
    let guard = level.guard_of(key.bytes());
    assert!(rt; level.tables_of(guard).is_empty());
    level.cut(key)?;
    Ok(())
}

/// A table as a piece of shapes.
fn piece_of(alloc: Global, row: Row) -> Result<Piece, Fail> {
    let mut handles = Vec::new(alloc);
    for number in 1..7 {
        handles.push(table(alloc, number, row.level, name(row.first), name(row.last))?)?;
    }
    Ok(Piece { row, handles })
}

/// The tables that may lie in a level and the next one.
fn pieces_of(alloc: Global, shape: &Shape, level: u8) -> Result<Vec<Piece>, Fail> {
    let mut pieces = Vec::new(alloc);
    for code in 0..32_u8 {
        let row = Row {
            number: 0,
            piece: pieces.len(),
            level: level.saturating_add(code / 16),
            first: code / 4 % 4 + 1,
            last: code % 4 + 1,
        };
        if row.first <= row.last && row.last < shape.range_of(row.level, row.first).hi {
            pieces.push(piece_of(alloc, row)?)?;
        }
    }
    Ok(pieces)
}

/// What all shapes share that have these choices and tables in a level and the next one.
fn case_of(rt: &impl Abort, alloc: Global, shape: &Shape, level: u8) -> Result<Case, Fail> {
    let mut levels = Vec::new(alloc);
    for at in 1..4 {
        levels.push(level_of(rt, alloc, shape, at)?)?;
    }
    Ok(Case {
        levels,
        candidates: candidates_of(alloc, shape)?,
        claims: Claims::new(alloc, 1)?,
        pieces: pieces_of(alloc, shape, level)?,
    })
}

/// The handle of a table.
fn handle_of(case: &Case, row: Row) -> Result<Handle, Fail> {
    let piece = case.pieces.get(row.piece).ok_or("no piece")?;
    let at = (row.number as usize).wrapping_sub(1);
    let handle = piece.handles.get(at).ok_or("no handle")?;
    Ok(handle.share()?)
}

/// The version of these tables.
fn version_of(
    rt: &impl Abort,
    alloc: Global,
    case: &Case,
    rows: &[Row],
) -> Result<Version<Handle>, Fail> {
    let mut top = Vec::new(alloc);
    let mut levels = copies(alloc, &case.levels)?;
    for row in rows {
        let handle = handle_of(case, *row)?;
        match levels.get_mut((row.level as usize).wrapping_sub(1)) {
            Some(level) => append(rt, level, handle)?,
            None => top.push(handle)?,
        }
    }
    assert!(rt; levels.len() < 256);
    Ok(Version::of_parts(alloc, top, levels)?)
}

fn copies(alloc: Global, levels: &[Level<Handle>]) -> Result<Vec<Level<Handle>>, Fail> {
    let mut copies = Vec::new(alloc);
    for level in levels {
        copies.push(level.copy()?)?;
    }
    Ok(copies)
}

/// Whether a job is due where nothing is frozen.
fn is_due(rt: &impl Abort, version: &Version<Handle>) -> bool {
    let options = Options::of(Profile::Small);
    assert!(rt; version.last_level() == options.last_level);
    due(version, false, &options)
}

/// Asserts that what is picked for a shape is the job of the rule.
fn check(rt: &impl Abort, alloc: Global, case: &Case, shape: &Shape) -> Result<(), Fail> {
    let version = version_of(rt, alloc, case, &shape.rows)?;
    let found = picked_of(rt, alloc, &version, false, &case.candidates, &case.claims)?;
    let is = match (shape.plain(), found) {
        (Some(job), Some(found)) => shape.is(job, &found),
        (None, None) => !is_due(rt, &version),
        _ => false,
    };
    assert!(rt; is);
    Ok(())
}

/// Checks the shape, and each with so many further tables at most, in the order of the pieces from
/// one on: how many these are.
fn extend(
    rt: &impl Abort,
    alloc: Global,
    case: &Case,
    shape: &mut Shape,
    from: usize,
    left: u8,
) -> Result<u64, Fail> {
    check(rt, alloc, case, shape)?;
    let mut count = 1_u64;
    if left == 0 {
        return Ok(count);
    }
    for at in from..case.pieces.len() {
        let mut row = case.pieces[at].row;
        row.number = left as u64;
        shape.rows.push(row)?;
        count = count.saturating_add(extend(rt, alloc, case, shape, at, left - 1)?);
        shape.rows.pop();
    }
    Ok(count)
}

/// Whether of the keys `g` and `o` these are guards of some level.
fn has_guards(shape: &Shape, g: bool, o: bool) -> bool {
    (shape.choice(2).guard < NOWHERE) == g && (shape.choice(4).guard < NOWHERE) == o
}

/// Checks each shape whose tables lie in a level and the next one, and of whose keys `g` and `o` these
/// are guards: how many these are.
fn shapes(rt: &impl Abort, alloc: Global, level: u8, g: bool, o: bool) -> Result<u64, Fail> {
    let mut count = 0_u64;
    for code in 0..625 {
        if let Some(choices) = choices_of(alloc, code)? {
            let mut shape = Shape {
                choices,
                rows: Vec::new(alloc),
            };
            if has_guards(&shape, g, o) {
                let case = case_of(rt, alloc, &shape, level)?;
                count = count.saturating_add(extend(rt, alloc, &case, &mut shape, 0, 6)?);
            }
        }
    }
    Ok(count)
}

#[test]
fn of_the_levels_0_and_1_without_guards_at_g_and_o(rt: HostRuntime) -> Result<(), Fail> {
    assert_eq!(rt; shapes(&rt, rt.alloc(), 0, false, false)?, 2_762_760);
    Ok(())
}

#[test]
fn of_the_levels_0_and_1_with_a_guard_at_o(rt: HostRuntime) -> Result<(), Fail> {
    assert_eq!(rt; shapes(&rt, rt.alloc(), 0, false, true)?, 3_368_442);
    Ok(())
}

#[test]
fn of_the_levels_0_and_1_with_a_guard_at_g(rt: HostRuntime) -> Result<(), Fail> {
    assert_eq!(rt; shapes(&rt, rt.alloc(), 0, true, false)?, 2_762_760);
    Ok(())
}

#[test]
fn of_the_levels_0_and_1_with_guards_at_g_and_o(rt: HostRuntime) -> Result<(), Fail> {
    assert_eq!(rt; shapes(&rt, rt.alloc(), 0, true, true)?, 3_368_442);
    Ok(())
}

#[test]
fn of_the_levels_1_and_2_without_guards_at_g_and_o(rt: HostRuntime) -> Result<(), Fail> {
    assert_eq!(rt; shapes(&rt, rt.alloc(), 1, false, false)?, 2_762_760);
    Ok(())
}

#[test]
fn of_the_levels_1_and_2_with_a_guard_at_o(rt: HostRuntime) -> Result<(), Fail> {
    assert_eq!(rt; shapes(&rt, rt.alloc(), 1, false, true)?, 2_219_622);
    Ok(())
}

#[test]
fn of_the_levels_1_and_2_with_a_guard_at_g(rt: HostRuntime) -> Result<(), Fail> {
    assert_eq!(rt; shapes(&rt, rt.alloc(), 1, true, false)?, 1_987_062);
    Ok(())
}

#[test]
fn of_the_levels_1_and_2_with_guards_at_g_and_o(rt: HostRuntime) -> Result<(), Fail> {
    assert_eq!(rt; shapes(&rt, rt.alloc(), 1, true, true)?, 1_631_136);
    Ok(())
}

#[test]
fn of_the_levels_2_and_3_without_guards_at_g_and_o(rt: HostRuntime) -> Result<(), Fail> {
    assert_eq!(rt; shapes(&rt, rt.alloc(), 2, false, false)?, 2_140_292);
    Ok(())
}

#[test]
fn of_the_levels_2_and_3_with_a_guard_at_g_or_o(rt: HostRuntime) -> Result<(), Fail> {
    let alloc = rt.alloc();
    assert_eq!(rt; shapes(&rt, alloc, 2, false, true)?, 896_652);
    assert_eq!(rt; shapes(&rt, alloc, 2, true, false)?, 704_484);
    assert_eq!(rt; shapes(&rt, alloc, 2, true, true)?, 337_842);
    Ok(())
}
