//! When an edit fits a shape.

ghost use Rattle.std.specs.Prelude.{◌≡◌, ℕ, Bool, ◌==◌, ◌&&◌, ◌++◌, not, IfOk, map};
ghost use Rattle.std.specs.Option.{option_copied};
ghost use Rattle.std.specs.List.{list_all, list_any};
ghost use Rattle.peb_base.specs.Profiles.{column};
ghost use Rattle.flsm_model.specs.Shape as shapes;
ghost use Rattle.peb_base.specs.Keys.{key_lt};
ghost use Rattle.flsm_model.specs.Ranges as ranges;
ghost use Rattle.flsm_model.specs.Compaction as compaction;
ghost use Rattle.flsm_model.specs.Fits as fits;
ghost use Rattle.flsm_model.specs.Fields.{fields_of};
ghost use Rattle.flsm_model.specs.declared.edit.Edit.TheVariants as edits;

use crate::chosen::Chosen;
use crate::edit::Edit;
use crate::merging::with_keys;
use crate::range::Range;
use crate::rows::{
    are_at, are_cut_at, chosen_ascend, first_of, first_smallest, is_of_session, is_row,
    is_some_list, is_straddled, lie_apart, lie_in, numbers_differ,
};
use crate::searches::{
    has_key, has_number, is_candidate, is_chosen, is_live, keys_ascend, numbers_ascend, rows_ascend,
};
use crate::shape::Shape;
use peb_base::{Key, Memory, TableRow, level_of};

impl Shape {
    /// Whether the row is in its form and has a number of the session that isn't used.
    fn is_new(&self, row: &TableRow) -> bool
        ensures { result ≡ fits.is_new self.now.session self.now.used row.now }
    {
        is_row(row)
            && is_of_session(self.session, row.number)
            && !has_number(row.number, self.used.items())
    }

    /// Whether the tables of these numbers are live.
    fn are_live(&self, numbers: &[u64]) -> bool
        ensures { result ≡ list_all (fits.is_live (fields_of self.now)) numbers.now }
    {
        numbers
            .iter()
            .all(|number| is_live(self.live.items(), *number))
    }

    /// Whether the live tables of these numbers are at the level.
    fn inputs_are_at(&self, level: u8, inputs: &[u64]) -> bool
        ensures { result
            ≡ list_all (λ row. row.level == level) (shapes.rows_numbered inputs.now self.now.live) }
    {
        self.live
            .items()
            .iter()
            .filter(|row| has_number(row.number, inputs))
            .all(|row| row.level == level)
    }

    /// Whether the live tables of these numbers lie in the range.
    fn inputs_lie_in(&self, range: &Range, inputs: &[u64]) -> bool
        ensures { result
            ≡ list_all (fits.lies_in (range.now.lo.now, option_copied range.now.hi))
            (shapes.rows_numbered inputs.now self.now.live) }
    {
        self.live
            .items()
            .iter()
            .filter(|row| has_number(row.number, inputs))
            .all(|row| range.has_row(row))
    }

    /// The range of the guard in which the first input begins.
    fn input_range(&self, level: u8, inputs: &[u64]) -> Range
        ensures { (result.lo.now, option_copied result.hi)
            ≡ fits.input_range (fields_of self.now) level inputs.now }
    {
        Range::of(
            self.guards_at(level as usize),
            first_smallest(self.live.items(), inputs),
        )
    }

    /// Whether the live tables of these numbers lie in one guard of the level.
    fn inputs_lie_together(&self, level: u8, inputs: &[u64]) -> bool
        ensures { result
            ≡ list_all (fits.lies_in (fits.input_range (fields_of self.now) level inputs.now))
            (shapes.rows_numbered inputs.now self.now.live) }
    {
        self.inputs_lie_in(&self.input_range(level, inputs), inputs)
    }

    /// Whether the tables of these numbers can be inputs at the level.
    fn are_inputs(&self, level: u8, inputs: &[u64]) -> bool
        ensures { result ≡ fits.are_inputs (fields_of self.now) level inputs.now }
    {
        if !numbers_ascend(inputs) || !is_some_list(inputs) {
            return false;
        }
        self.are_live(inputs)
            && self.inputs_are_at(level, inputs)
            && self.inputs_lie_together(level, inputs)
    }

    /// Whether the key may be cut at the level.
    fn may_be_cut(&self, level: u8, range: &Range, key: &[u8]) -> bool
        ensures { result
            ≡ fits.may_be_cut (column self.now.options.profile) (fields_of self.now) level
            (range.now.lo.now, option_copied range.now.hi) key.now }
    {
        is_candidate(self.chosen.items(), level, key)
            && range.has(key)
            && !has_key(key, self.guards_at(level as usize))
            && (level == self.options.last_level
                || has_key(key, self.guards_at(level as usize + 1)))
    }

    /// Whether the key of a flush wasn't chosen before, and has its level.
    fn is_choice(&self, chosen: &Chosen) -> bool
        ensures { result
            ≡ fits.is_choice (column self.now.options.profile) (fields_of self.now) chosen.now }
    {
        let key = chosen.key.bytes();
        !is_chosen(self.chosen.items(), key)
            && match level_of(&self.options, key) {
                Some(level) => level == chosen.level,
                None => false,
            }
    }

    /// Whether the keys of a flush ascend, weren't chosen before, and have their levels.
    fn are_choices(&self, chosen: &[Chosen]) -> bool
        ensures { result
            ≡ fits.are_choices (column self.now.options.profile) (fields_of self.now) chosen.now }
    {
        chosen_ascend(chosen) && self.each_is_choice(chosen)
    }

    /// Whether each of the keys wasn't chosen before, and has its level.
    fn each_is_choice(&self, chosen: &[Chosen]) -> bool
        ensures { result
            ≡ list_all (fits.is_choice (column self.now.options.profile) (fields_of self.now))
            chosen.now }
    {
        chosen.iter().all(|c| self.is_choice(c))
    }

    /// Whether each row is new, and their numbers differ.
    fn are_new(&self, rows: &[TableRow]) -> bool
        ensures { result ≡ fits.rows_are_new self.now.session self.now.used rows.now }
    {
        self.each_is_new(rows) && numbers_differ(rows)
    }

    /// Whether each row is new.
    fn each_is_new(&self, rows: &[TableRow]) -> bool
        ensures { result ≡ list_all (fits.is_new self.now.session self.now.used) rows.now }
    {
        rows.iter().all(|row| self.is_new(row))
    }

    /// Whether an opening fits.
    fn opens(&self, session: u64, log: u64) -> bool
        ensures { result
            ≡ fits.fits (column self.now.options.profile) (fields_of self.now)
            (edits.Open session log) }
    {
        self.session < session
            && self.log <= log
            && 1 <= log
            && log as u128 <= (session as u128 - 1) * (1 << 41) + 1
    }

    /// Whether a flush fits.
    fn flushes(&self, row: &TableRow, from: u64, to: u64, log: u64, chosen: &[Chosen]) -> bool
        ensures { result
            ≡ fits.fits (column self.now.options.profile) (fields_of self.now)
            (edits.Flush row.now from to log chosen.now) }
    {
        let session = self.session as u128;
        if from != self.to || to <= from || log <= self.log || log <= 1 {
            return false;
        }
        if to as u128 >= (session + 1) << 40 || log as u128 > session << 41 {
            return false;
        }
        if row.level != 0 || row.first.packed() <= from || row.last.packed() > to {
            return false;
        }
        self.are_choices(chosen) && self.are_new(std::slice::from_ref(row))
    }

    /// Whether the rows can be outputs of a compaction into the level: at the level, in order, each
    /// new and in a guard of its own.
    fn outputs_fit(&self, level: usize, rows: &[TableRow]) -> bool
        ensures { result ≡ (list_all (λ row. row.level == level) rows.now && fits.rows_ascend rows.now
            && fits.lie_apart (shapes.guards_at (fields_of self.now) level) rows.now
            && fits.rows_are_new self.now.session self.now.used rows.now) }
    {
        if !are_at(level, rows) || !rows_ascend(rows) {
            return false;
        }
        lie_apart(self.guards_at(level), rows) && self.are_new(rows)
    }

    /// Whether a compaction of the level into the next one fits.
    fn moves(&self, level: u8, inputs: &[u64], outputs: &[TableRow]) -> bool
        ensures { (floor : ℕ)
            → result
            ≡ fits.fits (column self.now.options.profile) (fields_of self.now)
            (edits.Move level floor inputs.now outputs.now) }
    {
        if level >= self.options.last_level || !self.are_inputs(level, inputs) {
            return false;
        }
        self.outputs_fit(level as usize + 1, outputs)
    }

    /// Whether a compaction within a guard of the last level fits.
    fn merges(&self, inputs: &[u64], outputs: &[TableRow]) -> bool
        ensures { (floor : ℕ) (whole : Bool)
            → result
            ≡ fits.fits (column self.now.options.profile) (fields_of self.now)
            (edits.Merge floor whole inputs.now outputs.now) }
    {
        let last = self.options.last_level;
        if !self.are_inputs(last, inputs) || outputs.len() > 1 {
            return false;
        }
        are_at(last as usize, outputs)
            && lie_in(&self.input_range(last, inputs), outputs)
            && self.are_new(outputs)
    }

    /// Whether each of the keys may be cut at the level.
    fn may_all_be_cut(&self, level: u8, range: &Range, keys: &[Key]) -> bool
        ensures { result
            ≡ list_all (fits.may_be_cut (column self.now.options.profile) (fields_of self.now) level
            (range.now.lo.now, option_copied range.now.hi)) keys.now }
    {
        keys.iter()
            .all(|key| self.may_be_cut(level, range, key.bytes()))
    }

    /// Whether each live table of these numbers is one of the range that a key splits.
    fn inputs_are_split(&self, level: u8, range: &Range, keys: &[Key], inputs: &[u64]) -> bool
        ensures { result
            ≡ list_all (fits.is_straddled level (range.now.lo.now, option_copied range.now.hi)
            keys.now) (shapes.rows_numbered inputs.now self.now.live) }
    {
        self.live
            .items()
            .iter()
            .filter(|row| has_number(row.number, inputs))
            .all(|row| is_straddled(level, range, keys, row))
    }

    /// Whether no other live table is one of the range that a key splits.
    fn others_are_whole(&self, level: u8, range: &Range, keys: &[Key], inputs: &[u64]) -> bool
        ensures { result
            ≡ list_all (λ row. not (fits.is_straddled level
            (range.now.lo.now, option_copied range.now.hi) keys.now row))
            (shapes.rows_without inputs.now self.now.live) }
    {
        self.live
            .items()
            .iter()
            .filter(|row| !has_number(row.number, inputs))
            .all(|row| !is_straddled(level, range, keys, row))
    }

    /// Whether a guard split fits, by the level's guards with the keys among them.
    fn cuts_to(
        &self,
        level: u8,
        keys: &[Key],
        inputs: &[u64],
        outputs: &[TableRow],
        guards: &[Key],
    ) -> bool
        requires { guards.now ≡ ranges.with_keys keys.now (shapes.guards_at (fields_of self.now) level) }
        ensures { result
            ≡ fits.fits (column self.now.options.profile) (fields_of self.now)
            (edits.Cut level keys.now inputs.now outputs.now) }
    {
        let range = Range::of(self.guards_at(level as usize), first_of(keys));
        if level < 1
            || level > self.options.last_level
            || !keys_ascend(keys)
            || !is_some_list(keys)
        {
            return false;
        }
        if !self.may_all_be_cut(level, &range, keys)
            || !numbers_ascend(inputs)
            || !self.are_live(inputs)
        {
            return false;
        }
        if !self.inputs_are_split(level, &range, keys, inputs)
            || !self.others_are_whole(level, &range, keys, inputs)
        {
            return false;
        }
        are_cut_at(level, &range, guards, outputs) && self.are_new(outputs)
    }

    /// Whether an edit fits the record whose shape this is.
    pub(crate) fn fits(&self, edit: &Edit) -> Result<bool, Memory>
        ensures { IfOk result (λ fitting. fitting
            ≡ fits.fits (column self.now.options.profile) (fields_of self.now) edit.now) }
    {
        match edit {
            Edit::Open { session, log } => Ok(self.opens(*session, *log)),
            Edit::Flush {
                row,
                from,
                to,
                log,
                chosen,
            } => Ok(self.flushes(row, from.packed(), to.packed(), *log, chosen.items())),
            Edit::Move {
                level,
                inputs,
                outputs,
                ..
            } => Ok(self.moves(*level, inputs.items(), outputs.items())),
            Edit::Cut {
                level,
                keys,
                inputs,
                outputs,
            } => {
                let guards = with_keys(
                    self.alloc(),
                    keys.items(),
                    self.guards_at(*level as usize),
                )?;
                Ok(self.cuts_to(
                    *level,
                    keys.items(),
                    inputs.items(),
                    outputs.items(),
                    &guards,
                ))
            }
            Edit::Merge {
                inputs,
                outputs,
                ..
            } => Ok(self.merges(inputs.items(), outputs.items())),
        }
    }
}
