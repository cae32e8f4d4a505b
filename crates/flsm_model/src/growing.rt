//! What a shape becomes by an edit.

ghost use Rattle.std.specs.Prelude.{◌≡◌, ◌≤◌, ℕ, ◌-◌, vec_len, vec_capacity, ◌++◌, [], ◌∷◌, map, take, set, OnOk, OnErr, IfOk, if◌then◌else◌};
ghost use Rattle.peb_base.specs.Profiles.{column};
ghost use Rattle.flsm_model.specs.Ranges as ranges;
ghost use Rattle.flsm_model.specs.Shape as shapes;
ghost use Rattle.flsm_model.specs.Fits as fits;
ghost use Rattle.flsm_model.specs.Fits.{GoesOn};
ghost use Rattle.flsm_model.specs.Fields.{fields_of};

use crate::chosen::Chosen;
use crate::copying::{copy_all_chosen, copy_rows};
use crate::edit::Edit;
use crate::merging::with_keys;
use crate::searches::has_number;
use crate::shape::Shape;
use peb_base::{Key, List, Memory, TableRow};
use std::alloc::Global;
use std::mem;

/// The numbers of the rows.
fn numbers_of(alloc: Global, rows: &[TableRow]) -> Result<Vec<u64>, Memory>
    ensures { IfOk result (λ numbers. numbers.items ≡ map (λ row. row.number) rows.now) }
{
    let mut numbers = Vec::new(alloc);
    for row in rows {
        numbers.push(row.number)?;
    }
    Ok(numbers)
}

/// Puts the later items behind the others. An error changes nothing.
fn append<X>(items: &mut Vec<X>, later: &mut Vec<X>) -> Result<(), Memory>
    ensures ok { OnOk result (items.new.items ≡ items.old.items ++ later.old.items) }
    ensures err { OnErr result (items.new.items ≡ items.old.items) }
{
    items.reserve(later.len())?;
    items.append(later)?;
    Ok(())
}

/// Takes the rows of these numbers away.
fn drop_rows(rows: &mut Vec<TableRow>, numbers: &[u64])
    ensures rows { rows.new.items ≡ shapes.rows_without numbers.now rows.old.items }
    ensures fewer { vec_len rows.new ≤ vec_len rows.old }
    ensures capacity { vec_capacity rows.new ≡ vec_capacity rows.old }
{
    rows.retain(|row| !has_number(row.number, numbers));
}

/// Takes the rows of these numbers away, and puts the added ones behind the others.
fn exchange_rows(
    rows: &mut Vec<TableRow>,
    numbers: &[u64],
    mut added: Vec<TableRow>,
) -> Result<(), Memory>
    ensures ok { OnOk result (rows.new.items ≡ shapes.rows_without numbers.now rows.old.items
        ++ added.items) }
    ensures err { OnErr result (rows.new.items ≡ rows.old.items) }
{
    rows.reserve(added.len())?;
    drop_rows(rows, numbers);
    rows.append(&mut added)?;
    Ok(())
}

/// Puts another list in place of the one at this place, where there is one.
fn set_guards(guards: &mut Vec<List<Key>>, place: usize, keys: List<Key>)
    ensures { guards.new.items ≡ set guards.old.items place keys }
{
    if let Some(old) = guards.get_mut(place) {
        *old = keys;
    }
}

impl Shape {
    /// Puts the numbers of the rows behind those that are used. An error changes nothing.
    fn use_numbers(&mut self, rows: &[TableRow]) -> Result<(), Memory>
        ensures ok { OnOk result (fields_of self.new
            ≡ record (fields_of self.old) {
              used = self.old.used ++ map (λ row. row.number) rows.now;
            }) }
        ensures err { OnErr result (fields_of self.new ≡ fields_of self.old) }
        ensures options { self.new.options ≡ self.old.options }
    {
        let alloc = self.alloc();
        let mut later = numbers_of(alloc, rows)?;
        let mut used = mem::replace(&mut self.used, List::of(Vec::new(alloc))).into_vec();
        let done = append(&mut used, &mut later);
        self.used = List::of(used);
        done
    }

    /// Keeps only the first of the numbers that are used.
    fn free_numbers(&mut self, length: usize)
        ensures shape { fields_of self.new ≡ record (fields_of self.old) { used = take length self.old.used } }
        ensures options { self.new.options ≡ self.old.options }
    {
        let alloc = self.alloc();
        let mut used = mem::replace(&mut self.used, List::of(Vec::new(alloc))).into_vec();
        used.truncate(length);
        self.used = List::of(used);
    }

    /// Puts copies of the keys behind those that were chosen. An error changes nothing.
    fn choose(&mut self, later: &[Chosen]) -> Result<(), Memory>
        ensures ok { OnOk result (fields_of self.new
            ≡ record (fields_of self.old) { chosen = self.old.chosen ++ later.now }) }
        ensures err { OnErr result (fields_of self.new ≡ fields_of self.old) }
        ensures options { self.new.options ≡ self.old.options }
    {
        let alloc = self.alloc();
        let mut later = copy_all_chosen(alloc, later)?;
        let mut chosen = mem::replace(&mut self.chosen, List::of(Vec::new(alloc))).into_vec();
        let done = append(&mut chosen, &mut later);
        self.chosen = List::of(chosen);
        done
    }

    /// Keeps only the first of the keys that were chosen.
    fn forget(&mut self, length: usize)
        ensures shape { fields_of self.new
            ≡ record (fields_of self.old) { chosen = take length self.old.chosen } }
        ensures options { self.new.options ≡ self.old.options }
    {
        let alloc = self.alloc();
        let mut chosen = mem::replace(&mut self.chosen, List::of(Vec::new(alloc))).into_vec();
        chosen.truncate(length);
        self.chosen = List::of(chosen);
    }

    /// Takes the inputs away and the outputs in. An error changes nothing.
    fn exchange(&mut self, inputs: &[u64], outputs: &[TableRow]) -> Result<(), Memory>
        ensures ok { OnOk result (fields_of self.new
            ≡ shapes.after_exchange (fields_of self.old) inputs.now outputs.now) }
        ensures err { OnErr result (fields_of self.new ≡ fields_of self.old) }
        ensures options { self.new.options ≡ self.old.options }
    {
        let alloc = self.alloc();
        let added = copy_rows(alloc, outputs)?;
        let known = self.used.items().len();
        self.use_numbers(outputs)?;
        let mut rows = mem::replace(&mut self.live, List::of(Vec::new(alloc))).into_vec();
        let done = exchange_rows(&mut rows, inputs, added);
        self.live = List::of(rows);
        if done.is_err() {
            self.free_numbers(known);
        }
        done
    }

    /// Puts these guards in place of the ones of a level.
    fn put_guards(&mut self, level: u8, keys: Vec<Key>)
        ensures shape { fields_of self.new
            ≡ record (fields_of self.old) { guards = set self.old.guards (level - 1) keys.items } }
        ensures options { self.new.options ≡ self.old.options }
    {
        let none = List::of(Vec::new(self.alloc()));
        let mut guards = mem::replace(&mut self.guards, none).into_vec();
        set_guards(
            &mut guards,
            level.saturating_sub(1) as usize,
            List::of(keys),
        );
        self.guards = List::of(guards);
    }

    /// Takes an opening in.
    fn open(&mut self, session: u64)
        ensures shape { fields_of self.new ≡ record (fields_of self.old) { session = session; used = [] } }
        ensures options { self.new.options ≡ self.old.options }
    {
        self.session = session;
        self.used = List::of(Vec::new(self.alloc()));
    }

    /// Takes a flush in. An error changes nothing.
    fn flush(&mut self, row: &TableRow, to: u64, log: u64, chosen: &[Chosen]) -> Result<(), Memory>
        ensures ok { OnOk result (fields_of self.new
            ≡ record (shapes.after_exchange (fields_of self.old) [] (row.now ∷ [])) {
              to = to;
              log = log;
              chosen = self.old.chosen ++ chosen.now;
            }) }
        ensures err { OnErr result (fields_of self.new ≡ fields_of self.old) }
        ensures options { self.new.options ≡ self.old.options }
    {
        let known = self.chosen.items().len();
        self.choose(chosen)?;
        let done = self.exchange(&[], std::slice::from_ref(row));
        if done.is_err() {
            self.forget(known);
            return done;
        }
        self.to = to;
        self.log = log;
        Ok(())
    }

    /// Takes a guard split in. An error changes nothing.
    fn cut(
        &mut self,
        level: u8,
        keys: &[Key],
        inputs: &[u64],
        outputs: &[TableRow],
    ) -> Result<(), Memory>
        ensures ok { OnOk result (fields_of self.new
            ≡ record (shapes.after_exchange (fields_of self.old) inputs.now outputs.now) {
              guards = set self.old.guards (level - 1)
                  (ranges.with_keys keys.now (shapes.guards_at (fields_of self.old) level));
            }) }
        ensures err { OnErr result (fields_of self.new ≡ fields_of self.old) }
        ensures options { self.new.options ≡ self.old.options }
    {
        let guards = with_keys(self.alloc(), keys, self.guards_at(level as usize))?;
        self.exchange(inputs, outputs)?;
        self.put_guards(level, guards);
        Ok(())
    }

    /// Takes an edit in that fits. An error changes nothing.
    fn grow(&mut self, edit: &Edit) -> Result<(), Memory>
        ensures ok { OnOk result (fields_of self.new ≡ shapes.shape_after (fields_of self.old) edit.now) }
        ensures err { OnErr result (fields_of self.new ≡ fields_of self.old) }
        ensures options { self.new.options ≡ self.old.options }
    {
        match edit {
            Edit::Open { session, .. } => {
                self.open(*session);
                Ok(())
            }
            Edit::Flush {
                row,
                to,
                log,
                chosen,
                ..
            } => self.flush(row, to.packed(), *log, chosen.items()),
            Edit::Move {
                inputs,
                outputs,
                ..
            } => self.exchange(inputs.items(), outputs.items()),
            Edit::Cut {
                level,
                keys,
                inputs,
                outputs,
            } => self.cut(*level, keys.items(), inputs.items(), outputs.items()),
            Edit::Merge {
                inputs,
                outputs,
                ..
            } => self.exchange(inputs.items(), outputs.items()),
        }
    }

    /// Takes an edit in where it fits. False comes exactly where it doesn't; then, and on an error,
    /// nothing changes.
    pub fn add(&mut self, edit: &Edit) -> Result<bool, Memory>
        ensures fits { IfOk result (λ fitting. fitting
            ≡ fits.fits (column self.old.options.profile) (fields_of self.old) edit.now) }
        ensures grown { IfOk result (λ fitting. fields_of self.new
            ≡ (if fitting then shapes.shape_after (fields_of self.old) edit.now else fields_of
            self.old)) }
        ensures err { OnErr result (fields_of self.new ≡ fields_of self.old) }
        ensures options { self.new.options ≡ self.old.options }
        ensures record { IfOk result (λ fitting. GoesOn (column self.old.options.profile) (fields_of self.old)
            (fields_of self.new) edit.now fitting) }
    {
        if !self.fits(edit)? {
            return Ok(false);
        }
        self.grow(edit)?;
        Ok(true)
    }
}
