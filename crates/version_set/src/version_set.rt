//! Version sets.

ghost use Rattle.std.specs.Prelude.{◌≡◌, ◌≤◌, ◌<◌, ◌↔◌, ◌∷◌, [], ℕ, List, IfOk, IsTrue, IfErr, OnErr, IfSome, IfNone, length, map};
ghost use Rattle.std.specs.Arc.{arc_value};
ghost use Rattle.std.specs.List.{AllByRecursion};
ghost use Rattle.peb_base.specs.Guards.{Ascend};
ghost use Rattle.peb_base.specs.Profiles.{column};
ghost use Rattle.peb_base.specs.declared.entry.Entry.{Entry};
ghost use Rattle.flsm_model.specs.Jobs.{floor_of};
ghost use Rattle.flsm_model.specs.Legal.{holds_of};
ghost use Rattle.flsm_model.specs.Steps.{held_without};
ghost use Rattle.flsm_model.specs.Shape.{Shape, empty_shape};
ghost use Rattle.version_set.specs.Registers.{IsFirstHeld};
ghost use Rattle.version_set.specs.Shapes.{IsEmptyLevel, HasPlace, HasTables, IsVersionOf};
ghost use Rattle.version_set.specs.Changes.{CanStage, IsStagedFor};
ghost use Rattle.version_set.specs.Contents.{EachLive, HoldEach, ContentsStay};

use crate::building::{levels_of, place_all};
use crate::held::Held;
use crate::staged::Staged;
use crate::staging::next_version;
use flsm_model::Edit;
use guard_level::Level;
use peb_base::{Key, List, Memory, Number, Options, TableLike};
use std::alloc::Global;
use std::marker::Model;
use std::sync::Arc;
use version::Version;

/// The current version, and the numbers that clients hold.
#[derive(Drop)]
pub struct VersionSet<T: TableLike> {
    alloc: Global,
    current: Arc<Version<T>, Global>,
    held: Held,
}

impl<T: TableLike> Model for VersionSet<T> {
    ghost use Rattle.std.specs.Arc.{arc_value};
    ghost use Rattle.version_set.specs.Versions.{Versions};

    ghost Value = { Versions T };

    ghost view = { λ set. record { current = arc_value set.current; held = set.held } };
}

/// So many levels without guards.
fn no_levels<T: TableLike + Drop>(alloc: Global, count: u8) -> Result<Vec<Level<T>>, Memory>
    ensures count { IfOk result (λ levels. length levels.items ≡ count) }
    ensures empty { IfOk result (λ levels. AllByRecursion IsEmptyLevel levels.items) }
{
    let mut levels = Vec::new(alloc);
    for _ in 0..count {
        levels.push(Level::new(alloc))?;
    }
    Ok(levels)
}

impl<T: TableLike + Drop> VersionSet<T> {
    /// A set without tables, guards and held numbers, which has the levels of a profile. Room for
    /// all numbers that clients may hold is taken here.
    pub fn new(alloc: Global, options: &Options) -> Result<VersionSet<T>, Memory>
        ensures stands { IfOk result
            (λ set. IsVersionOf T.HasRow.the_row set.current
            (empty_shape (column options.now.profile))) }
        ensures contents { IfOk result (λ set. (content : ℕ → List Entry)
            → HoldEach T.HasRow.the_row T.HasRow.holds content set.current) }
        ensures held { IfOk result (λ set. set.held ≡ []) }
    {
        let levels = no_levels(alloc, options.last_level)?;
        let version = Version::of_parts(alloc, Vec::new(alloc), levels)?;
        Ok(VersionSet {
            alloc,
            current: Arc::new(alloc, version)?,
            held: Held::new(alloc)?,
        })
    }

    /// The set with these guards, of level 1 on, and further handles to these tables, in their
    /// order, and without held numbers.
    ///
    /// There are at most 255 levels, the guards of each ascend strictly, and each table has its
    /// place. Where each table holds the entries that its number stands for, each of the set does.
    pub fn of_parts(
        alloc: Global,
        guards: &[List<Key>],
        tables: &[T],
    ) -> Result<VersionSet<T>, Memory>
        requires few { length guards.now < 256 }
        requires ascend { AllByRecursion (Ascend []) guards.now }
        requires placed { AllByRecursion (λ t. HasPlace guards.now (T.HasRow.the_row t))
            tables.now }
        // what it gives
        ensures stands { IfOk result (λ set. HasTables T.HasRow.the_row set.current guards.now
            (map T.HasRow.the_row tables.now)) }
        ensures contents { IfOk result (λ set. ContentsStay T.HasRow.the_row T.HasRow.holds
            (λ P. AllByRecursion P tables.now) (λ P. EachLive P set.current)) }
        ensures held { IfOk result (λ set. set.held ≡ []) }
    {
        let mut top = Vec::new(alloc);
        let mut levels = levels_of(alloc, guards)?;
        place_all(&mut top, &mut levels, tables)?;
        let version = Version::of_parts(alloc, top, levels)?;
        let current = Arc::new(alloc, version)?;
        let held = Held::new(alloc)?;
        Ok(VersionSet {
            alloc,
            current,
            held,
        })
    }

    /// Makes the version after an edit, and changes nothing.
    ///
    /// The current version stands for a shape that a legal record leaves, the edit fits it, and
    /// `tables` are its outputs, in order. Where each table of the current version, and each of
    /// `tables`, holds the entries that its number stands for, each of the next version does, and
    /// each that goes. Want of memory gives the tables back.
    pub fn stage(&self, edit: &Edit, tables: Vec<T>) -> Result<Staged<T>, (Memory, Vec<T>)>
        requires { (s : Shape) × CanStage T.HasRow.the_row self.now.current s edit.now
            tables.items }
        ensures staged { IfOk result (λ staged. (s : Shape)
            → CanStage T.HasRow.the_row self.now.current s edit.now tables.items
            → IsStagedFor T.HasRow.the_row staged.next staged.gone s edit.now) }
        ensures contents { IfOk result (λ staged. ContentsStay T.HasRow.the_row T.HasRow.holds
            (λ P. EachLive P self.now.current × AllByRecursion P tables.items)
            (λ P. EachLive P staged.next × AllByRecursion P staged.gone)) }
        ensures given { IfOk result (λ staged. staged.given ≡ tables.items) }
        ensures back { IfErr result (λ fault. fault.1.items ≡ tables.items) }
    {
        match next_version(self.alloc, self.version(), edit, tables.as_slice()) {
            Ok(made) => {
                let (next, gone) = made;
                Ok(Staged {
                    next,
                    gone,
                    given: tables,
                })
            }
            Err(memory) => Err((memory, tables)),
        }
    }

    /// Takes a staged version in, and gives the tables that its edit takes away. It takes no
    /// memory.
    pub fn swap(&mut self, staged: Staged<T>) -> Vec<T>
        ensures set { self.new ≡ record self.old { current = staged.next } }
        ensures gone { result.items ≡ staged.gone }
    {
        let Staged {
            next,
            gone,
            given: _,
        } = staged;
        self.current = next;
        gone
    }

    /// Makes an edit, as `stage` and `swap` do, and gives the tables that it takes away. Tables go
    /// on to hold what their numbers stand for. Want of memory changes nothing and gives `tables`
    /// back.
    pub fn apply(&mut self, edit: &Edit, tables: Vec<T>) -> Result<Vec<T>, (Memory, Vec<T>)>
        requires { (s : Shape) × CanStage T.HasRow.the_row self.old.current s edit.now
            tables.items }
        // what it gives
        ensures staged { IfOk result (λ gone. (s : Shape)
            → CanStage T.HasRow.the_row self.old.current s edit.now tables.items
            → IsStagedFor T.HasRow.the_row self.new.current gone.items s edit.now) }
        ensures contents { IfOk result (λ gone. ContentsStay T.HasRow.the_row T.HasRow.holds
            (λ P. EachLive P self.old.current × AllByRecursion P tables.items)
            (λ P. EachLive P self.new.current × AllByRecursion P gone.items)) }
        // when it fails
        ensures err { OnErr result (self.new ≡ self.old) }
        ensures back { IfErr result (λ fault. fault.1.items ≡ tables.items) }
        // what stays
        ensures held { self.new.held ≡ self.old.held }
    {
        match self.stage(edit, tables) {
            Ok(staged) => Ok(self.swap(staged)),
            Err(fault) => Err(fault),
        }
    }

    /// A further handle to the current version, which shows the same after later edits.
    pub fn current(&self) -> Result<Arc<Version<T>, Global>, Memory>
        ensures { IfOk result (λ version. arc_value version ≡ self.now.current) }
    {
        Ok(Arc::try_clone(&self.current)?)
    }

    /// Lends the current version.
    pub fn version(&self) -> &Version<T>
        ensures { result.now ≡ self.now.current }
    {
        &self.current
    }

    /// Holds a number for a client, at most 16, that holds fewer than 64. It takes no memory.
    pub fn hold(&mut self, client: u32, number: Number)
        requires client { client ≤ 16 }
        requires few { holds_of client self.old.held < 64 }
        ensures { self.new ≡ record self.old { held = (client, number) ∷ self.old.held } }
    {
        self.held.hold(client, number);
    }

    /// Whether a client may hold one number more: it is at most 16, and holds fewer than 64.
    pub fn can_hold(&self, client: u32) -> bool
        ensures { IsTrue result ↔ (client ≤ 16 × holds_of client self.now.held < 64) }
    {
        self.held.can_hold(client)
    }

    /// Releases a number that the client holds, once, without memory. One that it doesn't hold
    /// changes nothing.
    pub fn release(&mut self, client: u32, number: Number)
        ensures { self.new ≡
            record self.old { held = held_without (client, number) self.old.held } }
    {
        self.held.release(client, number);
    }

    /// The least of the held numbers and `last`: what a view may still ask for.
    pub fn floor(&self, last: Number) -> Number
        ensures { result ≡ floor_of self.now.held last }
    {
        self.held.floor(last)
    }

    /// The first held pair by client, then by number. None comes exactly where nothing is held.
    pub fn held(&self) -> Option<(u32, Number)>
        ensures first { IfSome result (λ pair. IsFirstHeld pair self.now.held) }
        ensures none { IfNone result (self.now.held ≡ []) }
    {
        self.held.first()
    }
}
