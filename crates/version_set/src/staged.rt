//! Staged versions.

ghost use Rattle.std.specs.Prelude.{◌≡◌};

use peb_base::TableLike;
use std::alloc::Global;
use std::marker::Model;
use std::sync::Arc;
use version::Version;

/// The next version, with the tables that the edit takes away and those that were handed in.
#[derive(Drop)]
pub struct Staged<T: TableLike> {
    pub(crate) next: Arc<Version<T>, Global>,
    pub(crate) gone: Vec<T>,
    pub(crate) given: Vec<T>,
}

impl<T: TableLike> Model for Staged<T> {
    ghost use Rattle.std.specs.Arc.{arc_value};
    ghost use Rattle.version_set.specs.Versions.{StagedVersion};

    ghost Value = { StagedVersion T };

    ghost view = { λ staged. record {
      next = arc_value staged.next;
      gone = staged.gone.items;
      given = staged.given.items;
    } };
}

impl<T: TableLike + Drop> Staged<T> {
    /// Gives the tables that were handed in back, where the edit isn't made after all.
    pub fn back(self) -> Vec<T>
        ensures { result.items ≡ self.given }
    {
        let Staged {
            next: _,
            gone: _,
            given,
        } = self;
        given
    }
}
