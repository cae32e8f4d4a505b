//! Tables that can be shared.

ghost use Rattle.std.specs.Prelude.{◌≡◌, ◌↔◌, List, IfOk};
ghost use Rattle.std.specs.Arc.{arc_value};
ghost use Rattle.peb_base.specs.declared.entry.Entry.{Entry};

use crate::has_row::HasRow;
use crate::memory::Memory;
use std::alloc::Global;
use std::sync::Arc;

/// A table that gives a further handle to itself.
pub trait TableLike: HasRow + Sized {
    /// A value with the same row and entries.
    fn share(&self) -> Result<Self, Memory>
        ensures row { IfOk result (λ table. Self.the_row table ≡ Self.the_row self.now) }
        ensures entries { IfOk result
            (λ table. (es : List Entry) → Self.holds table es ↔ Self.holds self.now es) };
}

impl<X: HasRow> TableLike for Arc<X, Global> {
    fn share(&self) -> Result<Arc<X, Global>, Memory> {
        Ok(Arc::try_clone(self)?)
    }
}
