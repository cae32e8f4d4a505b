//! Tables by their rows.

ghost use Rattle.std.specs.Prelude.{◌≡◌, List};
ghost use Rattle.std.specs.Arc.{arc_value};
ghost use Rattle.peb_base.specs.Entries.{AreSorted};
ghost use Rattle.peb_base.specs.Tables.{IsRowOf};
ghost use Rattle.peb_base.specs.declared.entry.Entry.{Entry};
ghost use Rattle.peb_base.specs.declared.table_row.TableRow.{TableRow};

use crate::table_row::TableRow;
use std::alloc::Global;
use std::sync::Arc;

/// A sorted table that tells its row.
pub trait HasRow {
    /// Its row.
    ghost the_row: { Self → TableRow };

    /// Which entries it holds; none that can be named where its device doesn't tell its bytes.
    ghost holds: { Self → List Entry → Type 0 };

    /// Lends the row.
    fn row(&self) -> &TableRow
        ensures { result.now ≡ the_row self.now };

    /// Its entries are sorted, and its row is theirs.
    ghost agrees: { (table : Self) (es : List Entry) → holds table es → AreSorted es
        × IsRowOf (the_row table) es };
}

impl<X: HasRow> HasRow for Arc<X, Global> {
    ghost the_row = { λ table. X.the_row (arc_value table) };

    ghost holds = { λ table. X.holds (arc_value table) };

    ghost agrees = { λ table. X.agrees (arc_value table) };

    fn row(&self) -> &TableRow {
        (**self).row()
    }
}
