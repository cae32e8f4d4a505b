//! Laws of versions.

ghost use Rattle.version_set.specs.ContentLaws.{HoldBoth, LooksHold};
ghost use Rattle.version_set.specs.PartLaws.{RecordsHaveParts};

use peb_base::TableLike;

/// Readings of table numbers that agree on the live rows of a version: where each of its tables
/// holds what its number stands for by one, each does by the other. So does each table that a
/// look-up gives.
pub fn law_contents<T: TableLike>()
    ensures both { HoldBoth T.HasRow.the_row T.HasRow.holds }
    ensures looks { LooksHold T.HasRow.the_row T.HasRow.holds }
{}

/// Where a legal record leaves a shape, a set can be made of its guards and its live tables by
/// `VersionSet::of_parts`: there are at most 255 levels, and each table has its place.
pub fn law_parts()
    ensures { RecordsHaveParts }
{}
