//! What joins the calls of this crate to the laws of the model. The functions run nothing; their
//! contracts are the laws.

ghost use Rattle.job_picker.specs.Joined.{PickedIsFirst, NoneIsPicked};
ghost use Rattle.job_picker.specs.Met.{RecordsAreSeen};

use peb_base::TableLike;

/// The first job that is wanted and free is the one that the model picks, once it has its table
/// numbers and its floor; where none is wanted none is picked. So of a job that `pick` gives
/// `flsm_model::law_due` says that it may begin, and `flsm_model::law_settles` that it leaves less
/// to do; where it gives none, or nothing is `due`, and no job is in flight, `flsm_model::law_idle`
/// says that there is room.
pub fn law_picked()
    ensures first { PickedIsFirst }
    ensures none { NoneIsPicked }
{}

/// What `pick` and `due` ask is met by every version that stands for the shape of a legal record
/// (`flsm_model::law_shape` says that these are sound), with the keys that the record has chosen.
pub fn law_seen<T: TableLike>()
    ensures { RecordsAreSeen T.HasRow.the_row }
{}
