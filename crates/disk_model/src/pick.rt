/// Which of the images that a crash may leave is taken.
///
/// `Old` has of each file what its last sync or removal left, `New` what reads give. `Seeded` draws
/// for each write whether it is lost, kept, kept in part, or left as other bytes in its range.
#[derive(Clone, Copy, Debug, PartialEq, Eq)]
pub enum Pick {
    Old,
    New,
    Seeded(u64),
}
