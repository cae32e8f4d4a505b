use crate::taken_away::TakenAway;

/// What the makers took away that were handed back, the latest first.
#[derive(Drop)]
pub enum Makers {
    Nothing,
    Maker(TakenAway, Box<Makers>),
}
