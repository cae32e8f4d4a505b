/// Of which directory the journal was handed out last: of none, of the one that was chosen last, or
/// of an earlier one.
///
/// So handing out a journal copies no name.
#[derive(Clone, Copy)]
pub enum Opened {
    Nothing,
    Chosen,
    Earlier,
}
