//! What a block that is read for the first time tells besides.

/// The number of the entries of a block, their least and greatest number, and the number of the last of them.
#[derive(Clone, Copy, Debug)]
pub struct Ends {
    pub count: usize,
    pub least: u64,
    pub greatest: u64,
    pub last: u64,
}
