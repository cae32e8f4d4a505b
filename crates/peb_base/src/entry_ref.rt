//! Entries that are lent.

ghost use Rattle.std.specs.Prelude.{◌≡◌, ◌<◌, ◌^◌};

use crate::change_ref::ChangeRef;
use crate::number::Number;

/// An entry whose key and value are lent.
///
/// Its number is kept packed, as `Number::packed` gives it, since lent entries are handed on by value.
#[derive(Clone, Copy, Debug)]
pub struct EntryRef<'a> {
    pub key: &'a [u8],
    pub number: u64,
    pub change: ChangeRef<'a>,
    pub ghost small: { number < 2 ^ 63 },
}

impl<'a> EntryRef<'a> {
    /// Lends the parts of an entry.
    pub fn new(key: &'a [u8], number: Number, change: ChangeRef<'a>) -> EntryRef<'a>
        ensures key { result.key.now ≡ key.now }
        ensures number { result.number ≡ number }
        ensures change { result.change ≡ change.entry }
    {
        EntryRef {
            key,
            number: number.packed(),
            change,
        }
    }

    /// The number of the entry.
    pub fn number(&self) -> Number
        ensures { result ≡ self.now.number }
    {
        Number::of_packed(self.number)
    }
}
