//! What a lent entry does to its key.

ghost use Rattle.std.specs.Prelude.{◌≡◌, length};
ghost use Rattle.peb_base.specs.Entries.{value_of};
ghost use Rattle.peb_base.specs.EntryRefs.{change_of};

/// What an entry does to its key, with the value lent.
#[derive(Clone, Copy, Debug)]
pub enum ChangeRef<'a> {
    Put(&'a [u8]),
    Delete,
}

impl ChangeRef<'_> {
    /// The length of the value in bytes; a deletion has none.
    pub fn len(&self) -> usize
        ensures { result ≡ length (value_of (change_of self.now)) }
    {
        match self {
            ChangeRef::Put(value) => value.len(),
            ChangeRef::Delete => 0,
        }
    }
}
