//! Laws of the form.

ghost use Rattle.std.specs.Prelude.{◌≡◌, ◌+◌, ◌≤◌, ◌++◌, ◌∷◌, [], List, ℕ, length};
ghost use Rattle.peb_base.specs.Entries.{IsEntry};
ghost use Rattle.peb_base.specs.declared.entry.Entry.{Entry};
ghost use Rattle.block_form.specs.Form.{block_bytes, IsBlock};
ghost use Rattle.block_form.specs.Walks.{entries_in};

/// Bytes are the block of one list of entries at most.
pub fn one_block()
    ensures { (a b : List Entry) (bytes : List ℕ) → IsBlock a bytes → IsBlock b bytes → a ≡ b }
{}

/// The entries of a block are what its bytes read as.
pub fn block_reads()
    ensures { (es : List Entry) (bytes : List ℕ) → IsBlock es bytes
        → entries_in (length es) bytes ≡ es }
{}

/// A block grows by at most 33,813 bytes with an entry: its head, the longest
/// key, the longest value, and a restart.
pub fn block_grows()
    ensures { (es : List Entry) (e : Entry) → IsEntry e
        → length (block_bytes (es ++ e ∷ [])) ≤ length (block_bytes es) + 33813 }
{}
