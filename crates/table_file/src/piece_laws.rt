//! Laws of pieces.

ghost use Rattle.std.specs.Prelude.{◌≡◌, ◌≤◌, ◌++◌, ℕ, List, map};
ghost use Rattle.flsm_model.specs.Compaction.{pieces};
ghost use Rattle.peb_base.specs.Entries.{AreSorted};
ghost use Rattle.peb_base.specs.Keys.{Bytes};
ghost use Rattle.peb_base.specs.declared.entry.Entry.{Entry};
ghost use Rattle.table_file.specs.Pieces.{pieces_from, open_length, whole_length};

/// The pieces that a writer makes are those of a compaction, with numbers; and what a maker takes
/// of some first entries is at most what it takes of more of them, and at most the tables of their
/// pieces together.
pub fn law_pieces()
    ensures entries { (n : ℕ) (keys : List Bytes) (es : List Entry)
        → map (λ p. p.entries) (pieces_from n keys es) ≡ pieces es keys }
    ensures grows { (full n : ℕ) (keys : List Bytes) (es rest : List Entry) → AreSorted (es ++ rest)
        → open_length full (pieces_from n keys es)
        ≤ open_length full (pieces_from n keys (es ++ rest)) }
    ensures whole { (full n : ℕ) (keys : List Bytes) (es : List Entry)
        → open_length full (pieces_from n keys es)
        ≤ whole_length full (pieces_from n keys es) }
{}
