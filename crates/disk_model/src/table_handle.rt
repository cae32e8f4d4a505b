ghost use Rattle.std.specs.Prelude.{Bool, ℕ, List};

/// A handle of a sealed table. Ports read by it, and the table's file stays while there is one.
pub trait TableHandle: Drop {
    /// Whether ports and makers of such handles tell what tables hold. Those over real files don't.
    ghost tells: { Bool };

    /// Whether a call of a port or a maker that fails has done nothing. Over real files a part of
    /// it may be done.
    ghost is_atomic: { Bool };

    /// The table's number.
    ghost number: { Self → ℕ };

    /// The table's bytes, where they are told. They never change.
    ghost bytes: { Self → List ℕ };
}
