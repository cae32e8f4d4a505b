//! Values that stand for lists of events.

ghost use Rattle.std.specs.Prelude.{◌≡◌, ℕ, ◌%◌, ◌^◌, List, length, Option};

/// A value that changes by events, of which it counts those that it has had.
pub trait Counted {
    /// What happens to the value: plain data, which contracts alone see.
    type Event;

    /// The value stands for this list of events. It may stand for several.
    ghost stands: { Self → List Self.Event → Type 0 };

    /// The number of the seat that alone may give the event, if it is tied to one.
    ghost actor: { Self.Event → Option ℕ };

    /// How many events the value has had, modulo 2^64: the length of each list that it stands for.
    fn events(&self) -> u64
        ensures { (events : List Self.Event) → stands self.now events
            → length events % 2 ^ 64 ≡ result };
}
