//! Laws of the map that batches spell. Each function runs nothing; its contract is the law.

ghost use Rattle.peb_base.specs.Laws.{LastIsOfTheBatch, BatchApplies, OldMapsStay, PutIsRead, DeleteIsRead, OtherKeysStay};

/// A batch of higher numbers gives the last number, and its operations are applied to the map before it.
pub fn law_batch_applies()
    ensures last { LastIsOfTheBatch }
    ensures map { BatchApplies }
{}

/// Batches of higher numbers don't change the map at a number.
pub fn law_later_batches()
    ensures { OldMapsStay }
{}

/// An operation gives its key a value or takes it away, and leaves the values of all other keys.
pub fn law_values()
    ensures put { PutIsRead }
    ensures delete { DeleteIsRead }
    ensures others { OtherKeysStay }
{}
