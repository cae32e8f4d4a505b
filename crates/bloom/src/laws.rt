//! Laws of filters. Each function runs nothing; its contract is the law.

ghost use Rattle.bloom.specs.Laws.{AddedIsHeld, AllAreHeld, BitsAreRead, BitsDecide, FilterGrows, FilterIsLong, HeldStays};

/// A hash that is added may be held, and stays so.
pub fn law_added()
    ensures added { AddedIsHeld }
    ensures stays { HeldStays }
{}

/// Adding hashes one by one gives the filter of all of them, and every one of them may be held.
pub fn law_filter()
    ensures grows { FilterGrows }
    ensures all { AllAreHeld }
    ensures long { FilterIsLong }
{}

/// Bytes are decided by their bits.
pub fn law_bits()
    ensures read { BitsAreRead }
    ensures decide { BitsDecide }
{}
