//! Lists that a proof names.

ghost use Rattle.std.specs.Prelude.{List};

use std::marker::Brand;

/// A list of events that a proof names, for a step to tell of. A call at `Brand` picks it.
pub(crate) trait Names<E> {
    ghost named: { List E };
}

impl<E> Names<E> for Brand {
    ghost use Rattle.std.specs.Prelude.{[]};

    ghost named = { [] };
}
