ghost use Rattle.std.specs.Prelude.{◌≡◌, IfOk};
ghost use Rattle.std.specs.Arc.{arc_value};

use crate::TableHandle;
use std::alloc::{AllocError, Global};
use std::sync::Arc;

/// A handle of a sealed table in memory. It tells its number and its bytes.
#[derive(Drop)]
pub struct MemTableFile {
    pub(crate) number: u64,
    pub(crate) bytes: Arc<Vec<u8>>,
}

impl TableHandle for MemTableFile {
    ghost use Rattle.std.specs.Prelude.{true};

    ghost tells = { true };

    ghost is_atomic = { true };

    ghost number = { λ table. table.number };

    ghost bytes = { λ table. (arc_value table.bytes).items };
}

impl MemTableFile {
    /// A table of this number with these bytes.
    pub(crate) fn new(alloc: Global, number: u64, bytes: &[u8]) -> Result<MemTableFile, AllocError>
        ensures number { IfOk result (λ table. table.number ≡ number) }
        ensures bytes { IfOk result (λ table. (arc_value table.bytes).items ≡ bytes.now) }
    {
        Ok(MemTableFile {
            number,
            bytes: Arc::new(alloc, bytes.to_vec(alloc)?)?,
        })
    }

    /// A further handle of the same table.
    pub(crate) fn share(&self) -> Result<MemTableFile, AllocError>
        ensures number { IfOk result (λ table. table.number ≡ self.now.number) }
        ensures bytes { IfOk result (λ table. arc_value table.bytes ≡ arc_value self.now.bytes) }
    {
        Ok(MemTableFile {
            number: self.number,
            bytes: Arc::try_clone(&self.bytes)?,
        })
    }
}
