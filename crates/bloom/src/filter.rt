//! Filters.

ghost use Rattle.std.specs.Prelude.{◌≡◌, ◌≤◌, [], length, IfOk};
ghost use Rattle.peb_base.specs.Answers.{Refuses};
ghost use Rattle.peb_base.specs.Choice as choice;
ghost use Rattle.peb_base.specs.Keys.{AreBytes};
ghost use Rattle.bloom.specs.Filter.{filter_fault, filter_of, may_hold, with_hash};
ghost use Rattle.bloom.specs.declared.filter_fault.FilterFault.TheVariants as faults;

use crate::filter_fault::FilterFault;
use crate::probes::{has_probes, set_probes};
use peb_base::{Memory, mixed};
use std::alloc::Global;
use std::marker::Model;

/// The filter of a table: ten bits for each entry, among which each key sets six by its hash (double
/// hashing after Kirsch and Mitzenmacher). A key that was added is never denied.
#[derive(Drop)]
pub struct Filter {
    bytes: Vec<u8>,
}

impl Model for Filter {
    ghost use Rattle.std.specs.Prelude.{List, ℕ, length, ◌≤◌};

    ghost Value = { List ℕ };

    ghost view = { λ filter. filter.bytes.items };

    ghost invariant = { λ filter. 8 ≤ length filter.bytes.items };
}

impl Filter {
    /// A filter for so many entries, to which nothing is added yet.
    pub fn build(alloc: Global, count: u64) -> Result<Filter, Memory>
        requires { count ≤ 1717986918 }
        ensures { IfOk result (λ filter. filter ≡ filter_of count []) }
    {
        let bits = (count * 10).max(64);
        let mut bytes = Vec::new(alloc);
        bytes.resize(bits.div_ceil(8) as usize, 0)?;
        Ok(Filter { bytes })
    }

    /// Adds a key. It takes no memory.
    pub fn add(&mut self, key: &[u8])
        ensures { self.new ≡ with_hash self.old (choice.mixed key.now) }
    {
        self.add_mixed(mixed(key));
    }

    /// Adds every key whose `mixed` is the hash. It takes no memory.
    pub fn add_mixed(&mut self, hash: u64)
        ensures { self.new ≡ with_hash self.old hash }
    {
        set_probes(&mut self.bytes, hash);
    }

    /// Whether the key may have been added: false only where it wasn't. It takes no memory.
    pub fn may_hold(&self, key: &[u8]) -> bool
        ensures { result ≡ may_hold self.now (choice.mixed key.now) }
    {
        has_probes(&self.bytes, mixed(key))
    }

    /// Lends the bytes of the filter, at least 8.
    pub fn bytes(&self) -> &[u8]
        ensures value { result.now ≡ self.now }
        ensures some { 8 ≤ length self.now }
        ensures bytes { AreBytes self.now }
    {
        // A variable's type tells the proof that each item is a byte.
        let bytes = self.bytes.as_slice();
        bytes
    }

    /// The filter that has these bytes, a copy of them.
    ///
    /// `Form` comes exactly where they are fewer than 8.
    pub fn read(alloc: Global, bytes: &[u8]) -> Result<Filter, FilterFault>
        ensures ok { IfOk result (λ filter. filter ≡ bytes.now) }
        ensures refused { Refuses faults.Memory (filter_fault (length bytes.now)) result }
    {
        if bytes.len() < 8 {
            return Err(FilterFault::Form);
        }
        let bytes = Vec::from_slice(alloc, bytes).map_err(|_| FilterFault::Memory)?;
        Ok(Filter { bytes })
    }
}
