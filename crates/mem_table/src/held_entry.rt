//! Entries as tables and views hold them.

ghost use Rattle.std.specs.Prelude.{◌≡◌, IfOk};
ghost use Rattle.std.specs.Arc.{arc_value};
ghost use Rattle.peb_base.specs.Entries.{IsEntry};
ghost use Rattle.peb_base.specs.EntryRefs.{entry_of};
ghost use Rattle.peb_base.specs.Inserting.{bytes_of, entry_under};
ghost use Rattle.peb_base.specs.declared.change.Change.TheVariants.{Put, Delete};

use peb_base::{Change, ChangeRef, EntryRef, Memory, Number, Op};
use std::alloc::Global;
use std::marker::Model;
use std::sync::Arc;

/// An entry whose key and value lie in one piece of memory, the key first.
#[derive(Drop)]
pub struct HeldEntry {
    bytes: Vec<u8>,
    key_length: usize,
    number: Number,
    is_put: bool,
}

impl Model for HeldEntry {
    ghost use Rattle.peb_base.specs.declared.entry.Entry.{Entry};
    ghost use Rattle.mem_table.specs.Held.{held_entry, IsHeld};

    ghost Value = { Entry };

    ghost view = { λ held. held_entry held.bytes.items held.key_length held.number held.is_put };

    ghost invariant = { λ held. IsHeld held.bytes.items held.key_length held.is_put };
}

impl HeldEntry {
    /// The entry of an operation under its number, by a handle.
    pub fn of(alloc: Global, op: &Op, number: Number) -> Result<Arc<HeldEntry, Global>, Memory>
        ensures entry { IfOk result (λ entry. arc_value entry ≡ entry_under number op.now) }
        ensures within { IfOk result (λ entry. IsEntry (arc_value entry)) }
    {
        let key = op.key.bytes();
        let held = match &op.change {
            Change::Put(value) => HeldEntry::put(alloc, key, value.bytes(), number)?,
            Change::Delete => HeldEntry::deletion(alloc, key, number)?,
        };
        Ok(Arc::new(alloc, held)?)
    }

    fn put(alloc: Global, key: &[u8], value: &[u8], number: Number) -> Result<HeldEntry, Memory>
        ensures { IfOk result (λ held. held
            ≡ record { key = key.now; number = number; change = Put value.now }) }
    {
        let key_length = key.len();
        let mut bytes = Vec::with_capacity(alloc, key_length.saturating_add(value.len()))?;
        bytes.extend_from_slice(key)?;
        bytes.extend_from_slice(value)?;
        Ok(HeldEntry {
            bytes,
            key_length,
            number,
            is_put: true,
        })
    }

    fn deletion(alloc: Global, key: &[u8], number: Number) -> Result<HeldEntry, Memory>
        ensures { IfOk result (λ held. held
            ≡ record { key = key.now; number = number; change = Delete }) }
    {
        let key_length = key.len();
        let bytes = Vec::from_slice(alloc, key)?;
        Ok(HeldEntry {
            bytes,
            key_length,
            number,
            is_put: false,
        })
    }

    /// Lends the key.
    pub fn key(&self) -> &[u8]
        ensures { result.now ≡ self.now.key }
    {
        &self.bytes[..self.key_length]
    }

    /// Its number.
    pub fn number(&self) -> Number
        ensures { result ≡ self.now.number }
    {
        self.number
    }

    /// Lends its parts.
    pub fn lend(&self) -> EntryRef<'_>
        ensures { entry_of result ≡ self.now }
    {
        let number = self.number;
        let is_put = self.is_put;
        let (key, value) = self.bytes.split_at(self.key_length);
        if is_put {
            return EntryRef::new(key, number, ChangeRef::Put(value));
        }
        EntryRef::new(key, number, ChangeRef::Delete)
    }

    /// The bytes of key and value, and 16 more.
    pub fn size(&self) -> u64
        ensures { result ≡ bytes_of self.now }
    {
        self.bytes.len() as u64 + 16
    }
}
