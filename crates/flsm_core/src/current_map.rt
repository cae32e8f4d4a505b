//! The ordered map after all batches.

ghost use Rattle.std.specs.Prelude.{◌≡◌, ◌≤◌, [], length, IfSome, OnOk, OnErr};
ghost use Rattle.std.specs.Option.{option_copied};
ghost use Rattle.peb_base.specs.Map.{set_key, remove_key, apply_change, lookup};

use peb_base::{Change, Key, Memory, Op, Value};
use std::alloc::Global;
use std::collections::BTreeMap;
use std::marker::Model;

/// Keys with their values, by ascending key.
#[derive(Drop)]
pub struct CurrentMap {
    values: BTreeMap<Vec<u8>, Value>,
}

impl Model for CurrentMap {
    ghost use Rattle.flsm_core.specs.Pairs.{pairs};
    ghost use Rattle.peb_base.specs.Map.{Map};

    ghost Value = { Map };

    ghost view = { λ a. pairs a.values.entries };
}

impl CurrentMap {
    /// A map without keys.
    pub fn new(alloc: Global) -> CurrentMap
        ensures { result ≡ [] }
    {
        CurrentMap {
            values: BTreeMap::new(alloc),
        }
    }

    /// Sets a key. After want of memory the map is as before.
    pub fn set(&mut self, key: Key, value: Value) -> Result<(), Memory>
        ensures ok { OnOk result (self.new ≡ set_key key value self.old) }
        ensures err { OnErr result (self.new ≡ self.old) }
    {
        self.values.insert(key.into_bytes(), value)?;
        Ok(())
    }

    /// Takes a key away, where it is there.
    pub fn remove(&mut self, key: &[u8])
        ensures { self.new ≡ remove_key key.now self.old }
    {
        // It tells the proof that the keys ascend.
        let _len = self.values.len();
        let _removed = self.values.remove(key);
    }

    /// Applies one operation. After want of memory the map is as before.
    pub fn apply(&mut self, op: Op) -> Result<(), Memory>
        ensures ok { OnOk result (self.new ≡ apply_change op.key op.change self.old) }
        ensures err { OnErr result (self.new ≡ self.old) }
    {
        let Op { key, change } = op;
        match change {
            Change::Put(value) => self.set(key, value),
            Change::Delete => {
                self.remove(key.bytes());
                Ok(())
            }
        }
    }

    /// The value of a key.
    pub fn get(&self, key: &[u8]) -> Option<&[u8]>
        ensures value { option_copied result ≡ lookup key.now self.now }
        ensures short { IfSome result (λ value. length value.now ≤ 32768) }
    {
        match self.values.get(key) {
            Some(value) => Some(value.bytes()),
            None => None,
        }
    }
}
