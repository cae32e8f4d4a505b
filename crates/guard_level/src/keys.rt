//! Guard keys that levels share.

ghost use Rattle.std.specs.Prelude.{◌≡◌, ◌≤◌, [], length, IfOk, OnOk, OnErr};
ghost use Rattle.std.specs.Arc.{arc_value};
ghost use Rattle.std.specs.List.{insert};

use peb_base::{Key, Memory};
use std::alloc::Global;
use std::marker::Model;
use std::sync::Arc;

/// The guard keys of a level, by a handle that other levels may hold too.
#[derive(Drop)]
pub struct Keys {
    list: Option<Arc<Vec<Key>, Global>>,
}

impl Model for Keys {
    ghost use Rattle.std.specs.Prelude.{List, ℕ};
    ghost use Rattle.guard_level.specs.Held.{held_keys};

    ghost Value = { List (List ℕ) };

    ghost view = { λ keys. held_keys keys.list };
}

impl Keys {
    /// No keys. It takes no memory.
    pub fn new() -> Keys
        ensures { result ≡ [] }
    {
        Keys { list: None }
    }

    /// Lends the keys.
    pub fn items(&self) -> &[Key]
        ensures { result.now ≡ self.now }
    {
        match &self.list {
            Some(list) => list.as_slice(),
            None => &[],
        }
    }

    /// A further handle to the same keys: none is copied.
    pub fn share(&self) -> Result<Keys, Memory>
        ensures { IfOk result (λ shared. shared ≡ self.now) }
    {
        let Some(list) = &self.list else {
            return Ok(Keys { list: None });
        };
        let shared = Arc::try_clone(list)?;
        Ok(Keys { list: Some(shared) })
    }

    /// Puts a key at a place, and shows the further handles nothing of it.
    ///
    /// For want of memory nothing changes.
    pub fn insert(&mut self, alloc: Global, at: usize, key: Key) -> Result<(), Memory>
        requires { at ≤ length self.old }
        ensures ok { OnOk result (self.new ≡ insert self.old at key) }
        ensures err { OnErr result (self.new ≡ self.old) }
    {
        match &mut self.list {
            Some(list) => insert_in(alloc, list, at, key),
            None => {
                let mut list = Vec::new(alloc);
                list.insert(at, key)?;
                self.list = Some(Arc::new(alloc, list)?);
                Ok(())
            }
        }
    }
}

/// Puts a key at a place: where nobody else holds the keys among them, and
/// else among copies that take their place.
fn insert_in(
    alloc: Global,
    list: &mut Arc<Vec<Key>, Global>,
    at: usize,
    key: Key,
) -> Result<(), Memory>
    requires { at ≤ length (arc_value list.old).items }
    ensures ok { OnOk result
        ((arc_value list.new).items ≡ insert (arc_value list.old).items at key) }
    ensures err { OnErr result ((arc_value list.new).items ≡ (arc_value list.old).items) }
{
    if let Some(own) = Arc::get_mut(list) {
        own.insert(at, key)?;
        return Ok(());
    }
    let mut copies = copy_keys(alloc, list)?;
    copies.insert(at, key)?;
    *list = Arc::new(alloc, copies)?;
    Ok(())
}

/// Copies of the keys, with room for one more.
fn copy_keys(alloc: Global, keys: &[Key]) -> Result<Vec<Key>, Memory>
    ensures { IfOk result (λ copies. copies.items ≡ keys.now) }
{
    let mut copies = Vec::with_capacity(alloc, keys.len() + 1)?;
    for key in keys {
        copies.push(key.copy(alloc)?)?;
    }
    Ok(copies)
}
