//! Candidates.

ghost use Rattle.std.specs.Prelude.{◌≡◌, ℕ, ◌&&◌, ◌||◌, true, [], IfOk, OnOk, OnErr};
ghost use Rattle.std.specs.Option.{option_copied};
ghost use Rattle.peb_base.specs.Keys.{Bytes};
ghost use Rattle.flsm_model.specs.Ranges.{in_range, has_key, keys_ascend};
ghost use Rattle.flsm_model.specs.Fits.{is_candidate};

use crate::sorted::{copies, end_of, keys_to, place_of, put};
use flsm_model::Chosen;
use peb_base::{Key, Memory};
use std::alloc::Global;
use std::marker::Model;

/// The keys that flushes chose. Each is a candidate for a guard of its level and of every deeper one.
#[derive(Drop)]
pub struct Candidates {
    chosen: Vec<Chosen>,
}

impl Model for Candidates {
    ghost use Rattle.std.specs.Prelude.{List};
    ghost use Rattle.flsm_model.specs.declared.chosen.Chosen.{Chosen};
    ghost use Rattle.guard_choice.specs.Candidates.{Ascend};

    ghost Value = { List Chosen };

    ghost view = { λ candidates. candidates.chosen.items };

    ghost invariant = { λ candidates. Ascend candidates.chosen.items };
}

impl Candidates {
    /// No key was chosen. It takes no memory.
    pub fn new(alloc: Global) -> Candidates
        ensures { result ≡ [] }
    {
        Candidates {
            chosen: Vec::new(alloc),
        }
    }

    /// Adds copies of the keys that a flush chose, with their levels. A key that was chosen before
    /// keeps the shallower level. `Memory` changes nothing.
    pub fn add(&mut self, chosen: &[Chosen]) -> Result<(), Memory>
        ensures ok { OnOk result
            ((level : ℕ) (key : Bytes)
            → is_candidate self.new level key
            ≡ (is_candidate self.old level key || is_candidate chosen.now level key)) }
        ensures err { OnErr result (self.new ≡ self.old) }
    {
        let mut more = copies(*self.chosen.allocator(), chosen)?;
        self.chosen.reserve(more.len())?;
        while let Some(next) = more.pop() {
            put(&mut self.chosen, next);
        }
        Ok(())
    }

    /// Copies of the candidates of the level from `lo` on, which is empty for no bound, and below `hi`,
    /// if there is one. They ascend, and each stands once.
    pub fn in_range(&self, level: u8, lo: &[u8], hi: Option<&Key>) -> Result<Vec<Key>, Memory>
        ensures keys { IfOk result
            (λ keys. (key : Bytes)
            → has_key key keys.items
            ≡ (is_candidate self.now level key && in_range lo.now (option_copied hi.entry) key)) }
        ensures ascend { IfOk result (λ keys. keys_ascend keys.items ≡ true) }
    {
        let (_, rest) = self.chosen.split_at(place_of(&self.chosen, lo));
        let (within, _) = rest.split_at(end_of(rest, hi));
        keys_to(*self.chosen.allocator(), within, level)
    }

    /// Whether the key is a candidate of the level. It takes no memory.
    pub fn is_candidate(&self, level: u8, key: &[u8]) -> bool
        ensures { result ≡ is_candidate self.now level key.now }
    {
        let at = place_of(&self.chosen, key);
        if at >= self.chosen.len() {
            return false;
        }
        let found = &self.chosen[at];
        found.level <= level && key == found.key.bytes()
    }

    /// An equal value.
    pub fn copy(&self) -> Result<Candidates, Memory>
        ensures { IfOk result (λ copy. copy ≡ self.now) }
    {
        let chosen = copies(*self.chosen.allocator(), &self.chosen)?;
        Ok(Candidates { chosen })
    }
}
