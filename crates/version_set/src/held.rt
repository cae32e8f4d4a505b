//! Held numbers.

ghost use Rattle.std.specs.Prelude.{◌≡◌, ◌≤◌, ◌<◌, ◌↔◌, IsTrue, [], ◌∷◌, length, min, IfOk, IfSome, IfNone};
ghost use Rattle.std.specs.List.{position};
ghost use Rattle.flsm_model.specs.Jobs.{floor_of};
ghost use Rattle.flsm_model.specs.Legal.{holds_of};
ghost use Rattle.flsm_model.specs.Steps.{held_without};
ghost use Rattle.version_set.specs.Registers.{IsFirstHeld, is_pair, earlier};

use peb_base::{Memory, Number};
use std::alloc::Global;
use std::marker::Model;

/// The greatest number of a client.
pub const CLIENTS: u32 = 16;

/// How many numbers a client may hold at once.
const MOST: usize = 64;

/// The numbers that clients hold, the last one that was taken first. Each entry has its client and
/// the number.
#[derive(Drop)]
pub struct Held {
    pairs: Vec<(u32, Number)>,
}

impl Model for Held {
    ghost use Rattle.std.specs.Prelude.{List, ℕ, ◌≤◌, vec_capacity};
    ghost use Rattle.version_set.specs.Registers.{IsRegister, HasRoom};

    ghost Value = { List (ℕ × ℕ) };

    ghost view = { λ held. held.pairs.items };

    ghost invariant = { λ held. HasRoom held.pairs.items (vec_capacity held.pairs) };
}

impl Held {
    /// No held numbers, with room for all that clients may hold.
    pub fn new(alloc: Global) -> Result<Held, Memory>
        ensures { IfOk result (λ held. held ≡ []) }
    {
        Ok(Held {
            pairs: Vec::with_capacity(alloc, (CLIENTS as usize + 1) * MOST)?,
        })
    }

    /// Holds a number for a client, at most 16, that holds fewer than 64. It takes no memory.
    pub fn hold(&mut self, client: u32, number: Number)
        requires client { client ≤ 16 }
        requires few { holds_of client self.old < 64 }
        ensures { self.new ≡ (client, number) ∷ self.old }
    {
        let Ok(()) = self.pairs.insert(0, (client, number)) else {
            unreachable!();
        };
    }

    /// Whether a client may hold one number more: it is at most 16, and holds fewer than 64.
    pub fn can_hold(&self, client: u32) -> bool
        ensures { IsTrue result ↔ (client ≤ 16 × holds_of client self.now < 64) }
    {
        client <= CLIENTS && count_of(&self.pairs, client) < MOST
    }

    /// Releases a number that the client holds, once. One that it doesn't hold changes nothing.
    pub fn release(&mut self, client: u32, number: Number)
        ensures { self.new ≡ held_without (client, number) self.old }
    {
        if let Some(place) = place_of(&self.pairs, client, number) {
            self.pairs.remove(place);
        }
    }

    /// The least of the held numbers and `last`.
    pub fn floor(&self, last: Number) -> Number
        ensures { result ≡ floor_of self.now last }
    {
        let mut floor = last;
        for pair in &self.pairs {
            floor = least(floor, pair.1);
        }
        floor
    }

    /// The first held pair by client, then by number. None comes exactly where nothing is held.
    pub fn first(&self) -> Option<(u32, Number)>
        ensures first { IfSome result (λ pair. IsFirstHeld pair self.now) }
        ensures none { IfNone result (self.now ≡ []) }
    {
        let (head, rest) = self.pairs.split_first()?;
        let mut first = *head;
        for pair in rest {
            first = earlier(first, *pair);
        }
        Some(first)
    }
}

/// The place of the first pair of this client and number.
fn place_of(pairs: &[(u32, Number)], client: u32, number: Number) -> Option<usize>
    ensures { result ≡ position (is_pair (client, number)) pairs.now }
{
    pairs
        .iter()
        .position(|pair| client == pair.0 && number == pair.1)
}

/// How many of the pairs are the client's.
fn count_of(pairs: &[(u32, Number)], client: u32) -> usize
    ensures { result ≡ holds_of client pairs.now }
{
    let mut count = 0;
    for pair in pairs {
        if pair.0 == client {
            count += 1;
        }
    }
    count
}

/// The lesser of two numbers.
fn least(a: Number, b: Number) -> Number
    ensures { result ≡ min b a }
{
    if b.packed() < a.packed() { b } else { a }
}

/// The pair that comes first by client, then by number.
fn earlier(a: (u32, Number), b: (u32, Number)) -> (u32, Number)
    ensures { result ≡ earlier a b }
{
    if b.0 < a.0 || b.0 == a.0 && b.1.packed() < a.1.packed() {
        b
    } else {
        a
    }
}
