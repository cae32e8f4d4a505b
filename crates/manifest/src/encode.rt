//! Fields as they are written.

ghost use Rattle.std.specs.Prelude.{◌≡◌, ◌≤◌, ◌+◌, ◌-◌, ◌^◌, ◌++◌, List, ℕ, length, min, OnOk};
ghost use Rattle.manifest.specs.Fields.{IsWord, word_bytes, IsNumber, IsByte, byte_bytes, flag_bytes, IsKey, key_bytes, IsList, list_bytes, IsRow, row_bytes, IsChosen, chosen_bytes};

use flsm_model::Chosen;
use peb_base::{Key, List, Number, TableRow};
use std::alloc::AllocError;

/// A value that is written in its one spelling.
pub trait Encode {
    /// The bytes of its spelling.
    ghost spelling: { Self → List ℕ };

    /// It is within its bounds.
    ghost fits: { Self → Type 0 };

    /// How many bytes its spelling has; the number stops at its type's end. A value whose spelling
    /// has at most 2,147,483,648 bytes is within its bounds.
    fn length(&self) -> u64
        ensures length { result ≡ min (length (spelling self.now)) (2 ^ 64 - 1) }
        ensures some { 1 ≤ result }
        ensures fits { result ≤ 2 ^ 31 → fits self.now };

    /// Adds its spelling.
    fn encode(&self, bytes: &mut Vec<u8>) -> Result<(), AllocError>
        ensures { OnOk result (bytes.new.items ≡ bytes.old.items ++ spelling self.now) };
}

impl Encode for u8 {
    ghost spelling = { byte_bytes };

    ghost fits = { IsByte };

    fn length(&self) -> u64 {
        let _byte = *self;
        1
    }

    fn encode(&self, bytes: &mut Vec<u8>) -> Result<(), AllocError> {
        bytes.push(*self)?;
        Ok(())
    }
}

impl Encode for u64 {
    ghost spelling = { word_bytes };

    ghost fits = { IsWord };

    fn length(&self) -> u64 {
        let _word = *self;
        8
    }

    fn encode(&self, bytes: &mut Vec<u8>) -> Result<(), AllocError> {
        bytes.extend_from_slice(&self.to_be_bytes())
    }
}

impl Encode for Number {
    ghost spelling = { word_bytes };

    ghost fits = { IsNumber };

    fn length(&self) -> u64 {
        let _packed = self.packed();
        8
    }

    fn encode(&self, bytes: &mut Vec<u8>) -> Result<(), AllocError> {
        bytes.extend_from_slice(&self.packed().to_be_bytes())
    }
}

impl Encode for bool {
    ghost spelling = { flag_bytes };

    ghost fits = { λ b. Unit {0} };

    fn length(&self) -> u64 {
        1
    }

    fn encode(&self, bytes: &mut Vec<u8>) -> Result<(), AllocError> {
        let byte = if *self { 1 } else { 0 };
        bytes.push(byte)?;
        Ok(())
    }
}

fn key_length(key: &Key) -> u64
    ensures length { result ≡ 2 + length key.now }
    ensures key { IsKey key.now }
{
    2 + key.bytes().len() as u64
}

impl Encode for Key {
    ghost spelling = { key_bytes };

    ghost fits = { IsKey };

    fn length(&self) -> u64 {
        key_length(self)
    }

    fn encode(&self, bytes: &mut Vec<u8>) -> Result<(), AllocError> {
        let key = self.bytes();
        bytes.extend_from_slice(&(key.len() as u16).to_be_bytes())?;
        bytes.extend_from_slice(key)
    }
}

impl<X: Encode> Encode for List<X> {
    ghost spelling = { list_bytes X.spelling };

    ghost fits = { IsList X.fits };

    fn length(&self) -> u64 {
        let mut length: u64 = 4;
        for item in self.items() {
            length = length.saturating_add(item.length());
        }
        length
    }

    fn encode(&self, bytes: &mut Vec<u8>) -> Result<(), AllocError> {
        let items = self.items();
        // The low four bytes: a longer list passes every limit, and isn't written.
        let count = (items.len() as u64).to_be_bytes();
        bytes.extend_from_slice(&count[4..])?;
        for item in items {
            item.encode(bytes)?;
        }
        Ok(())
    }
}

impl Encode for Chosen {
    ghost spelling = { chosen_bytes };

    ghost fits = { IsChosen };

    fn length(&self) -> u64 {
        key_length(&self.key) + self.level.length()
    }

    fn encode(&self, bytes: &mut Vec<u8>) -> Result<(), AllocError> {
        self.key.encode(bytes)?;
        self.level.encode(bytes)
    }
}

impl Encode for TableRow {
    ghost spelling = { row_bytes };

    ghost fits = { IsRow };

    fn length(&self) -> u64 {
        let words = self.number.length() + self.entries.length() + self.raw.length();
        let words = words + self.first.length() + self.last.length() + self.bytes.length();
        let keys = key_length(&self.smallest) + key_length(&self.largest);
        words + keys + self.level.length() + self.tier.length()
    }

    fn encode(&self, bytes: &mut Vec<u8>) -> Result<(), AllocError> {
        self.number.encode(bytes)?;
        self.level.encode(bytes)?;
        self.tier.encode(bytes)?;
        self.smallest.encode(bytes)?;
        self.largest.encode(bytes)?;
        self.entries.encode(bytes)?;
        self.raw.encode(bytes)?;
        self.first.encode(bytes)?;
        self.last.encode(bytes)?;
        self.bytes.encode(bytes)
    }
}
