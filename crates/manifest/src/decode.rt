//! Fields as they are read.

ghost use Rattle.std.specs.Prelude.{◌≡◌, ◌≢◌, ◌<◌, ◌^◌, ◌++◌, List, ℕ, IfOk, IsErrOf};
ghost use Rattle.byteorder.specs.Endian.{big_bytes};
ghost use Rattle.manifest.specs.Fields.{AreApart, IsWord, word_bytes, IsNumber, IsByte, byte_bytes, flag_bytes, IsKey, key_bytes, IsList, list_bytes, IsRow, row_bytes, IsChosen, chosen_bytes, AreBoth, pair_bytes};
ghost use Rattle.manifest.specs.FieldLaws.{words_apart, places_apart, counts_apart, bytes_apart, flags_apart, keys_apart, lists_apart, pairs_apart, rows_apart, chosen_apart};

use crate::edit_fault::EditFault;
use byteorder::{BigEndian, ByteOrder};
use flsm_model::Chosen;
use peb_base::{Key, List, Number, TableRow};
use record_log::counted_by_two;
use std::alloc::Global;

/// A value that is read from its one spelling.
pub trait Decode: Sized + Drop {
    /// The bytes of its spelling.
    ghost spelling: { Self → List ℕ };

    /// It is within its bounds.
    ghost fits: { Self → Type 0 };

    /// The value at the front, and the bytes behind it.
    ///
    /// `Form` comes exactly where none stands there, and else `Memory`.
    fn decode(alloc: Global, bytes: &[u8]) -> Result<(Self, &[u8]), EditFault>
        ensures fits { IfOk result (λ found. fits found.0) }
        ensures found { IfOk result (λ found. bytes.now ≡ spelling found.0 ++ found.1.now) }
        ensures form { IsErrOf result EditFault.Form → (value : Self) (rest : List ℕ)
            → fits value → bytes.now ≢ spelling value ++ rest };

    /// No spelling begins another.
    ghost apart: { AreApart fits spelling };
}

impl Decode for u8 {
    ghost spelling = { byte_bytes };

    ghost fits = { IsByte };

    ghost apart = { bytes_apart };

    fn decode(_alloc: Global, bytes: &[u8]) -> Result<(u8, &[u8]), EditFault> {
        if bytes.is_empty() {
            return Err(EditFault::Form);
        }
        let (front, rest) = bytes.split_at(1);
        Ok((front[0], rest))
    }
}

impl Decode for u32 {
    ghost spelling = { big_bytes 4 };

    ghost fits = { λ n. n < 2 ^ 32 };

    ghost apart = { counts_apart };

    fn decode(_alloc: Global, bytes: &[u8]) -> Result<(u32, &[u8]), EditFault> {
        if bytes.len() < 4 {
            return Err(EditFault::Form);
        }
        let (front, rest) = bytes.split_at(4);
        Ok((BigEndian::read_u32(front), rest))
    }
}

impl Decode for u64 {
    ghost spelling = { word_bytes };

    ghost fits = { IsWord };

    ghost apart = { words_apart };

    fn decode(_alloc: Global, bytes: &[u8]) -> Result<(u64, &[u8]), EditFault> {
        if bytes.len() < 8 {
            return Err(EditFault::Form);
        }
        let (front, rest) = bytes.split_at(8);
        Ok((BigEndian::read_u64(front), rest))
    }
}

impl Decode for Number {
    ghost spelling = { word_bytes };

    ghost fits = { IsNumber };

    ghost apart = { places_apart };

    fn decode(alloc: Global, bytes: &[u8]) -> Result<(Number, &[u8]), EditFault> {
        let (packed, rest) = u64::decode(alloc, bytes)?;
        if packed >= 1 << 63 {
            return Err(EditFault::Form);
        }
        Ok((Number::of_packed(packed), rest))
    }
}

impl Decode for bool {
    ghost spelling = { flag_bytes };

    ghost fits = { λ b. Unit {0} };

    ghost apart = { flags_apart };

    fn decode(alloc: Global, bytes: &[u8]) -> Result<(bool, &[u8]), EditFault> {
        let (byte, rest) = u8::decode(alloc, bytes)?;
        match byte {
            0 => Ok((false, rest)),
            1 => Ok((true, rest)),
            _ => Err(EditFault::Form),
        }
    }
}

impl Decode for Key {
    ghost spelling = { key_bytes };

    ghost fits = { IsKey };

    ghost apart = { keys_apart };

    fn decode(alloc: Global, bytes: &[u8]) -> Result<(Key, &[u8]), EditFault> {
        let Some((key, rest)) = counted_by_two(bytes) else {
            return Err(EditFault::Form);
        };
        if key.is_empty() || key.len() > Key::LONGEST {
            return Err(EditFault::Form);
        }
        let key = Key::new(alloc, key).map_err(|_| EditFault::Memory)?;
        Ok((key, rest))
    }
}

impl<A: Decode, B: Decode> Decode for (A, B) {
    ghost spelling = { pair_bytes A.spelling B.spelling };

    ghost fits = { AreBoth A.fits B.fits };

    ghost apart = { pairs_apart A.apart B.apart };

    fn decode(alloc: Global, bytes: &[u8]) -> Result<((A, B), &[u8]), EditFault> {
        let (first, rest) = A::decode(alloc, bytes)?;
        let (second, rest) = B::decode(alloc, rest)?;
        Ok(((first, second), rest))
    }
}

impl<X: Decode> Decode for List<X> {
    ghost spelling = { list_bytes X.spelling };

    ghost fits = { IsList X.fits };

    ghost apart = { lists_apart X.apart };

    fn decode(alloc: Global, bytes: &[u8]) -> Result<(List<X>, &[u8]), EditFault> {
        let (count, listed) = u32::decode(alloc, bytes)?;
        let mut items = Vec::new(alloc);
        let mut rest = listed;
        for _ in 0..count {
            let (item, behind) = X::decode(alloc, rest)?;
            items.push(item)?;
            rest = behind;
        }
        Ok((List::of(items), rest))
    }
}

impl Decode for Chosen {
    ghost spelling = { chosen_bytes };

    ghost fits = { IsChosen };

    ghost apart = { chosen_apart };

    fn decode(alloc: Global, bytes: &[u8]) -> Result<(Chosen, &[u8]), EditFault> {
        let (fields, rest) = <(Key, u8)>::decode(alloc, bytes)?;
        let (key, level) = fields;
        Ok((Chosen { key, level }, rest))
    }
}

/// The fields of a row, in their order.
type RowFields = (
    u64,
    (
        u8,
        (u8, (Key, (Key, (u64, (u64, (Number, (Number, u64))))))),
    ),
);

impl Decode for TableRow {
    ghost spelling = { row_bytes };

    ghost fits = { IsRow };

    ghost apart = { rows_apart };

    fn decode(alloc: Global, bytes: &[u8]) -> Result<(TableRow, &[u8]), EditFault> {
        let (fields, rest) = RowFields::decode(alloc, bytes)?;
        let (number, (level, (tier, (smallest, (largest, fields))))) = fields;
        let (entries, (raw, (first, (last, bytes)))) = fields;
        let row = TableRow {
            number,
            level,
            tier,
            smallest,
            largest,
            entries,
            raw,
            first,
            last,
            bytes,
        };
        Ok((row, rest))
    }
}
