//! Reading the index of a table.

ghost use Rattle.std.specs.Prelude.{◌≡◌, ◌≢◌, ◌↔◌, ◌+◌, ◌≤◌, ◌<◌, ◌^◌, List, ℕ, length, IfOk, IfErr, IsErrOf, IsTrue};
ghost use Rattle.table_file.specs.Form.{index_bytes};
ghost use Rattle.table_file.specs.Opening.{IsItem, IsIndex};
ghost use Rattle.table_file.specs.declared.index_item.IndexItem.{IndexItem};

use crate::index_fault::IndexFault;
use crate::index_item::IndexItem;
use crate::item_fields::{ItemFields, item_at};
use byteorder::{BigEndian, ByteOrder};
use peb_base::{Key, KeyBuf, Number, is_before};
use std::alloc::Global;

/// Whether these are an item of a block at this place, which ends here at the
/// latest and comes after this key and number.
fn is_item(place: u64, end: u64, before: &[u8], above: u64, fields: &ItemFields<'_>) -> bool
    requires { place ≤ end }
    ensures item { IsTrue result
        → IsItem place before.now above
        (record {
          place = fields.now.place;
          len = fields.now.len;
          key = fields.now.key.now;
          number =
              fields.now.number;
        }) }
    ensures fits { IsTrue result → place + fields.now.len ≤ end }
    ensures none { IsItem place before.now above
        (record {
          place = fields.now.place;
          len = fields.now.len;
          key = fields.now.key.now;
          number =
              fields.now.number;
        }) → place + fields.now.len ≤ end → IsTrue result }
{
    if fields.place != place {
        return false;
    }
    if fields.len > 40960 || fields.len as u64 > end - place {
        return false;
    }
    if fields.key.is_empty() || fields.key.len() > Key::LONGEST {
        return false;
    }
    if fields.number >= 1 << 63 {
        return false;
    }
    is_before(before, above, fields.key, fields.number)
}

fn item_with(alloc: Global, fields: &ItemFields<'_>) -> Result<IndexItem, IndexFault>
    requires some { 0 < length fields.now.key.now }
    requires short { length fields.now.key.now ≤ 1024 }
    requires number { fields.now.number < 2 ^ 63 }
    ensures item { IfOk result
        (λ item. item
        ≡ record {
          place = fields.now.place;
          len = fields.now.len;
          key =
              fields.now.key.now;
          number = fields.now.number;
        }) }
    ensures memory { IfErr result (λ why. why ≡ IndexFault.Memory) }
{
    let key = Key::new(alloc, fields.key).map_err(|_| IndexFault::Memory)?;
    Ok(IndexItem {
        place: fields.place,
        len: fields.len,
        key,
        number: Number::of_packed(fields.number),
    })
}

/// The items whose index these bytes are, of blocks that end here.
pub fn items_of(alloc: Global, bytes: &[u8], end: u64) -> Result<Vec<IndexItem>, IndexFault>
    requires { length bytes.now ≤ 2147483648 }
    ensures index { IfOk result (λ items. IsIndex end items.items) }
    ensures spelled { IfOk result (λ items. bytes.now ≡ index_bytes items.items) }
    ensures form { IsErrOf result IndexFault.Form → (items : List IndexItem) → IsIndex end items
        → bytes.now ≢ index_bytes items }
{
    if bytes.len() < 4 {
        return Err(IndexFault::Form);
    }
    let count = BigEndian::read_u32(bytes) as usize;
    let mut items = Vec::new(alloc);
    let mut key = KeyBuf::new();
    let mut above: u64 = 0;
    let mut place: u64 = 0;
    let mut rest = &bytes[4..];
    'walk: while !rest.is_empty() {
        let fields = match item_at(rest) {
            Some(fields) => fields,
            None => return Err(IndexFault::Form),
        };
        if !is_item(place, end, key.bytes(), above, &fields) {
            return Err(IndexFault::Form);
        }
        let item = match item_with(alloc, &fields) {
            Ok(item) => item,
            Err(why) => return Err(why),
        };
        items.push(item)?;
        key.put(0, fields.key);
        above = fields.number;
        place += fields.len as u64;
        rest = fields.behind;
    }
    if place != end {
        return Err(IndexFault::Form);
    }
    if items.as_slice().len() != count {
        return Err(IndexFault::Form);
    }
    if count == 0 {
        return Err(IndexFault::Form);
    }
    Ok(items)
}
