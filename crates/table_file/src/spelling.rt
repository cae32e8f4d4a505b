//! The bytes of an index.

ghost use Rattle.std.specs.Prelude.{◌≡◌, ◌<◌, ◌++◌, ◌^◌, length, IfOk, OnOk};
ghost use Rattle.table_file.specs.Form.{item_bytes, index_bytes};

use crate::index_item::IndexItem;
use std::alloc::{AllocError, Global};

fn put_item(bytes: &mut Vec<u8>, item: &IndexItem) -> Result<(), AllocError>
    ensures { OnOk result (bytes.new.items ≡ bytes.old.items ++ item_bytes item.now) }
{
    let key = item.key.bytes();
    bytes.extend_from_slice(&item.place.to_be_bytes())?;
    bytes.extend_from_slice(&item.len.to_be_bytes())?;
    bytes.extend_from_slice(&(key.len() as u16).to_be_bytes())?;
    bytes.extend_from_slice(key)?;
    bytes.extend_from_slice(&item.number.packed().to_be_bytes())?;
    Ok(())
}

/// The index of these items, as a table has it.
pub fn index_text(alloc: Global, items: &[IndexItem]) -> Result<Vec<u8>, AllocError>
    requires { length items.now < 2 ^ 32 }
    ensures { IfOk result (λ bytes. bytes.items ≡ index_bytes items.now) }
{
    let mut bytes = Vec::new(alloc);
    bytes.extend_from_slice(&(items.len() as u32).to_be_bytes())?;
    for item in items {
        put_item(&mut bytes, item)?;
    }
    Ok(bytes)
}
