//! Looking an entry up without a cursor.

ghost use Rattle.std.specs.Prelude.{◌≡◌, ◌<◌, ◌≤◌, IsTrue, IsOk, IfOk, IfSome, Err, List, length, option_map};
ghost use Rattle.peb_base.specs.Cursors.{IfDamage};
ghost use Rattle.peb_base.specs.EntryRefs.{entry_of};
ghost use Rattle.peb_base.specs.declared.entry.Entry.{Entry};
ghost use Rattle.peb_base.specs.declared.read_fault.ReadFault.TheVariants as faults;
ghost use Rattle.block_form.specs.Form.{IsBlock};
ghost use Rattle.disk_model.specs.Ports.{ReadsAtMost};
ghost use Rattle.table_file.specs.Items.{index_for};
ghost use Rattle.table_file.specs.Tables.{Holds};
ghost use Rattle.table_cursor.specs.Agreeing.{IsDamageAt};
ghost use Rattle.table_cursor.specs.Looking.{newest_of, Finds, IsFound, IsLookedUp};

use crate::fetching::fetch;
use block_form::{Block, one_block};
use block_pool::Loan;
use disk_model::Port;
use peb_base::{EntryRef, KeyBuf, Number, ReadFault};
use table_file::{Table, law_blocks};

/// The newest entry of a key at or below a number in the bytes of a block that was read, so
/// many entries. Its key is put together in `key_out`.
pub fn look_in<'k>(
    bytes: &'k [u8],
    count: usize,
    key: &[u8],
    number: Number,
    key_out: &'k mut KeyBuf,
) -> Option<EntryRef<'k>>
    requires { (es : List Entry) × IsBlock es bytes.now × (length es ≡ count) }
    ensures { (es : List Entry) → IsBlock es bytes.now
        → option_map entry_of result ≡ newest_of key.now number es }
{
    one_block();
    let block = Block::again(bytes, count);
    let (place, spot) = block.seek(key, number, key_out);
    if place >= block.len() {
        return None;
    }
    let entry = spot.entry(place, bytes, key_out.bytes());
    if entry.key != key {
        return None;
    }
    Some(entry)
}

/// The newest entry of a key at or below a number in a table, with one read at
/// most, into a loan. It takes no memory.
///
/// `Damaged` comes only where no bytes of a block that agrees with the table's index
/// and row stand at the place that it tells.
pub fn look_up<'k, P: Port>(
    table: &Table<P::File>,
    port: &mut P,
    loan: &'k mut Loan,
    key: &[u8],
    number: Number,
    key_out: &'k mut KeyBuf,
) -> Result<Option<EntryRef<'k>>, ReadFault>
    // what it gives
    ensures told { (es : List Entry) → IsTrue P.File.tells → Holds P.File.TableHandle table.now es
        → Finds (newest_of key.now number es) result }
    ensures answers { IfOk result (λ found.
        IsLookedUp P.File.TableHandle table.now key.now number (option_map entry_of found)) }
    ensures own { IfOk result
        (λ found. IfSome found
        (λ e. IsFound P.File.TableHandle table.now key.now number (entry_of e))) }
    // what it leaves
    ensures beyond { length table.now.items ≤ index_for key.now number table.now.items
        → IsOk result × (port.new ≡ port.old) }
    // when it fails
    ensures damage { IfDamage result
        (IsDamageAt P.File.TableHandle table.now (index_for key.now number table.now.items)) }
    ensures sure { P.steady port.old → result ≡ Err faults.Fault → ⊥ }
    // what stays
    ensures port { ReadsAtMost P.Port 1 port.old port.new (result ≡ Err faults.Fault) }
{
    law_blocks();
    one_block();
    let index = table.block_index(key, number);
    if index >= table.blocks() {
        return Ok(None);
    }
    let count = match fetch(table, port, index, loan, key_out) {
        Ok(count) => count,
        Err(fault) => return Err(fault),
    };
    let (_, len, _, _) = table.item(index);
    Ok(look_in(&loan.bytes()[..len as usize], count, key, number, key_out))
}
