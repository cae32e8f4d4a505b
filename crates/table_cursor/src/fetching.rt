//! Reading a table's blocks.

ghost use Rattle.std.specs.Prelude.{◌≡◌, ◌≤◌, ◌<◌, ◌+◌, IsTrue, IsOk, IfOk, Err, length, take, drop};
ghost use Rattle.disk_model.specs.Images.{HasCause};
ghost use Rattle.peb_base.specs.Cursors.{IfDamage};
ghost use Rattle.disk_model.specs.Ports.{ReadsAtMost};
ghost use Rattle.table_cursor.specs.Agreeing.{IsDamageAt};
ghost use Rattle.table_cursor.specs.Fetching.{Fetched};
ghost use Rattle.peb_base.specs.declared.read_fault.ReadFault.TheVariants as faults;

use crate::agreeing::count_at;
use block_pool::Loan;
use disk_model::{Failed, Port};
use peb_base::{KeyBuf, ReadFault};
use table_file::Table;

/// Reads so many bytes of a table, from a place on, into the front of a room.
fn read_front<P: Port>(
    port: &mut P,
    file: &P::File,
    at: u64,
    len: usize,
    room: &mut [u8],
) -> Result<usize, Failed>
    requires { len ≤ length room.old }
    ensures count { IfOk result (λ n. n ≤ len) }
    ensures read { IfOk result
        (λ n. IsTrue P.File.tells → take n room.new ≡ take len (drop at (P.File.bytes file.now))) }
    ensures files { P.table_files port.new ≡ P.table_files port.old }
    ensures no_fewer { P.reads port.old ≤ P.reads port.new }
    ensures once { P.reads port.new ≤ P.reads port.old + 1 }
    ensures steady { P.steady port.old → IsOk result × P.steady port.new }
    ensures cause { HasCause (P.faults port.old) (P.faults port.new) result }
{
    port.read(file, at, &mut room[..len])
}

/// Reads so many bytes of a table, from a place on, into the front of a loan.
fn read_into<P: Port>(
    port: &mut P,
    file: &P::File,
    at: u64,
    len: usize,
    loan: &mut Loan,
) -> Result<usize, Failed>
    requires { len ≤ 40960 }
    ensures count { IfOk result (λ n. n ≤ len) }
    ensures read { IfOk result
        (λ n. IsTrue P.File.tells → take n loan.new ≡ take len (drop at (P.File.bytes file.now))) }
    ensures files { P.table_files port.new ≡ P.table_files port.old }
    ensures no_fewer { P.reads port.old ≤ P.reads port.new }
    ensures once { P.reads port.new ≤ P.reads port.old + 1 }
    ensures steady { P.steady port.old → IsOk result × P.steady port.new }
    ensures cause { HasCause (P.faults port.old) (P.faults port.new) result }
{
    read_front(port, file, at, len, loan.bytes_mut())
}

/// Reads the block at an index of a table into a loan, and gives the number
/// of its entries. It needs room for a key.
pub fn fetch<P: Port>(
    table: &Table<P::File>,
    port: &mut P,
    index: usize,
    loan: &mut Loan,
    room: &mut KeyBuf,
) -> Result<usize, ReadFault>
    requires { index < length table.now.items }
    ensures fetched { IfOk result
        (λ count. Fetched P.File.TableHandle table.now index count loan.new) }
    ensures damaged { IfDamage result (IsDamageAt P.File.TableHandle table.now index) }
    ensures port { ReadsAtMost P.Port 1 port.old port.new (result ≡ Err faults.Fault) }
    ensures sure { P.steady port.old → result ≡ Err faults.Fault → ⊥ }
{
    let (at, len, _, _) = table.item(index);
    let len = len as usize;
    let damaged = ReadFault::Damaged {
        table: table.row().number,
        at,
    };
    let read = match read_into(port, table.file(), at, len, loan) {
        Ok(read) => read,
        Err(_) => return Err(ReadFault::Fault),
    };
    if read != len {
        return Err(damaged);
    }
    match count_at(table, index, &loan.bytes()[..len], room) {
        Some(count) => Ok(count),
        None => Err(damaged),
    }
}
