//! Where files of tables end.

ghost use Rattle.std.specs.Prelude.{◌≡◌, ◌≤◌, ◌+◌, ◌-◌, ◌*◌, ℕ, length, min, nat_lt, IsTrue, IfOk, IfErr, Err};
ghost use Rattle.disk_model.specs.Ports.{ReadsAtMost};
ghost use Rattle.table_file.specs.declared.table_fault.TableFault.TheVariants.{Fault};

use crate::table_fault::TableFault;
use disk_model::Port;

/// Whether the table's file has a byte at a place.
fn has_byte<P: Port>(port: &mut P, file: &P::File, at: u64) -> Result<bool, TableFault>
    ensures there { IfOk result
        (λ there. IsTrue P.File.tells → there ≡ nat_lt at (length (P.File.bytes file.now))) }
    ensures fault { IfErr result (λ why. why ≡ Fault) }
    ensures port { ReadsAtMost P.Port 1 port.old port.new (result ≡ Err Fault) }
{
    let mut byte = [0u8; 1];
    match port.read(file, at, &mut byte) {
        Ok(count) => Ok(count == 1),
        Err(_) => Err(TableFault::Fault),
    }
}

/// The half of a range in which the file ends, if it ends in the range or behind it.
fn half_of<P: Port>(
    port: &mut P,
    file: &P::File,
    low: u64,
    high: u64,
) -> Result<(u64, u64), TableFault>
    requires { low ≤ high }
    ensures within { IfOk result (λ half. (half.0 ≤ half.1) × (half.1 ≤ high)) }
    ensures half { IfOk result (λ half. 2 * (half.1 - half.0) ≤ high - low) }
    ensures end { IfOk result (λ half. IsTrue P.File.tells → (most : ℕ) → high ≤ most
        → low ≤ min (length (P.File.bytes file.now)) most
        → min (length (P.File.bytes file.now)) most ≤ high
        → (half.0 ≤ min (length (P.File.bytes file.now)) most)
        × (min (length (P.File.bytes file.now)) most ≤ half.1)) }
    ensures fault { IfErr result (λ why. why ≡ Fault) }
    ensures port { ReadsAtMost P.Port 1 port.old port.new (result ≡ Err Fault) }
{
    if low == high {
        return Ok((low, high));
    }
    let middle = low + (high - low) / 2;
    match has_byte(port, file, middle) {
        Ok(true) => Ok((middle + 1, high)),
        Ok(false) => Ok((low, middle)),
        Err(why) => Err(why),
    }
}

/// The length of the table's file in bytes, or `most`, if it is longer. It halves the range in which
/// the file may end, so it makes 64 reads at most.
pub(crate) fn end_within<P: Port>(
    port: &mut P,
    file: &P::File,
    most: u64,
) -> Result<u64, TableFault>
    ensures end { IfOk result
        (λ end. IsTrue P.File.tells → end ≡ min (length (P.File.bytes file.now)) most) }
    ensures within { IfOk result (λ end. end ≤ most) }
    ensures fault { IfErr result (λ why. why ≡ Fault) }
    ensures port { ReadsAtMost P.Port 64 port.old port.new (result ≡ Err Fault) }
{
    let mut low = 0u64;
    let mut high = most;
    for _ in 0..64u32 {
        let half = match half_of(port, file, low, high) {
            Ok(half) => half,
            Err(why) => return Err(why),
        };
        low = half.0;
        high = half.1;
    }
    Ok(low)
}
