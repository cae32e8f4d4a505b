ghost use Rattle.std.specs.Prelude.{◌≡◌, ◌≤◌, ℕ, List, IfOk, IsErrOf};
ghost use Rattle.disk_model.specs.Images.{Rose};
ghost use Rattle.pebbles_cli.specs.Read.{IsWhole, IsWithin, HasMore};
ghost use Rattle.pebbles_cli.specs.declared.read_fault.ReadFault.TheVariants as faults;

use crate::read_fault::ReadFault;
use disk_model::Scripts;
use std::alloc::Global;

/// The most bytes that a script has.
pub const LONGEST_SCRIPT: usize = 16_777_216;

/// Reads all bytes of a script, at least one a turn.
///
/// `TooLong` comes exactly where the script has more than 16,777,216 bytes; it stops once they were
/// read. `Source` comes only where the source's count of faults rose.
pub fn read_script<S: Scripts>(
    alloc: Global,
    scripts: &mut S,
    name: &str,
) -> Result<Vec<u8>, ReadFault>
    ensures whole { IfOk result (λ v. IsWhole (S.text scripts.old name.now) v.items) }
    ensures within { IfOk result (λ v. IsWithin (S.text scripts.old name.now) 16777216) }
    ensures long { IsErrOf result faults.TooLong → HasMore (S.text scripts.old name.now) 16777216 }
    ensures same { (other : List ℕ) → S.text scripts.new other ≡ S.text scripts.old other }
    ensures later { S.faults scripts.old ≤ S.faults scripts.new }
    ensures cause { IsErrOf result faults.Source
        → Rose (S.faults scripts.old) (S.faults scripts.new) }
{
    let mut bytes = Vec::new(alloc);
    let mut piece = [0; 4096];
    'pieces: while bytes.len() <= LONGEST_SCRIPT {
        let Ok(got) = scripts.fetch(name, bytes.len() as u64, &mut piece) else {
            return Err(ReadFault::Source);
        };
        if got == 0 {
            return Ok(bytes);
        }
        if bytes.extend_from_slice(&piece[..got]).is_err() {
            return Err(ReadFault::Memory);
        }
    }
    Err(ReadFault::TooLong)
}
