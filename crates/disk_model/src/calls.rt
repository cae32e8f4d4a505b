// One call more on a journal in memory: it is kept, and what reads give is brought up to date. An
// `Err` changes neither.
ghost use Rattle.std.specs.Prelude.{◌≡◌, ◌+◌, ◌^◌, ◌<◌, ◌≤◌, ◌++◌, ◌∷◌, [], None, Some, length, OnOk, OnErr};
ghost use Rattle.disk_model.specs.Images.{content, over};
ghost use Rattle.disk_model.specs.Files.{image_of, changed};
ghost use Rattle.disk_model.specs.declared.journal_file.JournalFile.{JournalFile};

use crate::JournalFile;
use crate::call::Call;
use crate::files::{put, write_over};
use crate::stored::Stored;
use std::alloc::{AllocError, Global};

pub fn add_write(
    alloc: Global,
    past: &mut Vec<Call>,
    files: &mut Vec<Stored>,
    file: JournalFile,
    at: u64,
    bytes: &[u8],
) -> Result<(), AllocError>
    requires { at ≤ length (content (image_of files.old.items file)) }
    ensures past { OnOk result ((v : _) × (v.items ≡ bytes.now) × (past.new.items
        ≡ past.old.items ++ Call.Write file at v ∷ [])) }
    ensures files { OnOk result (image_of files.new.items
        ≡ changed file (Some (over (content (image_of files.old.items file)) at bytes.now))
        (image_of files.old.items)) }
    ensures fits { OnOk result (at + length bytes.now < 2 ^ 63) }
    ensures past_err { OnErr result (past.new.items ≡ past.old.items) }
    ensures files_err { OnErr result (image_of files.new.items ≡ image_of files.old.items) }
{
    let copy = bytes.to_vec(alloc)?;
    past.push(Call::Write(file, at, copy))?;
    match write_over(alloc, files, file, at as usize, bytes) {
        Ok(()) => Ok(()),
        Err(error) => {
            let _ = past.pop();
            Err(error)
        }
    }
}

pub fn add_sync(past: &mut Vec<Call>, file: JournalFile) -> Result<(), AllocError>
    ensures ok { OnOk result (past.new.items ≡ past.old.items ++ Call.Sync file ∷ []) }
    ensures err { OnErr result (past.new.items ≡ past.old.items) }
{
    past.push(Call::Sync(file))?;
    Ok(())
}

pub fn add_removal(
    past: &mut Vec<Call>,
    files: &mut Vec<Stored>,
    file: JournalFile,
) -> Result<(), AllocError>
    ensures past { OnOk result (past.new.items ≡ past.old.items ++ Call.Remove file ∷ []) }
    ensures files { OnOk result (image_of files.new.items
        ≡ changed file None (image_of files.old.items)) }
    ensures past_err { OnErr result (past.new.items ≡ past.old.items) }
    ensures files_err { OnErr result (image_of files.new.items ≡ image_of files.old.items) }
{
    past.push(Call::Remove(file))?;
    match put(files, file, None) {
        Ok(()) => Ok(()),
        Err(error) => {
            let _ = past.pop();
            Err(error)
        }
    }
}
