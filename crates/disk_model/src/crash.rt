// What a crash leaves of a journal in memory, by its calls and a pick.
ghost use Rattle.std.specs.Prelude.{◌≡◌, ◌∷◌, ◌≤◌, List, length, reverse, IfOk, IfSome, IsSomeAnd, IsNone, OnOk, None, Some};
ghost use Rattle.disk_model.specs.declared.journal_file.JournalFile.{JournalFile};
ghost use Rattle.disk_model.specs.declared.call.Call.{Call};
ghost use Rattle.disk_model.specs.declared.pick.Pick.TheVariants.{Old, New};
ghost use Rattle.disk_model.specs.Files.{image_of, changed};
ghost use Rattle.disk_model.specs.Images.{Image, content, over, Tears, In};
ghost use Rattle.disk_model.specs.Past.{read_after, read_then, kept_after, IsWithin, AreCalls, IsLeft};
ghost use Rattle.disk_model.specs.Crashes.{IsTaken};

use crate::call::Call;
use crate::draws::Draws;
use crate::files::{copy_bytes, copy_of, get, put, write_over};
use crate::stored::Stored;
use crate::{JournalFile, Pick};
use std::alloc::{AllocError, Global};

/// What is left of a write, or `None` where it is lost.
fn part_of(
    alloc: Global,
    pick: Pick,
    draws: &mut Draws,
    bytes: &[u8],
) -> Result<Option<Vec<u8>>, AllocError>
    ensures part { IfOk result (λ left. IfSome left (λ part.
        length part.items ≤ length bytes.now)) }
    ensures new { pick ≡ New →
        IfOk result (λ left. IsSomeAnd left (λ part. part.items ≡ bytes.now)) }
    ensures old { pick ≡ Old → IfOk result (λ left. IsNone left) }
{
    match pick {
        Pick::Old => Ok(None),
        Pick::New => Ok(Some(bytes.to_vec(alloc)?)),
        Pick::Seeded(_) => draws.torn(alloc, bytes),
    }
}

fn length_of(files: &[Stored], file: JournalFile) -> u64
    ensures { result ≡ length (content (image_of files.now file)) }
{
    match get(files, file) {
        Some(bytes) => bytes.len() as u64,
        None => 0,
    }
}

/// A write as the crash leaves it. One behind the end of what is left can only be lost.
fn leave_write(
    alloc: Global,
    pick: Pick,
    draws: &mut Draws,
    left: &mut Vec<Stored>,
    file: JournalFile,
    at: u64,
    bytes: &[u8],
) -> Result<(), AllocError>
    ensures torn { OnOk result (In file (Tears at (length bytes.now)) (image_of left.old.items)
        (image_of left.new.items)) }
    ensures new { pick ≡ New → at ≤ length (content (image_of left.old.items file)) →
        OnOk result (image_of left.new.items
        ≡ changed file (Some (over (content (image_of left.old.items file)) at bytes.now))
        (image_of left.old.items)) }
    ensures old { pick ≡ Old → OnOk result (image_of left.new.items ≡ image_of left.old.items) }
{
    let Some(part) = part_of(alloc, pick, draws, bytes)? else {
        return Ok(());
    };
    if length_of(left, file) < at {
        return Ok(());
    }
    write_over(alloc, left, file, at as usize, &part)
}

/// A file as the sync left it: as reads gave it.
fn leave_sync(
    alloc: Global,
    read: &[Stored],
    left: &mut Vec<Stored>,
    file: JournalFile,
) -> Result<(), AllocError>
    ensures { OnOk result (image_of left.new.items
        ≡ changed file (image_of read.now file) (image_of left.old.items)) }
{
    put(left, file, copy_bytes(alloc, get(read, file))?)
}

/// One call more: what reads give after it, and what is left of the files.
fn leave_call(
    alloc: Global,
    pick: Pick,
    draws: &mut Draws,
    read: &mut Vec<Stored>,
    left: &mut Vec<Stored>,
    call: &Call,
) -> Result<(), AllocError>
    requires { IsWithin call.now (image_of read.old.items) }
    ensures { OnOk result ((first : Image) (calls : List Call) →
        IsTaken pick first calls (image_of read.old.items) (image_of left.old.items) →
        IsTaken pick first (call.now ∷ calls) (image_of read.new.items) (image_of left.new.items)) }
{
    match call {
        Call::Write(file, at, bytes) => {
            leave_write(alloc, pick, draws, left, *file, *at, bytes)?;
            write_over(alloc, read, *file, *at as usize, bytes)
        }
        Call::Sync(file) => leave_sync(alloc, read, left, *file),
        Call::Remove(file) => {
            put(left, *file, None)?;
            put(read, *file, None)
        }
    }
}

/// What a crash leaves of these files after these calls.
pub fn leave(
    alloc: Global,
    pick: Pick,
    first: Vec<Stored>,
    calls: &[Call],
) -> Result<Vec<Stored>, AllocError>
    requires { AreCalls (image_of first.items) (reverse calls.now) }
    ensures left { IfOk result (λ left.
        IsLeft (image_of first.items) (reverse calls.now) (image_of left.items)) }
    ensures new { pick ≡ New →
        IfOk result (λ left. image_of left.items
        ≡ read_after (image_of first.items) (reverse calls.now)) }
    ensures old { pick ≡ Old →
        IfOk result (λ left. image_of left.items
        ≡ kept_after (image_of first.items) (reverse calls.now)) }
{
    let seed = match pick {
        Pick::Seeded(seed) => seed,
        _ => 0,
    };
    let mut draws = Draws::new(seed);
    let mut read = copy_of(alloc, &first)?;
    let mut left = first;
    for call in calls {
        leave_call(alloc, pick, &mut draws, &mut read, &mut left, call)?;
    }
    Ok(left)
}
