//! Which keys a flush chooses.

ghost use Rattle.std.specs.Prelude.{◌≡◌, ◌∷◌, List, reverse, IfOk, OnOk};
ghost use Rattle.flsm_model.specs.Choices.{choices, put_keys};
ghost use Rattle.peb_base.specs.Entries.{AscendFrom};
ghost use Rattle.peb_base.specs.EntryRefs.{entry_of};
ghost use Rattle.peb_base.specs.Profiles.{column};
ghost use Rattle.peb_base.specs.declared.entry.Entry.{Entry};
ghost use Rattle.compactor.specs.Choosing.{starts_with};

use flsm_model::Chosen;
use mem_table::MemView;
use peb_base::{ChangeRef, Cursor, EntryRef, Key, Memory, Options, level_of};
use std::alloc::Global;

/// Whether the key was chosen last.
fn is_last(chosen: &[Chosen], key: &[u8]) -> bool
    ensures { result ≡ starts_with key.now (reverse chosen.now) }
{
    let len = chosen.len();
    len > 0 && chosen[len - 1].key.bytes() == key
}

/// Adds the key of an entry, if it is chosen, to those of the entries behind it, which stand the
/// last first.
fn add_key(
    alloc: Global,
    entry: &EntryRef<'_>,
    options: &Options,
    chosen: &mut Vec<Chosen>,
) -> Result<(), Memory>
    ensures { OnOk result ((es : List Entry)
        → AscendFrom entry.now.key.now entry.now.number es
        → reverse chosen.old.items ≡ choices (column options.now.profile) (put_keys es)
        → reverse chosen.new.items
        ≡ choices (column options.now.profile) (put_keys (entry_of entry.now ∷ es))) }
{
    let ChangeRef::Put(_) = entry.change else {
        return Ok(());
    };
    let Some(level) = level_of(options, entry.key) else {
        return Ok(());
    };
    if is_last(chosen, entry.key) {
        return Ok(());
    }
    let key = Key::new(alloc, entry.key).map_err(|_| Memory)?;
    chosen.push(Chosen { key, level })?;
    Ok(())
}

/// The keys of puts among the entries of a view that have a level, each with the shallowest one,
/// ascending and each once.
///
/// It walks back from the last entry, so that of a key's entries it meets the oldest first, and a
/// key is chosen already exactly where it was chosen last.
pub fn choose(alloc: Global, view: &MemView, options: &Options) -> Result<Vec<Chosen>, Memory>
    ensures { IfOk result (λ chosen. chosen.items
        ≡ choices (column options.now.profile) (put_keys view.now)) }
{
    let mut cursor = view.cursor()?;
    let mut chosen = Vec::new(alloc);
    let Ok(()) = cursor.last() else {
        unreachable!()
    };
    'back: while let Some(entry) = cursor.at() {
        add_key(alloc, &entry, options, &mut chosen)?;
        let Ok(()) = cursor.prev() else {
            unreachable!()
        };
    }
    chosen.reverse();
    Ok(chosen)
}
