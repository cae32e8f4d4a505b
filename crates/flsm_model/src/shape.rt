//! Shapes.

ghost use Rattle.std.specs.Prelude.{◌≡◌, [], replicate, IfOk};
ghost use Rattle.peb_base.specs.Profiles.{column};
ghost use Rattle.flsm_model.specs.Shape.{empty_shape, guards_at};
ghost use Rattle.flsm_model.specs.Fits.{IsShapeOf};

use crate::chosen::Chosen;
use peb_base::{Key, List, Memory, Options, TableRow};
use std::alloc::Global;

/// What a record of edits leaves, as far as later edits depend on it.
///
/// A shape begins empty. It stays one that a legal record leaves, since `add` takes only edits that
/// fit.
#[derive(Debug, Drop)]
pub struct Shape {
    alloc: Global,
    /// The sizes and counts by which keys may be guards.
    pub options: Options,
    /// The session of the last opening, or 0.
    pub session: u64,
    /// Up to which number entries are flushed, or 0.
    pub to: u64,
    /// The log of the last flush, or 1.
    pub log: u64,
    /// The table numbers of the session.
    pub used: List<u64>,
    /// The candidates for guards.
    pub chosen: List<Chosen>,
    /// The guards of each level from 1 on, ascending.
    pub guards: List<List<Key>>,
    /// The live tables.
    pub live: List<TableRow>,
}

/// So many levels without guards.
#[tactic(auto, using(crate::proofs::lists::Copied::replicate_push))]
fn no_guards(alloc: Global, levels: u8) -> Result<Vec<List<Key>>, Memory>
    ensures { IfOk result (λ guards. guards.items ≡ replicate levels []) }
{
    let mut guards = Vec::new(alloc);
    for _ in 0..levels {
        guards.push(List::of(Vec::new(alloc)))?;
    }
    Ok(guards)
}

impl Shape {
    ghost use Rattle.flsm_model.specs.Fields.{fields_of};

    /// The shape of the empty record.
    pub fn new(alloc: Global, options: &Options) -> Result<Shape, Memory>
        ensures shape { IfOk result (λ shape. fields_of shape ≡ empty_shape (column options.now.profile)) }
        ensures record { IfOk result (λ shape. IsShapeOf (column options.now.profile) (fields_of shape) []) }
        ensures options { IfOk result (λ shape. shape.options ≡ options.now) }
    {
        let guards = no_guards(alloc, options.last_level)?;
        Ok(Shape {
            alloc,
            options: *options,
            session: 0,
            to: 0,
            log: 1,
            used: List::of(Vec::new(alloc)),
            chosen: List::of(Vec::new(alloc)),
            guards: List::of(guards),
            live: List::of(Vec::new(alloc)),
        })
    }

    /// The allocator.
    pub(crate) fn alloc(&self) -> Global {
        self.alloc
    }

    /// The guards of a level, ascending. Level 0 has none.
    pub(crate) fn guards_at(&self, level: usize) -> &[Key]
        ensures { result.now ≡ guards_at (fields_of self.now) level }
    {
        if level == 0 {
            return &[];
        }
        match self.guards.items().get(level - 1) {
            Some(guards) => guards.items(),
            None => &[],
        }
    }
}
