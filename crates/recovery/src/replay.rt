ghost use Rattle.std.specs.Prelude.{◌≡◌, ◌⊎◌, ◌++◌, ◌∷◌, [], ◌<◌, ◌+◌, ◌-◌, ◌^◌, ℕ, List, length, OnOk, IfErr};
ghost use Rattle.peb_base.specs.declared.op.Op.{Op};
ghost use Rattle.peb_base.specs.Batches.{Batches, numbered};
ghost use Rattle.peb_base.specs.Map.{apply_entries};
ghost use Rattle.peb_base.specs.Numbers.{session_of};
ghost use Rattle.record_log.specs.Records.{bodies_of, views};
ghost use Rattle.store_layout.specs.Logs.{record_of, IsBatchIn, AreRecords};

use crate::replay_fault::ReplayFault;
use flsm_core::CurrentMap;
use peb_base::{Batch, Memory, Number, Op};
use record_log::{BatchRecordFault, Record, one_batch, read_batch};
use std::alloc::Global;

/// The map of the batches that were read so far, and their last number.
#[derive(Drop)]
pub struct Replay {
    pub current: CurrentMap,
    pub last: Number,
}

/// Applies operations in their order.
fn apply_all(current: &mut CurrentMap, ops: Vec<Op>) -> Result<(), Memory>
    ensures { OnOk result ((first : ℕ)
        → current.new ≡ apply_entries (numbered first ops.items) current.old) }
{
    for op in ops {
        current.apply(op)?;
    }
    Ok(())
}

/// The number of the last operation of a batch.
fn last_of(first: Number, batch: &Batch) -> Number
    requires some { 0 < length batch.now }
    requires within { first + length batch.now - 1 < 2 ^ 63 }
    ensures { result ≡ first + length batch.now - 1 }
{
    Number::of_packed(first.packed() + (batch.ops().len() as u64 - 1))
}

impl Replay {
    ghost use Rattle.recovery.specs.Opening.{IsReplayOf, CantGoOn, StopsAt, OnDamage};

    /// Nothing was read.
    pub fn new(alloc: Global) -> Replay
        ensures { IsReplayOf result [] }
    {
        Replay {
            current: CurrentMap::new(alloc),
            last: Number::of_packed(0),
        }
    }

    /// Applies the batch of a record of a log of this session. After an error nothing more may be
    /// replayed.
    fn replay_record(
        &mut self,
        alloc: Global,
        session: u64,
        item: &Record,
    ) -> Result<(), ReplayFault>
        ensures ok { OnOk result ((batches : Batches) → IsReplayOf self.old batches
            → (b : ℕ × List Op) × IsBatchIn session b × (item.now.body.items ≡ record_of b)
            × IsReplayOf self.new (batches ++ b ∷ [])) }
        ensures here { OnOk result (session_of self.new.last ≡ session) }
        ensures damaged { IfErr result (λ fault. OnDamage fault (λ at. (at ≡ item.now.gate)
            × ((batches : Batches) → IsReplayOf self.old batches
            → CantGoOn session batches (item.now.body.items ∷ [])))) }
    {
        one_batch();
        let (first, batch) = match read_batch(alloc, &item.body) {
            Ok(found) => found,
            Err(BatchRecordFault::Form) => return Err(ReplayFault::Damaged { at: item.gate }),
            Err(BatchRecordFault::Memory) => return Err(ReplayFault::Memory),
        };
        if first.session() as u64 != session {
            return Err(ReplayFault::Damaged { at: item.gate });
        }
        if first.packed() <= self.last.packed() {
            return Err(ReplayFault::Damaged { at: item.gate });
        }
        let last = last_of(first, &batch);
        let Ok(()) = apply_all(&mut self.current, batch.into_ops()) else {
            return Err(ReplayFault::Memory);
        };
        self.last = last;
        Ok(())
    }

    /// Applies the records of a log of this session, in their order. After an error nothing more
    /// may be replayed.
    pub fn replay_records(
        &mut self,
        alloc: Global,
        session: u64,
        items: &[Record],
    ) -> Result<(), ReplayFault>
        ensures ok { OnOk result ((batches : Batches) → IsReplayOf self.old batches
            → (own : Batches) × AreRecords session (bodies_of items.now) own
            × IsReplayOf self.new (batches ++ own)) }
        ensures here { OnOk result ((self.new.last ≡ self.old.last)
            ⊎ (session_of self.new.last ≡ session)) }
        ensures damaged { IfErr result (λ fault. OnDamage fault (λ at. (batches : Batches)
            → IsReplayOf self.old batches → StopsAt session batches (views items.now) at)) }
    {
        one_batch();
        for item in items {
            match self.replay_record(alloc, session, item) {
                Ok(()) => {}
                Err(fault) => return Err(fault),
            }
        }
        Ok(())
    }
}
