ghost use Rattle.std.specs.Prelude.{◌≡◌, ◌⊎◌, ◌+◌, ◌-◌, ◌*◌, ◌^◌, ◌<◌, ◌≤◌, max, IfSome, IfNone, IfOk, OnOk, OnErr, List, [], ◌∷◌, List, ℕ, length};
ghost use Rattle.peb_base.specs.declared.op.Op.{Op};
ghost use Rattle.peb_base.specs.Numbers.{session_of, count_of};
ghost use Rattle.peb_base.specs.Map.{apply_change};
ghost use Rattle.flsm_core.specs.Place.{put_op};

use crate::commit_fault::CommitFault;
use crate::current_map::CurrentMap;
use crate::parts::Parts;
use crate::store::Store;
use crate::sync_fault::SyncFault;
use disk_model::Journal;
use peb_base::{Batch, Change, Key, LimitKind, Memory, Number, Op, Value};
use record_log::{AddFault, LogFile, write_batch};
use std::alloc::Global;

/// The most numbers of a session.
const MOST_NUMBERS: u64 = (1 << 40) - 1;

/// The most bytes of a log's tail.
const LONGEST_TAIL: u64 = 1 << 31;

/// An open store over the logs of a journal, with the ordered map of all batches in memory.
#[derive(Drop)]
pub struct State<J> {
    alloc: Global,
    journal: J,
    log: LogFile,
    current: CurrentMap,
    session: u32,
    last: Number,
    stopped: bool,
    ghost begun: { 1 ≤ session },
    ghost possible: { session ≤ 8388607 },
    ghost within: { last < session * 2 ^ 40 + 2 ^ 40 },
}

/// The number after `last` in a session, if the session has one.
fn next_number(session: u32, last: Number) -> Option<Number>
    requires possible { session ≤ 8388607 }
    requires within { last < session * 2 ^ 40 + 2 ^ 40 }
    ensures next { IfSome result (λ n. n ≡ max last (session * 2 ^ 40) + 1) }
    ensures here { IfSome result (λ n. session_of n ≡ session) }
    ensures counted { IfSome result (λ n. 1 ≤ count_of n) }
    ensures below { IfSome result (λ n. n < session * 2 ^ 40 + 2 ^ 40) }
    ensures none { IfNone result (session * 2 ^ 40 + 2 ^ 40 ≤ max last (session * 2 ^ 40) + 1) }
{
    if last.session() < session {
        return Some(Number::new(session, 1));
    }
    let count = last.count();
    if count == MOST_NUMBERS {
        return None;
    }
    Some(Number::new(session, count + 1))
}

/// The batch of one put.
fn batch_of_put(alloc: Global, key: Key, value: Value) -> Result<Batch, Memory>
    ensures { IfOk result (λ batch. batch ≡ put_op key value ∷ []) }
{
    let mut batch = Batch::new(alloc);
    let op = Op {
        key,
        change: Change::Put(value),
    };
    batch.push(op).map_err(|_| Memory)?;
    Ok(batch)
}

/// Applies a batch of one operation. After want of memory the map is as before.
fn apply_one(current: &mut CurrentMap, batch: Batch) -> Result<(), Memory>
    requires { length batch ≡ 1 }
    ensures ok { OnOk result ((op : Op) → batch ≡ op ∷ []
        → current.new ≡ apply_change op.key op.change current.old) }
    ensures err { OnErr result (current.new ≡ current.old) }
{
    match batch.into_ops().pop() {
        Some(op) => current.apply(op),
        None => Ok(()),
    }
}

impl<J: Journal> State<J> {
    ghost use Rattle.std.specs.Prelude.{IsTrue};
    ghost use Rattle.disk_model.specs.Told.{told_by};
    ghost use Rattle.record_log.specs.State.{log_file};
    ghost use Rattle.flsm_core.specs.Begun.{IsBegun};
    ghost use Rattle.flsm_core.specs.Place.{Place, Start, opened};
    ghost use Rattle.flsm_core.specs.Standing.{IsAt, IsLeftBy};
    ghost use Rattle.flsm_core.specs.State.{state_session, state_journal, state_file};

    /// A store of what an opening has made ready. It stands where the opening began, for each base
    /// and record that the parts have.
    pub fn new(parts: Parts<J>) -> State<J>
        ensures stands { (start : Start) (log : ℕ) → IsBegun J.Journal parts start log
            → IsAt J.Journal result (opened start log) }
        ensures session { state_session result ≡ parts.session }
        ensures journal { state_journal result ≡ parts.journal }
        ensures file { state_file result ≡ log_file parts.log }
    {
        let Parts {
            alloc,
            journal,
            log,
            current,
            session,
            last,
        } = parts;
        State {
            alloc,
            journal,
            log,
            current,
            session,
            last,
            stopped: false,
        }
    }

    /// Gives the journal up. What waits is lost.
    pub fn close(self) -> J
        ensures left { IsTrue J.tells → (p : Place) → IsAt J.Journal self p
            → IsLeftBy p (told_by J.Journal result) }
        ensures journal { result ≡ state_journal self }
    {
        let State {
            alloc: _,
            journal,
            log: _,
            current: _,
            session: _,
            last: _,
            stopped: _,
        } = self;
        journal
    }
}

impl<J: Journal> Store for State<J> {
    ghost use Rattle.flsm_core.specs.Standing.{IsAt};
    ghost use Rattle.disk_model.specs.Told.{told_by};
    ghost use Rattle.record_log.specs.State.{log_file};
    ghost use Rattle.flsm_core.specs.Touched.{HasTouchedLog, log_touched_self, log_touched_on};

    ghost stands = { λ s p. IsAt J.Journal s p };

    ghost session = { λ s. s.session };

    ghost faults = { λ s. J.faults s.journal };

    ghost touched = { λ a b. HasTouchedLog J.tells (log_file a.log) (log_file b.log)
        (told_by J.Journal a.journal) (told_by J.Journal b.journal) };

    ghost touched_self = { λ s. log_touched_self J.Journal.tells (log_file s.log) _ };

    ghost touched_on = { λ a b c one two. log_touched_on J.Journal.tells _ _ _ _ _ _ one two };

    fn put(&mut self, key: Key, value: Value) -> Result<Number, CommitFault> {
        if self.stopped {
            return Err(CommitFault::Stopped);
        }
        let Some(number) = next_number(self.session, self.last) else {
            return Err(CommitFault::Limit(LimitKind::Operations, MOST_NUMBERS));
        };
        let Ok(batch) = batch_of_put(self.alloc, key, value) else {
            return Err(CommitFault::Memory);
        };
        let Ok(body) = write_batch(self.alloc, number, &batch) else {
            return Err(CommitFault::Memory);
        };
        match self.log.reserve(body.len() as u64) {
            Ok(()) => {}
            Err(AddFault::Full) => return Err(CommitFault::Limit(LimitKind::Tail, LONGEST_TAIL)),
            Err(AddFault::Memory) => return Err(CommitFault::Memory),
        }
        let Ok(()) = apply_one(&mut self.current, batch) else {
            return Err(CommitFault::Memory);
        };
        let Ok(()) = self.log.add(&body) else {
            unreachable!()
        };
        self.last = number;
        Ok(number)
    }

    fn sync(&mut self) -> Result<Number, SyncFault> {
        if self.stopped {
            return Err(SyncFault::Stopped);
        }
        match self.log.close_group(&mut self.journal) {
            Ok(()) => Ok(self.last),
            Err(_) => {
                self.stopped = true;
                Err(SyncFault::Journal)
            }
        }
    }

    fn last(&self) -> Number {
        self.last
    }

    fn get(&self, key: &[u8]) -> Option<&[u8]> {
        self.current.get(key)
    }
}
