ghost use Rattle.std.specs.Prelude.{◌≡◌, ◌≤◌, ◌<◌, ◌+◌, ◌*◌, ◌^◌, ◌++◌, ◌∷◌, [], List, IfOk, IfErr};
ghost use Rattle.peb_base.specs.Batches.{Batches};
ghost use Rattle.peb_base.specs.declared.profile.Profile.{Profile};
ghost use Rattle.disk_model.specs.declared.journal_file.JournalFile.TheVariants.{Log};
ghost use Rattle.record_log.specs.Header.{IsHeaderOf};
ghost use Rattle.record_log.specs.Records.{bodies_of, views};
ghost use Rattle.store_layout.specs.Logs.{Held, flat};
ghost use Rattle.store_layout.specs.Recorded.{Bounds};

use crate::open_fault::OpenFault;
use crate::replay::Replay;
use crate::replay_fault::ReplayFault;
use peb_base::{FileName, Profile};
use record_log::{Header, Record};
use std::alloc::Global;

/// What was read so far of the logs that a record asks for.
#[derive(Drop)]
pub struct LogsRead {
    pub replay: Replay,
    /// The number of the log that comes next.
    pub next: u64,
    /// The session of the record, which that of no log passes.
    pub session: u64,
    ghost followed: { session < 8388607 },
    ghost numbered: { next ≤ 2 ^ 41 * session + 1 },
    ghost within: { replay.last < (session + 1) * 2 ^ 40 },
}

impl LogsRead {
    ghost use Rattle.recovery.specs.Opening.{StopsAt};
    ghost use Rattle.recovery.specs.Reading.{HasLogs, TakeCause};

    /// Nothing was read. The first log that is asked for has this number.
    pub fn new(alloc: Global, first: u64, session: u64) -> LogsRead
        requires followed { session < 8388607 }
        requires numbered { first ≤ 2 ^ 41 * session + 1 }
        ensures { (bounds : Bounds) → bounds.first ≡ first → bounds.session ≡ session
            → HasLogs bounds result [] [] }
    {
        LogsRead {
            replay: Replay::new(alloc),
            next: first,
            session,
        }
    }

    /// Takes in the next log: its header and its records.
    ///
    /// `Damaged` comes, at 0, exactly where the header has another profile than this one or a
    /// session that the record doesn't have yet; and only where the records spell no batches that
    /// go on after those before, told at the gate of the first that can't stand there. Beside it
    /// comes `Memory` alone.
    pub fn take_log(
        self,
        alloc: Global,
        profile: Profile,
        header: &Header,
        records: &[Record],
    ) -> Result<LogsRead, OpenFault>
        requires { IsHeaderOf (Log self.next) header.now }
        ensures ok { IfOk result (λ read. (bounds : Bounds) (logs : List Held) (batches : Batches)
            (log : Held) → bounds.profile ≡ profile → HasLogs bounds self logs batches
            → log.header ≡ header.now → flat log.groups ≡ bodies_of records.now
            → (own : Batches) × HasLogs bounds read (logs ++ log ∷ []) (batches ++ own)) }
        ensures count { IfOk result (λ read. read.next ≡ self.next + 1) }
        ensures same { IfOk result (λ read. read.session ≡ self.session) }
        ensures cause { IfErr result (λ fault. (bounds : Bounds) (logs : List Held)
            (batches : Batches) → bounds.profile ≡ profile → HasLogs bounds self logs batches
            → TakeCause bounds self.next header.now
            (StopsAt header.now.session batches (views records.now)) fault) }
    {
        let own = header.session;
        if header.profile != profile {
            return Err(OpenFault::Damaged(FileName::Log(self.next), 0));
        }
        if own > self.session {
            return Err(OpenFault::Damaged(FileName::Log(self.next), 0));
        }
        let LogsRead {
            mut replay,
            next,
            session,
        } = self;
        match replay.replay_records(alloc, own, records) {
            Ok(()) => Ok(LogsRead {
                replay,
                next: next + 1,
                session,
            }),
            Err(ReplayFault::Damaged { at }) => Err(OpenFault::Damaged(FileName::Log(next), at)),
            Err(ReplayFault::Memory) => Err(OpenFault::Memory),
        }
    }
}
