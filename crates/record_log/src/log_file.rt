//! A file of groups of records behind gates, and the records that wait for the next group.

ghost use Rattle.std.specs.Prelude.{◌≡◌, ◌≢◌, ◌↔◌, ◌<◌, ◌≤◌, ◌+◌, ◌^◌, ◌++◌, [], List, ℕ, IsTrue, length, IsErrOf, IsOk, IfOk, IfErr, IfSome, IfNone, OnOk, OnErr, Some};
ghost use Rattle.disk_model.specs.Images.{Follows, In, Stays, Keeps, Elapses, HasCause, Rose};
ghost use Rattle.disk_model.specs.declared.journal_file.JournalFile.{JournalFile};
ghost use Rattle.record_log.specs.declared.header.Header.{Header};
ghost use Rattle.record_log.specs.Crash.{Creates};
ghost use Rattle.record_log.specs.Damage.{AtDamage};
ghost use Rattle.record_log.specs.Groups.{record_bytes, records_bytes, with_group};
ghost use Rattle.record_log.specs.Header.{IsHeaderOf};
ghost use Rattle.record_log.specs.Log.{Holds, BreaksOff, HasNoHeader, IsDamaged, IsLog, IsUnfinished};
ghost use Rattle.record_log.specs.Records.{views};

use crate::add_fault::AddFault;
use crate::header::{Header, new_file};
use crate::log_fault::LogFault;
use crate::log_front::LogFront;
use crate::reading::{GroupsRead, read_log};
use crate::record::Record;
use crate::steps::{begin_file, open_gate, put_behind, read_whole};
use crate::tail::Tail;
use disk_model::{Failed, Journal, JournalFile};
use std::alloc::Global;

/// A log: a header, and groups of records behind gates. A record that was added waits in memory, in
/// the tail, until its group is closed; then every crash leaves it.
#[derive(Drop)]
pub struct LogFile {
    file: JournalFile,
    place: u64,
    tail: Tail,
    ghost within: { place < 2 ^ 63 },
}

impl LogFile {
    ghost use Rattle.record_log.specs.Ready.{IsReady, IsBeforeOrAfter};
    ghost use Rattle.record_log.specs.State.{log_file, log_place, log_tail, log_room, HasRoom};

    /// Creates a file with no group, in place of one that is there. Until `Ok` a crash leaves the
    /// file as it was, or one that `open` doesn't find, or the new one; after it, the new one.
    ///
    /// The header is one that `open` of this file takes. `Fault` tells that the journal failed, and
    /// leaves any of these three; `Memory` comes before any call on the journal. `Damaged` never
    /// comes.
    pub fn create<J: Journal>(
        alloc: Global,
        journal: &mut J,
        file: JournalFile,
        header: Header,
    ) -> Result<LogFile, LogFault>
        requires { IsHeaderOf file header }
        ensures ready { IfOk result (λ log. IsTrue J.tells
            → IsReady J.tells J.seen J.may_leave journal.new log header []) }
        ensures file { IfOk result (λ log. log_file log ≡ file) }
        ensures empty { IfOk result (λ log. log_tail log ≡ []) }
        ensures fault { IsErrOf result LogFault.Fault
            → Rose (J.faults journal.old) (J.faults journal.new) }
        ensures undamaged { (at : ℕ) → IsErrOf result (LogFault.Damaged at) → ⊥ }
        ensures memory { IsErrOf result LogFault.Memory → journal.new ≡ journal.old }
        ensures later { J.faults journal.old ≤ J.faults journal.new }
        ensures elsewhere { (other : JournalFile) → other ≢ file
            → J.seen journal.new other ≡ J.seen journal.old other }
        ensures any_moment { IsTrue J.tells
            → Follows (In file (Creates file header)) (J.may_leave journal.old)
            (J.left_since journal.new (J.moment journal.old)) }
        ensures time { Elapses (J.moment journal.old) (J.moment journal.new)
            (J.left_since journal.old) (J.left_since journal.new) }
        ensures steady { J.steady journal.old → J.steady journal.new }
    {
        let tail = Tail::new(alloc)?;
        begin_file(journal, file)?;
        put_behind(journal, file, 1, &new_file(&header))?;
        open_gate(journal, file, 0)?;
        Ok(LogFile {
            file,
            place: 24,
            tail,
        })
    }

    /// Syncs the file and reads it: its header, and the records of all groups whose gate is open,
    /// in order.
    ///
    /// `None` tells that the file isn't there or wasn't created to its end. `Damaged` tells the
    /// first place where the bytes aren't in form: 0 for the header, the place of its gate for a
    /// group. `Fault` tells that the journal failed. Nothing is changed; after `Ok` every crash
    /// leaves the file as it was read.
    pub fn open<J: Journal>(
        alloc: Global,
        journal: &mut J,
        file: JournalFile,
    ) -> Result<Option<(Header, Vec<Record>)>, LogFault>
        ensures found { IfOk result (λ found. IfSome found (λ log. IsTrue J.tells
            → Holds file log.0 (views log.1.items) (J.seen journal.old file))) }
        ensures header { IfOk result (λ found. IfSome found (λ log. IsHeaderOf file log.0)) }
        ensures absent { IfOk result (λ found. IfNone found (IsTrue J.tells
            → IsUnfinished (J.seen journal.old file))) }
        ensures damaged { IfErr result (λ fault. IsTrue J.tells
            → AtDamage fault (λ at. (bytes : List ℕ) × (J.seen journal.old file ≡ Some bytes)
            × IsDamaged file bytes at)) }
        ensures fault { IsErrOf result LogFault.Fault
            → Rose (J.faults journal.old) (J.faults journal.new) }
        ensures later { J.faults journal.old ≤ J.faults journal.new }
        ensures kept { OnOk result (Keeps file (J.seen journal.old file)
            (J.may_leave journal.new)) }
        ensures seen { J.seen journal.new ≡ J.seen journal.old }
        ensures any_moment { Follows (In file Stays) (J.may_leave journal.old)
            (J.left_since journal.new (J.moment journal.old)) }
        ensures time { Elapses (J.moment journal.old) (J.moment journal.new)
            (J.left_since journal.old) (J.left_since journal.new) }
        ensures steady { J.steady journal.old → J.steady journal.new }
    {
        match LogFile::resume(alloc, journal, file) {
            Ok(Some(found)) => {
                let (_, header, records) = found;
                Ok(Some((header, records)))
            }
            Ok(None) => Ok(None),
            Err(fault) => Err(fault),
        }
    }

    /// Reads the file as `open` does, and gives the log ready for further groups beside what was
    /// read. Nothing waits in it.
    ///
    /// It answers as `open`, and leaves what that leaves: nothing is changed, and after `Ok` every
    /// crash leaves the file as it was read.
    pub fn resume<J: Journal>(
        alloc: Global,
        journal: &mut J,
        file: JournalFile,
    ) -> Result<Option<(LogFile, Header, Vec<Record>)>, LogFault>
        // what it gives
        ensures found { IfOk result (λ found. IfSome found (λ log. IsTrue J.tells
            → Holds file log.1 (views log.2.items) (J.seen journal.old file))) }
        ensures ready { IfOk result (λ found. IfSome found
            (λ log. (groups : List (List (List ℕ))) → IsTrue J.tells
            → IsLog file log.1 groups (J.seen journal.old file)
            → IsReady J.tells J.seen J.may_leave journal.new log.0 log.1 groups)) }
        ensures file { IfOk result (λ found. IfSome found (λ log. log_file log.0 ≡ file)) }
        ensures empty { IfOk result (λ found. IfSome found (λ log. log_tail log.0 ≡ [])) }
        ensures header { IfOk result (λ found. IfSome found (λ log. IsHeaderOf file log.1)) }
        ensures absent { IfOk result (λ found. IfNone found (IsTrue J.tells
            → IsUnfinished (J.seen journal.old file))) }
        // when it fails
        ensures damaged { IfErr result (λ fault. IsTrue J.tells
            → AtDamage fault (λ at. (bytes : List ℕ) × (J.seen journal.old file ≡ Some bytes)
            × IsDamaged file bytes at)) }
        ensures fault { IsErrOf result LogFault.Fault
            → Rose (J.faults journal.old) (J.faults journal.new) }
        ensures later { J.faults journal.old ≤ J.faults journal.new }
        // what it leaves
        ensures kept { OnOk result (Keeps file (J.seen journal.old file)
            (J.may_leave journal.new)) }
        ensures seen { J.seen journal.new ≡ J.seen journal.old }
        ensures any_moment { Follows (In file Stays) (J.may_leave journal.old)
            (J.left_since journal.new (J.moment journal.old)) }
        ensures time { Elapses (J.moment journal.old) (J.moment journal.new)
            (J.left_since journal.old) (J.left_since journal.new) }
        ensures steady { J.steady journal.old → J.steady journal.new }
    {
        match LogFile::read_front(alloc, journal, file) {
            Ok(Some(front)) => match whole_log(front) {
                Ok(whole) => Ok(Some(whole)),
                Err(fault) => Err(fault),
            },
            Ok(None) => Ok(None),
            Err(fault) => Err(fault),
        }
    }

    /// Syncs the file and reads it up to the first group that isn't in form. What it gives of the
    /// groups before is what `resume` would give, were that gate closed; and where all groups are
    /// in form, it gives the log as that does.
    ///
    /// `None` tells that the file isn't there or wasn't created to its end. `Damaged` tells that
    /// no header stands at its front, and its place is 0. `Fault` tells that the journal failed.
    /// Nothing is changed; after `Ok` every crash leaves the file as it was read.
    pub fn read_front<J: Journal>(
        alloc: Global,
        journal: &mut J,
        file: JournalFile,
    ) -> Result<Option<LogFront>, LogFault>
        // what it gives
        ensures found { IfOk result (λ found. IfSome found (λ front. IfOk front.log
            (λ log. IsTrue J.tells → Holds file front.header (views front.records.items)
            (J.seen journal.old file)))) }
        ensures broken { IfOk result (λ found. IfSome found (λ front. IfErr front.log
            (λ at. IsTrue J.tells → BreaksOff file front.header (views front.records.items)
            (J.seen journal.old file) at))) }
        ensures ready { IfOk result (λ found. IfSome found (λ front. IfOk front.log
            (λ log. (groups : List (List (List ℕ))) → IsTrue J.tells
            → IsLog file front.header groups (J.seen journal.old file)
            → IsReady J.tells J.seen J.may_leave journal.new log front.header groups))) }
        ensures file { IfOk result (λ found. IfSome found (λ front. IfOk front.log
            (λ log. log_file log ≡ file))) }
        ensures empty { IfOk result (λ found. IfSome found (λ front. IfOk front.log
            (λ log. log_tail log ≡ []))) }
        ensures header { IfOk result (λ found. IfSome found
            (λ front. IsHeaderOf file front.header)) }
        ensures absent { IfOk result (λ found. IfNone found (IsTrue J.tells
            → IsUnfinished (J.seen journal.old file))) }
        // when it fails
        ensures damaged { IfErr result (λ fault. AtDamage fault (λ at. (at ≡ 0)
            × (IsTrue J.tells → HasNoHeader file (J.seen journal.old file)))) }
        ensures fault { IsErrOf result LogFault.Fault
            → Rose (J.faults journal.old) (J.faults journal.new) }
        ensures never_falls { J.faults journal.old ≤ J.faults journal.new }
        // what it leaves
        ensures kept { OnOk result (Keeps file (J.seen journal.old file)
            (J.may_leave journal.new)) }
        ensures seen { J.seen journal.new ≡ J.seen journal.old }
        ensures any_moment { Follows (In file Stays) (J.may_leave journal.old)
            (J.left_since journal.new (J.moment journal.old)) }
        ensures time { Elapses (J.moment journal.old) (J.moment journal.new)
            (J.left_since journal.old) (J.left_since journal.new) }
        ensures steady { J.steady journal.old → J.steady journal.new }
    {
        let bytes = match read_whole(alloc, journal, file) {
            Ok(Some(bytes)) => bytes,
            Ok(None) => return Ok(None),
            Err(fault) => return Err(fault),
        };
        let (header, read) = match read_log(alloc, file, &bytes) {
            Ok(Some(found)) => found,
            Ok(None) => return Ok(None),
            Err(fault) => return Err(fault),
        };
        let GroupsRead {
            records,
            place,
            is_closed,
        } = read;
        if !is_closed {
            let log = Err(place);
            return Ok(Some(LogFront {
                header,
                records,
                log,
            }));
        }
        let tail = Tail::new(alloc)?;
        let log = LogFile { file, place, tail };
        Ok(Some(LogFront {
            header,
            records,
            log: Ok(log),
        }))
    }

    /// The bytes of the records that wait, four for the length of each among them.
    pub fn tail(&self) -> u64
        ensures tail { result ≡ length (log_tail self.now) }
        ensures within { result ≤ 2 ^ 31 }
    {
        self.tail.len() as u64
    }

    /// Makes room for a record with a body of `len` bytes, so that the next `add` of such a body or
    /// of a shorter one gives `Ok`.
    ///
    /// `Full` comes exactly where that `add` would pass the limit of 2,147,483,648 bytes, else
    /// `Memory`. The tail stays.
    pub fn reserve(&mut self, len: u64) -> Result<(), AddFault>
        ensures room { OnOk result (HasRoom self.new len) }
        ensures sure { HasRoom self.old len → IsOk result }
        ensures full { IsErrOf result AddFault.Full
            ↔ (2 ^ 31 < length (log_tail self.old) + 4 + len) }
        ensures tail { log_tail self.new ≡ log_tail self.old }
        ensures file { log_file self.new ≡ log_file self.old }
        ensures place { log_place self.new ≡ log_place self.old }
    {
        self.tail.reserve(len)
    }

    /// Adds a record to those that wait.
    ///
    /// `Full` comes exactly where they would pass the limit of 2,147,483,648 bytes, else `Memory`,
    /// and that only where no room was reserved. An error leaves the tail as it was.
    pub fn add(&mut self, body: &[u8]) -> Result<(), AddFault>
        ensures ok { OnOk result (log_tail self.new ≡ log_tail self.old ++ record_bytes body.now) }
        ensures err { OnErr result (log_tail self.new ≡ log_tail self.old) }
        ensures sure { (len : ℕ) → HasRoom self.old len → length body.now ≤ len → IsOk result }
        ensures full { IsErrOf result AddFault.Full
            ↔ (2 ^ 31 < length (log_tail self.old) + 4 + length body.now) }
        ensures file { log_file self.new ≡ log_file self.old }
        ensures place { log_place self.new ≡ log_place self.old }
    {
        self.tail.add(body)
    }

    /// Writes the group of the records that wait, and opens its gate. After `Ok` nothing waits, and
    /// every crash leaves the group; at any moment before, all of it or nothing. Where nothing
    /// waits, no call is made on the journal. It takes no memory.
    ///
    /// `Failed` tells that the journal failed. The log is spent then: open its file again.
    pub fn close_group<J: Journal>(&mut self, journal: &mut J) -> Result<(), Failed>
        requires { IsTrue J.tells → (header : Header) × (groups : List (List (List ℕ)))
            × IsReady J.tells J.seen J.may_leave journal.old self.old header groups }
        ensures closed { OnOk result ((header : Header) (groups : List (List (List ℕ)))
            (bodies : List (List ℕ))
            → IsReady J.tells J.seen J.may_leave journal.old self.old header groups
            → log_tail self.old ≡ records_bytes bodies
            → IsReady J.tells J.seen J.may_leave journal.new self.new header
            (with_group groups bodies)) }
        ensures tail { OnOk result (log_tail self.new ≡ []) }
        ensures room { OnOk result (log_room self.old ≤ log_room self.new) }
        ensures file { log_file self.new ≡ log_file self.old }
        ensures any_moment { (header : Header) (groups : List (List (List ℕ)))
            (bodies : List (List ℕ))
            → IsReady J.tells J.seen J.may_leave journal.old self.old header groups
            → log_tail self.old ≡ records_bytes bodies
            → Follows (In (log_file self.old)
            (λ old new. IsBeforeOrAfter (log_file self.old) header groups bodies new))
            (J.may_leave journal.old) (J.left_since journal.new (J.moment journal.old)) }
        ensures elsewhere { (other : JournalFile) → other ≢ log_file self.old
            → J.seen journal.new other ≡ J.seen journal.old other }
        ensures time { Elapses (J.moment journal.old) (J.moment journal.new)
            (J.left_since journal.old) (J.left_since journal.new) }
        ensures steady { J.steady journal.old → J.steady journal.new }
        ensures cause { HasCause (J.faults journal.old) (J.faults journal.new) result }
        ensures empty { log_tail self.old ≡ [] → IsOk result × (journal.new ≡ journal.old) }
    {
        let len = self.tail.len();
        if len == 0 {
            return Ok(());
        }
        put_behind(journal, self.file, self.place + 1, self.tail.group())?;
        open_gate(journal, self.file, self.place)?;
        self.place += 5 + len as u64;
        self.tail.clear();
        Ok(())
    }
}

/// The log of a file all of whose groups are in form. `Damaged` tells the gate of the first that
/// isn't.
fn whole_log(front: LogFront) -> Result<(LogFile, Header, Vec<Record>), LogFault>
    ensures whole { IfOk result (λ log. (front.log ≡ Ok log.0) × (front.header ≡ log.1)
        × (front.records ≡ log.2)) }
    ensures broken { IfErr result (λ fault. (at : ℕ) × (fault ≡ LogFault.Damaged at)
        × (front.log ≡ Err at)) }
{
    let LogFront {
        header,
        records,
        log,
    } = front;
    match log {
        Ok(log) => Ok((log, header, records)),
        Err(at) => Err(LogFault::Damaged { at }),
    }
}
