//! The records that wait for the next group.

ghost use Rattle.std.specs.Prelude.{◌≡◌, ◌↔◌, ◌<◌, ◌≤◌, ◌+◌, ◌-◌, ◌^◌, ◌++◌, [], length, IsErrOf, IsOk, IfOk, OnOk, OnErr, IsTrue};
ghost use Rattle.record_log.specs.Frame.{framed, records_in};
ghost use Rattle.record_log.specs.declared.add_fault.AddFault.TheVariants.{Full};

use crate::add_fault::AddFault;
use byteorder::{BigEndian, ByteOrder};
use std::alloc::{AllocError, Global};

/// The most bytes of records that may wait.
const MOST: usize = 1 << 31;

/// The records that wait for the next group, as they will be written behind its gate: their length,
/// the records, and the next gate, closed. So a group is one write, and takes no memory when it is
/// closed.
#[derive(Drop)]
pub struct Tail {
    group: Vec<u8>,
    ghost framed: { group.items ≡ framed (records_in group.items) },
    ghost small: { length group.items ≤ 2 ^ 31 + 5 },
}

impl Tail {
    ghost use Rattle.record_log.specs.Groups.{record_bytes};
    ghost use Rattle.record_log.specs.State.{waiting, room_of};

    pub fn new(alloc: Global) -> Result<Tail, AllocError>
        ensures { IfOk result (λ tail. waiting tail ≡ []) }
    {
        let mut group = Vec::new(alloc);
        group.resize(5, 0)?;
        Ok(Tail { group })
    }

    /// The length of the records, in bytes.
    pub fn len(&self) -> usize
        ensures { result ≡ length (waiting self.now) }
    {
        self.group.len() - 5
    }

    /// Makes room for a record with a body of this length.
    pub fn reserve(&mut self, len: u64) -> Result<(), AddFault>
        ensures records { waiting self.new ≡ waiting self.old }
        ensures room { OnOk result (4 + len ≤ room_of self.new) }
        ensures within { OnOk result (length (waiting self.new) + 4 + len ≤ 2 ^ 31) }
        ensures sure { 4 + len ≤ room_of self.old → length (waiting self.old) + 4 + len ≤ 2 ^ 31
            → IsOk result }
        ensures full { IsErrOf result Full ↔ (2 ^ 31 < length (waiting self.old) + 4 + len) }
    {
        let most = MOST as u64;
        if len > most || self.len() as u64 + 4 + len > most {
            return Err(AddFault::Full);
        }
        self.group.reserve(4 + len as usize)?;
        Ok(())
    }

    /// Adds a record, for which there is room.
    fn push(&mut self, body: &[u8]) -> Result<(), AllocError>
        requires room { 4 + length body.now ≤ room_of self.old }
        requires within { length (waiting self.old) + 4 + length body.now ≤ 2 ^ 31 }
        ensures ok { IsOk result }
        ensures added { OnOk result (waiting self.new ≡ waiting self.old ++ record_bytes body.now) }
    {
        let end = self.group.len() - 1;
        self.group.truncate(end);
        self.group
            .extend_from_slice(&(body.len() as u32).to_be_bytes())?;
        self.group.extend_from_slice(body)?;
        self.group.push(0)?;
        let len = (self.group.len() - 5) as u32;
        BigEndian::write_u32(&mut self.group, len);
        Ok(())
    }

    /// Adds a record.
    pub fn add(&mut self, body: &[u8]) -> Result<(), AddFault>
        ensures ok { OnOk result (waiting self.new ≡ waiting self.old ++ record_bytes body.now) }
        ensures err { OnErr result (waiting self.new ≡ waiting self.old) }
        ensures sure { 4 + length body.now ≤ room_of self.old
            → length (waiting self.old) + 4 + length body.now ≤ 2 ^ 31 → IsOk result }
        ensures full { IsErrOf result Full
            ↔ (2 ^ 31 < length (waiting self.old) + 4 + length body.now) }
    {
        self.reserve(body.len() as u64)?;
        self.push(body)?;
        Ok(())
    }

    /// The group as it is written behind its gate.
    pub fn group(&self) -> &[u8]
        ensures group { result.now ≡ framed (waiting self.now) }
        ensures small { length (waiting self.now) ≤ 2 ^ 31 }
    {
        &self.group
    }

    /// Forgets the records. Their room stays.
    pub fn clear(&mut self)
        ensures records { waiting self.new ≡ [] }
        ensures room { room_of self.old ≤ room_of self.new }
    {
        self.group.truncate(5);
        BigEndian::write_u32(&mut self.group, 0);
        self.group[4] = 0;
    }
}
