//! A batch as the body of a log's record.

ghost use Rattle.std.specs.Prelude.{◌≡◌, ◌≢◌, ◌↔◌, ◌≤◌, ◌++◌, ◌∷◌, List, ℕ, length, IsTrue, IfOk, IfErr, IfSome, IfNone, IsErrOf, OnOk};
ghost use Rattle.byteorder.specs.Endian.{big_bytes};
ghost use Rattle.peb_base.specs.declared.change.Change.TheVariants.{Put, Delete};
ghost use Rattle.peb_base.specs.declared.op.Op.{Op};
ghost use Rattle.record_log.specs.BatchRecord.{batch_bytes, op_bytes, ops_bytes, kind_of, IsKey, IsOp, AreOps, HasNumbers, IsBatch};
ghost use Rattle.record_log.specs.Counted.{counted_bytes};

use crate::batch_record_fault::BatchRecordFault;
use crate::counted::{counted_by_four, counted_by_two};
use byteorder::{BigEndian, ByteOrder};
use peb_base::{Batch, Change, Key, Memory, Number, Op, Value};
use std::alloc::{AllocError, Global};

/// Spells a batch as the body of a record. Its first operation has the number `first`, and the
/// others those after it.
///
/// The batch has an operation, and its numbers are of one session, which `first` belongs to.
pub fn write_batch(alloc: Global, first: Number, batch: &Batch) -> Result<Vec<u8>, Memory>
    requires { HasNumbers first (length batch.now) }
    ensures batch { OnOk result (IsBatch first batch.now) }
    ensures bytes { IfOk result (λ bytes. bytes.items ≡ batch_bytes first batch.now) }
{
    let mut bytes = Vec::new(alloc);
    bytes.extend_from_slice(&first.packed().to_be_bytes())?;
    bytes.extend_from_slice(&(batch.ops().len() as u16).to_be_bytes())?;
    for op in batch.ops() {
        put_op(&mut bytes, op)?;
    }
    Ok(bytes)
}

fn put_op(bytes: &mut Vec<u8>, op: &Op) -> Result<(), AllocError>
    ensures op { OnOk result (IsOp op.now) }
    ensures bytes { OnOk result (bytes.new.items ≡ bytes.old.items ++ op_bytes op.now) }
{
    match &op.change {
        Change::Delete => put_key(bytes, 0, &op.key),
        Change::Put(value) => {
            put_key(bytes, 1, &op.key)?;
            put_value(bytes, value)
        }
    }
}

fn put_key(bytes: &mut Vec<u8>, kind: u8, key: &Key) -> Result<(), AllocError>
    ensures key { IsKey key.now }
    ensures bytes { OnOk result (bytes.new.items ≡ bytes.old.items
        ++ kind ∷ counted_bytes 2 key.now) }
{
    let key = key.bytes();
    bytes.push(kind)?;
    bytes.extend_from_slice(&(key.len() as u16).to_be_bytes())?;
    bytes.extend_from_slice(key)
}

fn put_value(bytes: &mut Vec<u8>, value: &Value) -> Result<(), AllocError>
    ensures short { length value.now ≤ 32768 }
    ensures bytes { OnOk result (bytes.new.items ≡ bytes.old.items ++ counted_bytes 4 value.now) }
{
    let value = value.bytes();
    bytes.extend_from_slice(&(value.len() as u32).to_be_bytes())?;
    bytes.extend_from_slice(value)
}

/// Reads a batch, and the number of its first operation, from the body of a record.
///
/// `Form` comes exactly where the bytes spell no batch, and else `Memory`.
pub fn read_batch(alloc: Global, body: &[u8]) -> Result<(Number, Batch), BatchRecordFault>
    ensures batch { IfOk result (λ found. IsBatch found.0 found.1) }
    ensures bytes { IfOk result (λ found. body.now ≡ batch_bytes found.0 found.1) }
    ensures form { IsErrOf result BatchRecordFault.Form → (first : ℕ) (ops : List Op)
        → IsBatch first ops → body.now ≢ batch_bytes first ops }
{
    let (first, count, rest) = match numbers_at(body) {
        Some(found) => found,
        None => return Err(BatchRecordFault::Form),
    };
    match ops_of(alloc, count, rest) {
        Ok(batch) => Ok((Number::of_packed(first), batch)),
        Err(fault) => Err(fault),
    }
}

fn has_numbers(first: u64, count: usize) -> bool
    ensures { IsTrue result ↔ HasNumbers first count }
{
    if first >= 1 << 63 || count > Batch::MOST_OPS {
        return false;
    }
    let number = Number::of_packed(first);
    let sessions = number.session() >= 1;
    let counts = number.count() >= 1 && number.count() + count as u64 <= 1 << 40;
    count >= 1 && sessions && counts
}

/// The number of the first operation and the count at the front, and the bytes behind them.
fn numbers_at(body: &[u8]) -> Option<(u64, usize, &[u8])>
    ensures numbers { IfSome result (λ found. HasNumbers found.0 found.1) }
    ensures found { IfSome result (λ found. body.now ≡ big_bytes 8 found.0 ++ big_bytes 2 found.1
        ++ found.2.now) }
    ensures none { IfNone result ((first count : ℕ) (rest : List ℕ) → HasNumbers first count
        → body.now ≢ big_bytes 8 first ++ big_bytes 2 count ++ rest) }
{
    if body.len() < 10 {
        return None;
    }
    let (front, rest) = body.split_at(10);
    let first = BigEndian::read_u64(front);
    let count = BigEndian::read_u16(&front[8..]) as usize;
    if !has_numbers(first, count) {
        return None;
    }
    Some((first, count, rest))
}

/// So many operations, which fill the bytes.
fn ops_of(alloc: Global, count: usize, bytes: &[u8]) -> Result<Batch, BatchRecordFault>
    requires { count ≤ 1000 }
    ensures each { IfOk result AreOps }
    ensures counted { IfOk result (λ batch. length batch ≡ count) }
    ensures bytes { IfOk result (λ batch. bytes.now ≡ ops_bytes batch) }
    ensures form { IsErrOf result BatchRecordFault.Form → (ops : List Op) → AreOps ops
        → length ops ≡ count → bytes.now ≢ ops_bytes ops }
{
    let mut batch = Batch::new(alloc);
    let mut rest = bytes;
    let mut left = count;
    while left > 0 {
        let (op, behind) = match op_at(alloc, rest) {
            Ok(found) => found,
            Err(fault) => return Err(fault),
        };
        batch.push(op).map_err(|_| BatchRecordFault::Memory)?;
        rest = behind;
        left -= 1;
    }
    if !rest.is_empty() {
        return Err(BatchRecordFault::Form);
    }
    Ok(batch)
}

/// The operation at the front, and the bytes behind it.
fn op_at(alloc: Global, bytes: &[u8]) -> Result<(Op, &[u8]), BatchRecordFault>
    ensures op { IfOk result (λ found. IsOp found.0) }
    ensures found { IfOk result (λ found. bytes.now ≡ op_bytes found.0 ++ found.1.now) }
    ensures form { IsErrOf result BatchRecordFault.Form → (op : Op) (rest : List ℕ) → IsOp op
        → bytes.now ≢ op_bytes op ++ rest }
{
    let (kind, key, rest) = match key_at(bytes) {
        Some(found) => found,
        None => return Err(BatchRecordFault::Form),
    };
    if kind == 0 {
        let op = deletion_of(alloc, key)?;
        return Ok((op, rest));
    }
    if kind != 1 {
        return Err(BatchRecordFault::Form);
    }
    let (value, behind) = match value_at(rest) {
        Some(found) => found,
        None => return Err(BatchRecordFault::Form),
    };
    let op = put_of(alloc, key, value)?;
    Ok((op, behind))
}

fn deletion_of(alloc: Global, key: &[u8]) -> Result<Op, BatchRecordFault>
    requires { IsKey key.now }
    ensures op { IfOk result (λ op. op ≡ record { key = key.now; change = Delete }) }
    ensures err { IfErr result (λ fault. fault ≡ BatchRecordFault.Memory) }
{
    let key = Key::new(alloc, key).map_err(|_| BatchRecordFault::Memory)?;
    Ok(Op {
        key,
        change: Change::Delete,
    })
}

fn put_of(alloc: Global, key: &[u8], value: &[u8]) -> Result<Op, BatchRecordFault>
    requires key { IsKey key.now }
    requires value { length value.now ≤ 32768 }
    ensures op { IfOk result (λ op. op ≡ record { key = key.now; change = Put value.now }) }
    ensures err { IfErr result (λ fault. fault ≡ BatchRecordFault.Memory) }
{
    let key = Key::new(alloc, key).map_err(|_| BatchRecordFault::Memory)?;
    let value = Value::new(alloc, value).map_err(|_| BatchRecordFault::Memory)?;
    Ok(Op {
        key,
        change: Change::Put(value),
    })
}

/// The kind and the key at the front, and the bytes behind them.
fn key_at(bytes: &[u8]) -> Option<(u8, &[u8], &[u8])>
    ensures key { IfSome result (λ found. IsKey found.1.now) }
    ensures found { IfSome result (λ found. bytes.now
        ≡ found.0 ∷ (counted_bytes 2 found.1.now ++ found.2.now)) }
    ensures none { IfNone result ((kind : ℕ) (key rest : List ℕ) → IsKey key
        → bytes.now ≢ kind ∷ (counted_bytes 2 key ++ rest)) }
{
    if bytes.is_empty() {
        return None;
    }
    let (key, rest) = match counted_by_two(&bytes[1..]) {
        Some(found) => found,
        None => return None,
    };
    if key.is_empty() || key.len() > Key::LONGEST {
        return None;
    }
    Some((bytes[0], key, rest))
}

/// The value at the front, and the bytes behind it.
fn value_at(bytes: &[u8]) -> Option<(&[u8], &[u8])>
    ensures short { IfSome result (λ found. length found.0.now ≤ 32768) }
    ensures found { IfSome result (λ found. bytes.now ≡ counted_bytes 4 found.0.now
        ++ found.1.now) }
    ensures none { IfNone result ((value rest : List ℕ) → length value ≤ 32768
        → bytes.now ≢ counted_bytes 4 value ++ rest) }
{
    let (value, rest) = match counted_by_four(bytes) {
        Some(found) => found,
        None => return None,
    };
    if value.len() > Value::LONGEST {
        return None;
    }
    Some((value, rest))
}
