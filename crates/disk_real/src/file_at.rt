//! Reads and writes at a place of an open file.

ghost use Rattle.std.specs.Prelude.{◌≡◌, ◌≤◌, ◌<◌, length, take, IfOk, OnOk};
ghost use Rattle.std.specs.Io.KnownBytes.{Consumes, IsAtEnd, ReadConsumes};

use std::io;
use std::io::{ErrorKind, Read, Seek, SeekFrom, Write};

/// Reads once, and again where a signal came between.
fn read_some<F: Read>(file: &mut F, out: &mut [u8]) -> io::Result<usize>
    ensures count { IfOk result (λ n. n ≤ length out.old) }
    ensures bytes { ReadConsumes (F.remaining file.old) (F.remaining file.new) result out.new }
{
    for _ in 0..u64::MAX {
        match file.read(out) {
            Err(error) if error.kind() == ErrorKind::Interrupted => {}
            answer => return answer,
        }
    }
    Err(io::Error::from(ErrorKind::Interrupted))
}

/// Writes once, and again where a signal came between.
fn write_some<F: Write>(file: &mut F, bytes: &[u8]) -> io::Result<usize>
    ensures count { IfOk result (λ n. n ≤ length bytes.now) }
{
    for _ in 0..u64::MAX {
        match file.write(bytes) {
            Err(error) if error.kind() == ErrorKind::Interrupted => {}
            answer => return answer,
        }
    }
    Err(io::Error::from(ErrorKind::Interrupted))
}

/// Reads from the file's place on until `out` is full or the file ends, and gives the count of
/// bytes. A read that fails is no end.
fn read_on<F: Read>(file: &mut F, out: &mut [u8]) -> io::Result<usize>
    ensures count { IfOk result (λ n. n ≤ length out.old) }
    ensures bytes { IfOk result (λ n.
        Consumes (F.remaining file.old) (F.remaining file.new) (take n out.new)) }
    ensures end { IfOk result (λ n. n < length out.old → IsAtEnd (F.remaining file.new)) }
{
    let mut count = 0;
    while count < out.len() {
        let more = read_some(file, &mut out[count..])?;
        if more == 0 {
            return Ok(count);
        }
        count += more;
    }
    Ok(count)
}

/// Reads from place `at` on until `out` is full or the file ends, and gives the count of bytes. A
/// read that fails is no end.
pub fn read_at<F: Read + Seek>(file: &mut F, at: u64, out: &mut [u8]) -> io::Result<usize>
    ensures count { IfOk result (λ n. n ≤ length out.old) }
    ensures end { IfOk result (λ n. n < length out.old → IsAtEnd (F.remaining file.new)) }
{
    file.seek(SeekFrom::Start(at))?;
    read_on(file, out)
}

/// Writes all bytes at the file's place, and raises `count` by those written, also where some
/// aren't.
pub fn write_counted<F: Write>(file: &mut F, bytes: &[u8], count: &mut usize) -> io::Result<()>
    requires { count.old ≡ 0 }
    ensures within { count.new ≤ length bytes.now }
    ensures whole { OnOk result (count.new ≡ length bytes.now) }
{
    while *count < bytes.len() {
        let more = write_some(file, &bytes[*count..])?;
        if more == 0 {
            return Err(io::Error::from(ErrorKind::WriteZero));
        }
        *count += more;
    }
    Ok(())
}

/// Writes all bytes from place `at` on.
pub fn write_at<F: Write + Seek>(file: &mut F, at: u64, bytes: &[u8]) -> io::Result<()> {
    file.seek(SeekFrom::Start(at))?;
    let mut count = 0;
    write_counted(file, bytes, &mut count)
}
