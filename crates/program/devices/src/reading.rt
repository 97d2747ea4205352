//! Files, read within bounds: one that has no end is refused before it fills the memory.

ghost use Rattle.std.specs.Prelude.{◌≡◌, ◌≢◌, ◌≤◌, ◌+◌, IfOk, IfErr, IfNone, IfSome, length, take, vec_len};
ghost use Rattle.std.specs.IoError.{error_kind};
ghost use Rattle.std.specs.Io.KnownBytes.{ReadConsumes};
ghost use Rattle.devices.specs.Inputs.{IsWithin, IsBehindBreak, counted};

use memchr::memrchr2;
use std::alloc::{AllocError, Global};
use std::io::{ErrorKind, Read, Seek, SeekFrom};
use std::{fs, io};

/// How far a file may go on.
#[derive(Clone, Copy, Debug)]
pub struct Bounds {
    /// How many bytes it may have.
    pub whole: u64,
    /// How many of them without a line break.
    pub line: u64,
}

/// Of a table's file: 64 GiB, and 64 MiB without a line break.
pub const TABLE_BOUNDS: Bounds = Bounds {
    whole: 68_719_476_736,
    line: 67_108_864,
};

/// Of any other file: 256 MiB.
pub const FILE_BOUNDS: Bounds = Bounds {
    whole: 268_435_456,
    line: 268_435_456,
};

/// Why a file was not read to its end.
#[derive(Debug, Drop)]
pub enum ReadFailure {
    System(io::Error),
    /// It has more bytes than these.
    TooLong(u64),
    /// It has more bytes than these without a line break.
    LongLine(u64),
}

impl ReadFailure {
    /// Whether memory ran out, here or in the system.
    pub fn is_memory(&self) -> bool {
        match self {
            ReadFailure::System(error) => error.kind() == ErrorKind::OutOfMemory,
            ReadFailure::TooLong(_) | ReadFailure::LongLine(_) => false,
        }
    }
}

impl From<ReadFailure> for io::Error {
    fn from(failure: ReadFailure) -> io::Error {
        match failure {
            ReadFailure::System(error) => error,
            ReadFailure::TooLong(_) | ReadFailure::LongLine(_) => {
                io::Error::from(ErrorKind::FileTooLarge)
            }
        }
    }
}

impl From<io::Error> for ReadFailure {
    fn from(error: io::Error) -> ReadFailure {
        ReadFailure::System(error)
    }
}

/// One read, tried again where a signal interrupted it.
fn read_uninterrupted<R: Read>(reader: &mut R, buffer: &mut [u8]) -> io::Result<usize>
    ensures bound { IfOk result (λ n. n ≤ length buffer.new) }
    ensures bytes { ReadConsumes (R.remaining reader.old) (R.remaining reader.new) result buffer.new }
    ensures retried { IfErr result (λ e. error_kind e ≢ ErrorKind.Interrupted) }
{
    for _ in 0..u64::MAX {
        match reader.read(buffer) {
            Ok(count) => return Ok(count),
            Err(error) => {
                if error.kind() != ErrorKind::Interrupted {
                    return Err(error);
                }
            }
        }
    }
    Err(io::Error::from(ErrorKind::TimedOut))
}

/// The bytes behind the last line break: of these, behind so many.
fn bytes_behind_break(before: u64, bytes: &[u8]) -> u64
    ensures { IsBehindBreak before bytes.now result }
{
    match memrchr2(b'\n', b'\r', bytes) {
        Some(last) => (bytes.len() - 1 - last) as u64,
        None => before.saturating_add(bytes.len() as u64),
    }
}

/// A reader within bounds.
#[derive(Drop)]
pub struct BoundedReader<R> {
    reader: R,
    bounds: Bounds,
    /// How many bytes it gave.
    bytes: u64,
    /// How many of them stand behind the last line break.
    behind: u64,
}

impl<R: Read> BoundedReader<R> {
    pub fn new(reader: R, bounds: Bounds) -> BoundedReader<R>
        ensures { result ≡ record { reader = reader; bounds = bounds; bytes = 0; behind = 0 } }
    {
        BoundedReader {
            reader,
            bounds,
            bytes: 0,
            behind: 0,
        }
    }

    /// How many bytes it gave.
    pub fn byte_count(&self) -> u64
        ensures { result ≡ self.now.bytes }
    {
        self.bytes
    }

    /// The bound that was passed, if one was.
    fn passed(&self) -> Option<ReadFailure>
        ensures { IfNone result (IsWithin self.now.bounds self.now.bytes self.now.behind) }
    {
        if self.bytes > self.bounds.whole {
            return Some(ReadFailure::TooLong(self.bounds.whole));
        }
        if self.behind > self.bounds.line {
            return Some(ReadFailure::LongLine(self.bounds.line));
        }
        None
    }

    /// Reads some bytes. What passes a bound is told by the next call, so that no byte is lost.
    pub fn read_some(&mut self, buffer: &mut [u8]) -> Result<usize, ReadFailure>
        ensures bound { IfOk result (λ n. n ≤ length buffer.new) }
        ensures bytes { ReadConsumes (R.remaining self.old.reader) (R.remaining self.new.reader) result buffer.new }
        ensures bounds { self.new.bounds ≡ self.old.bounds }
        ensures within { IfOk result (λ _. IsWithin self.old.bounds self.old.bytes self.old.behind) }
        ensures counted { IfOk result (λ n. self.new.bytes ≡ counted (self.old.bytes + n)) }
        ensures behind { IfOk result (λ n. IsBehindBreak self.old.behind (take n buffer.new) self.new.behind) }
    {
        if let Some(failure) = self.passed() {
            return Err(failure);
        }
        let count = read_uninterrupted(&mut self.reader, buffer)?;
        self.bytes = self.bytes.saturating_add(count as u64);
        self.behind = bytes_behind_break(self.behind, &buffer[..count]);
        Ok(count)
    }
}

impl<R: Read> Read for BoundedReader<R> {
    ghost remaining = { λ r. R.remaining r.reader };

    fn read(&mut self, buffer: &mut [u8]) -> io::Result<usize> {
        Ok(self.read_some(buffer)?)
    }
}

/// From where it goes on, the bytes count anew.
impl<R: Seek> Seek for BoundedReader<R> {
    fn seek(&mut self, to: SeekFrom) -> io::Result<u64> {
        let at = self.reader.seek(to)?;
        self.bytes = 0;
        self.behind = 0;
        Ok(at)
    }
}

/// All bytes of a reader.
fn read_whole<R: Read + Drop>(alloc: Global, reader: R) -> Result<Vec<u8>, ReadFailure>
    ensures bytes { IfOk result (λ v. IfSome (R.remaining reader) (λ xs. v.items ≡ xs)) }
    ensures bounded { IfOk result (λ v. vec_len v ≤ FILE_BOUNDS.whole) }
{
    let mut reader = BoundedReader::new(reader, FILE_BOUNDS);
    let mut bytes = Vec::new(alloc);
    let mut buffer = [0u8; 65_536];
    for _ in 0..u64::MAX {
        let count = reader.read_some(&mut buffer)?;
        if count == 0 {
            return Ok(bytes);
        }
        if bytes.extend_from_slice(&buffer[..count]).is_err() {
            return Err(ReadFailure::System(io::Error::from(AllocError)));
        }
    }
    // No file of so many reads is within its bound.
    Err(ReadFailure::TooLong(FILE_BOUNDS.whole))
}

/// All bytes of a file.
pub fn read_file(rt: &HostRuntime, path: &str) -> Result<Vec<u8>, ReadFailure>
    ensures { IfOk result (λ v. vec_len v ≤ FILE_BOUNDS.whole) }
{
    read_whole(rt.alloc(), fs::open(rt, path)?)
}
