//! Where an answer goes.

ghost use Rattle.std.specs.Prelude.{◌≡◌, ◌≤◌, ◌<◌, ℕ, List, [], Option, None, take, length, IfOk, OnOk, OnErr};
ghost use Rattle.std.specs.Io.Buffered.{writer_buffer, writer_contents};
ghost use Rattle.std.specs.Io.KnownBytes.{Appends, Keeps, WriteAppends};
ghost use Rattle.store.specs.Devices.{Counts, Rose, one_more};

use std::io::{BufWriter, Write};
use thiserror::Error;

/// A write to the output failed.
#[derive(Clone, Copy, Debug, PartialEq, Eq, Drop, Error)]
#[error("the output failed")]
pub struct OutputFailed;

/// A writer that counts its calls that failed. A count of 2^64 - 1 stays.
pub trait AnswerOutput {
    /// The bytes that it holds, where they are known.
    ghost contents: { Self → Option (List ℕ) } = { λ _. None };

    /// The bytes that it took and holds back, as a buffer does.
    ghost held: { Self → List ℕ };

    /// How many calls failed.
    ghost failures: { Self → ℕ };

    /// Writes some of the bytes from the front, and says how many. To take none of them is to fail.
    fn write_some(&mut self, bytes: &[u8]) -> Result<usize, OutputFailed>
        requires { 0 < length bytes.now }
        ensures some { IfOk result (λ n. (0 < n) × (n ≤ length bytes.now)) }
        ensures bytes { WriteAppends (contents self.old) (contents self.new) result bytes.now }
        ensures counts { Counts result (failures self.old) (failures self.new) };

    /// Hands on what it holds back.
    fn flush_all(&mut self) -> Result<(), OutputFailed>
        ensures bytes { Keeps (contents self.old) (contents self.new) }
        ensures handed { OnOk result (held self.new ≡ []) }
        ensures counts { Counts result (failures self.old) (failures self.new) };
}

/// A writer of std, with a count of its failures.
#[derive(Drop)]
pub struct CountedOutput<W> {
    writer: W,
    failures: u64,
}

impl<W: Write> CountedOutput<W> {
    pub fn new(writer: W) -> CountedOutput<W>
        ensures writer { result.writer ≡ writer }
        ensures failures { result.failures ≡ 0 }
    {
        CountedOutput {
            writer,
            failures: 0,
        }
    }

    pub fn into_inner(self) -> W
        ensures { result ≡ self.writer }
    {
        self.writer
    }

    fn fail(&mut self) -> OutputFailed
        ensures failures { self.new.failures ≡ one_more self.old.failures }
        ensures writer { self.new.writer ≡ self.old.writer }
    {
        self.failures = self.failures.saturating_add(1);
        OutputFailed
    }
}

impl<W: Write + Drop> AnswerOutput for CountedOutput<BufWriter<W>> {
    ghost contents = { λ c. writer_contents W.contents c.writer };

    ghost held = { λ c. writer_buffer c.writer };

    ghost failures = { λ c. c.failures };

    fn write_some(&mut self, bytes: &[u8]) -> Result<usize, OutputFailed> {
        if let Ok(n) = self.writer.write(bytes) {
            if n > 0 {
                return Ok(n);
            }
        }
        Err(self.fail())
    }

    fn flush_all(&mut self) -> Result<(), OutputFailed> {
        if self.writer.flush().is_ok() {
            return Ok(());
        }
        Err(self.fail())
    }
}

/// Writes all bytes.
pub fn send<W: AnswerOutput>(out: &mut W, bytes: &[u8]) -> Result<(), OutputFailed>
    ensures ok { OnOk result (Appends (W.contents out.old) (W.contents out.new) bytes.now) }
    ensures quiet { OnOk result (W.failures out.new ≡ W.failures out.old) }
    ensures front { OnErr result ((n : ℕ) × Appends (W.contents out.old) (W.contents out.new) (take n bytes.now)) }
    ensures device { OnErr result (Rose (W.failures out.old) (W.failures out.new)) }
{
    let mut sent = 0;
    while sent < bytes.len() {
        sent += out.write_some(&bytes[sent..])?;
    }
    Ok(())
}
