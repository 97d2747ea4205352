//! Lines on standard error that say how far long work is.

ghost use Rattle.std.specs.Prelude.{◌≡◌, ◌↔◌, IsTrue};
ghost use Rattle.console.specs.Progress.{IsDue};

use answer_text::{AnswerOutput, OutputFailed};
use devices::StandardStream;
use std::cell::Cell;
use std::fmt::Display;
use std::io::{IsTerminal, Write};
use std::time::Instant;

/// So many milliseconds lie between two lines, at least.
const PAUSE: u64 = 2_000;

/// Whether a line is due, by the milliseconds of the clock now and at the last line. The first one waits too, unless it may come at once.
fn is_due(now: u64, last: Option<u64>, at_once: bool) -> bool
    ensures { IsTrue result ↔ IsDue now last at_once }
{
    match last {
        Some(last) => now.saturating_sub(last) >= PAUSE,
        None => at_once || now >= PAUSE,
    }
}

/// What says how far the work is, where lines are wanted.
#[derive(Drop)]
pub struct Progress<'a> {
    rt: &'a HostRuntime,
    /// Whether lines were asked for.
    asked: bool,
    start: Instant,
    /// The milliseconds from the start to the last line.
    last: Cell<Option<u64>>,
}

impl<'a> Progress<'a> {
    /// Lines are wanted where they are asked for, or standard error is a terminal. Without a clock there are none.
    pub fn new(rt: &'a HostRuntime, asked: bool) -> Option<Progress<'a>> {
        if !asked && !rt.stderr().is_terminal() {
            return None;
        }
        match Instant::now(rt) {
            Ok(start) => Some(Progress {
                rt,
                asked,
                start,
                last: Cell::new(None),
            }),
            Err(_) => None,
        }
    }

    /// The seconds since the start, where a line is due. It then counts as said.
    fn due(&self, at_once: bool) -> Option<u64> {
        let Ok(elapsed) = self.start.elapsed(self.rt) else {
            return None;
        };
        let now = u64::try_from(elapsed.as_millis()).unwrap_or(u64::MAX);
        if !is_due(now, self.last.get(), at_once) {
            return None;
        }
        self.last.set(Some(now));
        Some(elapsed.as_secs())
    }

    /// Says a line on standard error. That it can't be said changes nothing.
    fn say<D: Display + Drop>(&self, line: D) {
        if let Ok(text) = format!(in self.rt.alloc(); "{line}\n") {
            let _ = StandardStream::error(self.rt).write_all(text.as_bytes());
        }
    }

    /// Says how many bytes of a table's file have been read, and of how many where that is known. What is read is parsed.
    pub fn reading(&self, table: &str, bytes: u64, size: Option<u64>) {
        let Some(seconds) = self.due(false) else {
            return;
        };
        match size {
            Some(size) => {
                self.say(format_args!(
                    "progress table {table} {bytes} of {size} bytes {seconds} s"
                ));
            }
            None => self.say(format_args!("progress table {table} {bytes} bytes {seconds} s")),
        }
    }

    /// Says that the last table's file has been read. What was asked for is said even where that took no time: what follows may.
    pub fn tables_read(&self) {
        if let Some(seconds) = self.due(self.asked) {
            self.say(format_args!("progress tables read {seconds} s"));
        }
    }

    /// Says how many rows of the answer have been written.
    fn writing(&self, rows: u64) {
        if let Some(seconds) = self.due(false) {
            self.say(format_args!("progress answer {rows} rows {seconds} s"));
        }
    }
}

/// How many records of a text have gone by, piece by piece.
#[derive(Clone, Copy)]
struct RecordCount {
    records: u64,
    /// Whether the pieces so far end within a quoted field.
    quoted: bool,
}

impl RecordCount {
    fn count(&mut self, text: &[u8]) {
        for byte in text {
            if *byte == b'"' {
                self.quoted = !self.quoted;
            } else if *byte == b'\n' && !self.quoted {
                self.records = self.records.saturating_add(1);
            }
        }
    }

    /// The records behind the header.
    fn rows(self) -> u64 {
        self.records.saturating_sub(1)
    }
}

/// An output that says how far the answer is.
#[derive(Drop)]
pub struct WatchedOutput<'a, W> {
    output: W,
    count: RecordCount,
    progress: Option<&'a Progress<'a>>,
}

impl<'a, W: AnswerOutput> WatchedOutput<'a, W> {
    pub fn new(output: W, progress: Option<&'a Progress<'a>>) -> WatchedOutput<'a, W>
        ensures { result.output ≡ output }
    {
        WatchedOutput {
            output,
            count: RecordCount {
                records: 0,
                quoted: false,
            },
            progress,
        }
    }

    /// The output that it watches.
    pub fn into_inner(self) -> W
        ensures { result ≡ self.entry.output }
    {
        self.output
    }
}

impl<W: AnswerOutput> AnswerOutput for WatchedOutput<'_, W> {
    ghost contents = { λ o. W.contents o.output };

    ghost held = { λ o. W.held o.output };

    ghost failures = { λ o. W.failures o.output };

    fn write_some(&mut self, bytes: &[u8]) -> Result<usize, OutputFailed> {
        let count = self.output.write_some(bytes)?;
        if let Some(progress) = self.progress {
            self.count.count(&bytes[..count]);
            progress.writing(self.count.rows());
        }
        Ok(count)
    }

    fn flush_all(&mut self) -> Result<(), OutputFailed> {
        self.output.flush_all()
    }
}
