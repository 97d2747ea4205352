//! Why the program stops early, and what it says.

ghost use Rattle.std.specs.Prelude.{◌≡◌, ◌++◌, ℕ, List, codes, string_bytes, IfOk};
ghost use Rattle.std.specs.Option.{option_copied};
ghost use Rattle.pipeline.specs.Lines.{line_of};
ghost use Rattle.pipeline.specs.Refusals as refusals;
ghost use Rattle.sqlplan.specs.Stops as spec;
ghost use Rattle.words.specs.Spelling.{spelled as path_text};

use devices::{ReadFailure, StandardStream};
use pipeline::{Refusal, fault_line};
use schema::Schema;
use std::alloc::{AllocError, AllocFailed, Global};
use std::io;
use std::io::Write;
use words::spelled;

/// Why the program stops early.
#[derive(Debug, Drop)]
pub enum Stop {
    /// The command line was reported to be wrong.
    Usage,
    Memory,
    /// Nobody reads standard output any more. Nothing is said, as of a filter that a signal ends there.
    BrokenPipe,
    /// A line to say, the exit status, and what else is said.
    Line(String, u8, Wording),
}

/// What is said of a refusal besides its line.
#[derive(Debug, Drop)]
pub enum Wording {
    /// Lines behind it, if there are any.
    Behind(String),
    /// A line in its place.
    Instead(String),
}

fn device_line(alloc: Global, path: &str) -> Result<String, AllocError>
    ensures { IfOk result (λ line. string_bytes line ≡ codes "device " ++ path_text path.now) }
{
    let spelling = spelled(alloc, path)?;
    format!(in alloc; "device {spelling}")
}

impl Stop {
    /// The stop of a refusal. The schema names the table of a table's fault.
    pub fn of_refusal(alloc: Global, refusal: &Refusal, schema: Option<&Schema>) -> Stop
        ensures { spec.Says (line_of (option_copied schema.entry) refusal.now) (refusals.status_of refusal.now) result }
    {
        match fault_line(alloc, refusal, schema) {
            Ok(line) => { Stop::Line(line, refusal.status(), Wording::Behind(String::new(alloc))) }
            Err(AllocError) => Stop::Memory,
        }
    }

    /// The stop of a file that can't be opened or read.
    pub fn of_file(alloc: Global, path: &str, failure: &ReadFailure) -> Stop
        ensures { spec.SaysFile path.now result }
    {
        if failure.is_memory() {
            return Stop::Memory;
        }
        match device_line(alloc, path) {
            Ok(line) => Stop::Line(line, 3, Wording::Behind(String::new(alloc))),
            Err(AllocError) => Stop::Memory,
        }
    }

    /// Says the line on standard error, and the words behind it or in its place. That it can't be said changes nothing.
    pub fn report(&self, rt: &HostRuntime) {
        let mut error = StandardStream::error(rt);
        let _ = match self {
            Stop::Usage | Stop::BrokenPipe => Ok(()),
            Stop::Memory => error.write_all(b"memory\n"),
            Stop::Line(_, _, Wording::Instead(line)) => writeln!(error, "{line}"),
            Stop::Line(line, _, Wording::Behind(words)) => {
                match format!(in rt.alloc(); "{line}\n{words}") {
                    Ok(text) => error.write_all(text.as_bytes()),
                    // Without memory for one text the line alone is said.
                    Err(AllocError) => writeln!(error, "{line}"),
                }
            }
        };
    }

    /// The same stop, worded so.
    pub fn with_wording(self, wording: Wording) -> Stop
        ensures { (line : List ℕ) (status : ℕ) → spec.Says line status self → spec.Says line status result }
    {
        match self {
            Stop::Usage => Stop::Usage,
            Stop::Memory => Stop::Memory,
            Stop::BrokenPipe => Stop::BrokenPipe,
            Stop::Line(line, status, _) => Stop::Line(line, status, wording),
        }
    }

    pub fn status(&self) -> u8
        ensures { result ≡ spec.status_of self.now }
    {
        match self {
            Stop::Usage => 2,
            Stop::Memory => 3,
            Stop::BrokenPipe => 141,
            Stop::Line(_, status, _) => *status,
        }
    }
}

impl From<AllocError> for Stop {
    ghost use Rattle.sqlplan.specs.declared.stop.Stop.TheVariants.{Memory};

    ghost from_gives = { λ _ stop. stop ≡ Memory };

    fn from(_error: AllocError) -> Stop {
        Stop::Memory
    }
}

impl<T: Drop> From<AllocFailed<T>> for Stop {
    ghost use Rattle.sqlplan.specs.declared.stop.Stop.TheVariants.{Memory};

    ghost from_gives = { λ _ stop. stop ≡ Memory };

    fn from(_error: AllocFailed<T>) -> Stop {
        Stop::Memory
    }
}

/// What std's calls fail with here: running out of memory.
impl From<io::Error> for Stop {
    ghost use Rattle.sqlplan.specs.declared.stop.Stop.TheVariants.{Memory};

    ghost from_gives = { λ _ stop. stop ≡ Memory };

    fn from(_error: io::Error) -> Stop {
        Stop::Memory
    }
}
