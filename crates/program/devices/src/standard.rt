//! Standard output and standard error.

ghost use Rattle.std.specs.Prelude.{◌≡◌, ◌↔◌, ◌⊎◌, false, IsTrue};
ghost use Rattle.std.specs.Io.{WritesAtMost};
ghost use Rattle.devices.specs.Streams.{FindsNoReader};

use crate::limits::next_byte;
use crate::room::{Room, write_within};
use crate::writing::file_limit;
use std::io::{ErrorKind, Write};
use std::{fs, io};

/// Which of the program's streams.
#[derive(Clone, Copy, Debug)]
enum Stream {
    Output,
    Error,
}

impl Stream {
    /// The file that it is.
    fn path(self) -> &'static str {
        match self {
            Stream::Output => "/proc/self/fd/1",
            Stream::Error => "/proc/self/fd/2",
        }
    }

    /// What the system says of its descriptor.
    fn descriptor_path(self) -> &'static str {
        match self {
            Stream::Output => "/proc/self/fdinfo/1",
            Stream::Error => "/proc/self/fdinfo/2",
        }
    }
}

/// How many bytes a stream's file may have. Nothing binds what is no regular file.
fn limit_of(rt: &HostRuntime, stream: Stream) -> Option<u64> {
    let limit = file_limit(rt)?;
    let is_file = fs::metadata(rt, stream.path()).ok()?.is_file();
    is_file.then_some(limit)
}

/// At which byte a stream's file is written next.
fn place_of(rt: &HostRuntime, stream: Stream) -> Option<u64> {
    let length = fs::metadata(rt, stream.path()).ok()?.len();
    let descriptor = fs::read_to_string(rt, stream.descriptor_path()).ok()?;
    next_byte(descriptor.as_str(), length)
}

/// Whether a write failed since nobody reads any more what is written to a pipe.
pub(crate) fn finds_no_reader(outcome: &io::Result<usize>) -> bool
    ensures { IsTrue result ↔ FindsNoReader outcome.now }
{
    match outcome {
        Ok(_) => false,
        Err(error) => error.kind() == ErrorKind::BrokenPipe,
    }
}

/// Standard output or standard error. Where it is a file that would pass the limit on the size of files, a write fails, as to a full device: one that
/// was asked for there would have the system end the program by a signal. So does one to a pipe that nobody reads any more, and that is remembered.
#[derive(Drop)]
pub struct StandardStream<'a> {
    rt: &'a HostRuntime,
    stream: Stream,
    /// How many bytes its file may have, if that is bound.
    limit: Option<u64>,
    /// Whether a write found that nobody reads any more.
    is_broken: bool,
}

impl<'a> StandardStream<'a> {
    fn of(rt: &'a HostRuntime, stream: Stream) -> StandardStream<'a>
        ensures { result.is_broken ≡ false }
    {
        StandardStream {
            rt,
            stream,
            limit: limit_of(rt, stream),
            is_broken: false,
        }
    }

    pub fn output(rt: &'a HostRuntime) -> StandardStream<'a>
        ensures { result.is_broken ≡ false }
    {
        StandardStream::of(rt, Stream::Output)
    }

    pub fn error(rt: &'a HostRuntime) -> StandardStream<'a>
        ensures { result.is_broken ≡ false }
    {
        StandardStream::of(rt, Stream::Error)
    }

    /// Whether it is a pipe that nobody reads any more, as a write found.
    pub fn is_broken_pipe(&self) -> bool
        ensures { result ≡ self.now.is_broken }
    {
        self.is_broken
    }

    /// The room that its file has now: other writes may have gone there, as those of the other stream.
    fn room(&self) -> Room {
        let Some(limit) = self.limit else {
            return Room::Endless;
        };
        match place_of(self.rt, self.stream) {
            Some(place) => Room::behind(place, limit),
            None => Room::Endless,
        }
    }

    /// One write, within the room.
    fn handed_on(&self, bytes: &[u8]) -> io::Result<usize>
        ensures { WritesAtMost result bytes.now }
    {
        let room = self.room();
        match self.stream {
            Stream::Output => write_within(&mut self.rt.stdout(), room, bytes),
            Stream::Error => write_within(&mut self.rt.stderr(), room, bytes),
        }
    }

    /// The same, of which is remembered whether it found no reader.
    fn write_once(&mut self, bytes: &[u8]) -> io::Result<usize>
        ensures bound { WritesAtMost result bytes.now }
        ensures broken { IsTrue self.new.is_broken ↔ (IsTrue self.old.is_broken ⊎ FindsNoReader result) }
    {
        let outcome = self.handed_on(bytes);
        if finds_no_reader(&outcome) {
            self.is_broken = true;
        }
        outcome
    }
}

impl Write for StandardStream<'_> {
    fn write(&mut self, bytes: &[u8]) -> io::Result<usize> {
        self.write_once(bytes)
    }

    fn flush(&mut self) -> io::Result<()> {
        Ok(())
    }
}
