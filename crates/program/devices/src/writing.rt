//! Files that are written whole.

use crate::limits::size_limit;
use crate::room::Room;
use std::fs::File;
use std::io::{ErrorKind, Write};
use std::{fs, io};

/// How many bytes a file may have that the program writes; nothing where that is unlimited.
pub(crate) fn file_limit(rt: &HostRuntime) -> Option<u64> {
    size_limit(fs::read_to_string(rt, "/proc/self/limits").ok()?.as_str())
}

/// The room that a file has from its front. Nothing binds what is no regular file.
fn room_of(rt: &HostRuntime, file: &File) -> Room {
    let Ok(metadata) = file.metadata() else {
        return Room::Endless;
    };
    match file_limit(rt) {
        Some(limit) if metadata.is_file() => Room::behind(0, limit),
        _ => Room::Endless,
    }
}

/// Writes all bytes to a file that is new or was emptied. Where it would pass the limit on the size of files nothing is written, and that fails, as to a full
/// device.
pub fn write_file(rt: &HostRuntime, file: &mut File, bytes: &[u8]) -> io::Result<()> {
    if room_of(rt, file).most_of(bytes.len()) < bytes.len() {
        return Err(io::Error::from(ErrorKind::FileTooLarge));
    }
    file.write_all(bytes)
}
