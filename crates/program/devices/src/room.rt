//! Writes within the room that a file still has.

ghost use Rattle.std.specs.Prelude.{◌≡◌, ◌≤◌, ◌<◌, ◌-◌, length, IfOk};
ghost use Rattle.std.specs.Io.KnownBytes.{WriteAppends};
ghost use Rattle.devices.specs.Rooms.{most_of};

use std::io;
use std::io::{ErrorKind, Write};

/// How many bytes a device may still take.
#[derive(Clone, Copy, Debug, PartialEq, Eq)]
pub enum Room {
    /// As many as there are.
    Endless,
    /// So many.
    Bytes(u64),
}

impl Room {
    /// That of a file which may have so many bytes and is written next at this one.
    pub fn behind(place: u64, limit: u64) -> Room
        ensures { result ≡ Room.Bytes (limit - place) }
    {
        Room::Bytes(limit.saturating_sub(place))
    }

    /// How many of so many bytes there is room for.
    pub fn most_of(self, count: usize) -> usize
        ensures { result ≡ most_of self count }
    {
        match self {
            Room::Endless => count,
            Room::Bytes(room) => (count as u64).min(room) as usize,
        }
    }
}

/// One write, of as many bytes from the front as there is room for. Where there is room for none it fails, and nothing is asked of the writer:
/// the system would end the program there.
pub fn write_within<W: Write>(writer: &mut W, room: Room, bytes: &[u8]) -> io::Result<usize>
    ensures within { IfOk result (λ n. n ≤ most_of room (length bytes.now)) }
    ensures bytes { WriteAppends (W.contents writer.old) (W.contents writer.new) result bytes.now }
    ensures full { most_of room (length bytes.now) ≡ 0 → 0 < length bytes.now → IfOk result (λ _. ⊥) × (writer.new ≡ writer.old) }
{
    let most = room.most_of(bytes.len());
    if most == 0 && !bytes.is_empty() {
        return Err(io::Error::from(ErrorKind::FileTooLarge));
    }
    writer.write(&bytes[..most])
}
