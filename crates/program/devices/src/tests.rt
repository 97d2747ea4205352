//! Each function called with ample memory.

use crate::limits::{next_byte, size_limit};
use crate::standard::finds_no_reader;
use crate::{
    BoundedReader, Bounds, ReadFailure, Room, StandardStream, read_file, write_file, write_within,
};
use std::io::{Cursor, ErrorKind, Read, Seek, SeekFrom, Write};
use std::test::Fail;
use std::{fs, io};

/// The first lines of /proc/self/limits, under `ulimit -f 3`.
const LIMITS: &str = "\
Limit                     Soft Limit           Hard Limit           Units     
Max cpu time              unlimited            unlimited            seconds   
Max file size             3072                 unlimited            bytes     
Max data size             unlimited            unlimited            bytes     
";

/// The same without a limit.
const UNLIMITED: &str = "\
Limit                     Soft Limit           Hard Limit           Units     
Max cpu time              unlimited            unlimited            seconds   
Max file size             unlimited            unlimited            bytes     
";

#[test]
fn limits_are_read(rt: HostRuntime) {
    assert_eq!(rt; size_limit(LIMITS), Some(3_072));
    assert_eq!(rt; size_limit(UNLIMITED), None);
    assert_eq!(rt; size_limit(""), None);
    assert_eq!(rt; size_limit("Max file size"), None);
}

#[test]
fn files_are_written_at_their_place_or_their_end(rt: HostRuntime) {
    assert_eq!(rt;
        next_byte("pos:\t20\nflags:\t0100001\nmnt_id:\t27\n", 300),
        Some(20)
    );
    assert_eq!(rt;
        next_byte("pos:\t20\nflags:\t0102001\nmnt_id:\t27\n", 300),
        Some(300)
    );
    assert_eq!(rt; next_byte("pos:\t20\n", 300), None);
    assert_eq!(rt; next_byte("flags:\t0100001\n", 300), None);
}

/// How many of four bytes are written where there is such room, with what was written.
fn written(rt: &HostRuntime, room: Room, wanted: &str) -> bool {
    let mut writer = Vec::new(rt.alloc());
    match write_within(&mut writer, room, b"abcd") {
        Ok(count) => count == wanted.len() && writer.as_slice() == wanted.as_bytes(),
        Err(error) => {
            error.kind() == ErrorKind::FileTooLarge && wanted.is_empty() && writer.is_empty()
        }
    }
}

#[test]
fn writes_stay_within_the_room(rt: HostRuntime) {
    assert!(rt; written(&rt, Room::Endless, "abcd"));
    assert!(rt; written(&rt, Room::behind(7, 9), "ab"));
    assert!(rt; written(&rt, Room::behind(9, 7), ""));
    assert!(rt; written(&rt, Room::Bytes(u64::MAX), "abcd"));
    assert!(rt; written(&rt, Room::Bytes(4), "abcd"));
    assert!(rt; written(&rt, Room::Bytes(3), "abc"));
    assert!(rt; written(&rt, Room::Bytes(0), ""));
    let mut writer = Vec::new(rt.alloc());
    assert!(rt; write_within(&mut writer, Room::Bytes(0), b"").is_ok());
}

#[test]
fn streams_take_nothing(rt: HostRuntime) -> Result<(), Fail> {
    let mut output = StandardStream::output(&rt);
    assert_eq!(rt; output.write(b"")?, 0);
    output.flush()?;
    let mut error = StandardStream::error(&rt);
    assert_eq!(rt; error.write(b"")?, 0);
    assert!(rt; !output.is_broken_pipe() && !error.is_broken_pipe());
    Ok(())
}

#[test]
fn pipes_are_broken_by_their_readers_alone(rt: HostRuntime) {
    assert!(rt; finds_no_reader(&Err(io::Error::from_raw_os_error(32))));
    assert!(rt; !finds_no_reader(&Err(io::Error::from_raw_os_error(28))));
    assert!(rt; !finds_no_reader(&Err(io::Error::from(ErrorKind::FileTooLarge))));
    assert!(rt; !finds_no_reader(&Ok(0)));
}

/// How a text ends that is read within small bounds, two bytes at a time.
#[derive(Clone, Copy, Debug, PartialEq, Eq)]
enum End {
    Whole,
    TooLong,
    LongLine,
    Other,
}

fn end_of(text: &str) -> End {
    let mut reader = BoundedReader::new(text.as_bytes(), Bounds { whole: 6, line: 3 });
    let mut buffer = [0u8; 2];
    for _ in 0..u64::MAX {
        match reader.read_some(&mut buffer) {
            Ok(0) if reader.byte_count() == text.len() as u64 => return End::Whole,
            Ok(0) => return End::Other,
            Ok(_) => {}
            Err(ReadFailure::TooLong(6)) => return End::TooLong,
            Err(ReadFailure::LongLine(3)) => return End::LongLine,
            Err(_) => return End::Other,
        }
    }
    End::Other
}

#[test]
fn files_are_read_within_bounds(rt: HostRuntime) {
    assert_eq!(rt; end_of(""), End::Whole);
    assert_eq!(rt; end_of("abc\nde"), End::Whole);
    assert_eq!(rt; end_of("abcd\ne"), End::LongLine);
    assert_eq!(rt; end_of("ab\ncd\re"), End::TooLong);
}

/// A file that is read again from its front has its bounds anew.
#[test]
fn files_are_read_again(rt: HostRuntime) -> Result<(), Fail> {
    let file = Cursor::new(b"abcdefgh");
    let mut reader = BoundedReader::new(file, Bounds { whole: 6, line: 6 });
    let mut buffer = [0u8; 8];
    assert_eq!(rt; reader.read(&mut buffer)?, 8);
    match reader.read(&mut buffer) {
        Ok(_) => assert!(rt; false),
        Err(error) => assert_eq!(rt; error.kind(), ErrorKind::FileTooLarge),
    }
    reader.seek(SeekFrom::Start(6))?;
    assert_eq!(rt; reader.read(&mut buffer)?, 2);
    Ok(())
}

#[test]
fn files_are_read_whole(rt: HostRuntime) {
    match read_file(&rt, "/proc/self/limits") {
        Ok(bytes) => assert!(rt; bytes.as_slice().starts_with(b"Limit")),
        Err(_) => assert!(rt; false),
    }
    match read_file(&rt, "/proc/self/none") {
        Ok(_) => assert!(rt; false),
        Err(failure) => assert!(rt; !failure.is_memory()),
    }
}

#[test]
fn files_are_written_whole(rt: HostRuntime) -> Result<(), Fail> {
    let mut file = fs::create(&rt, "/dev/null")?;
    write_file(&rt, &mut file, b"abcd")?;
    Ok(())
}
