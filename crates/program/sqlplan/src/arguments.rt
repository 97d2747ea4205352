//! The words of the command line.

use crate::stop::Stop;
use devices::StandardStream;
use std::env;
use std::io::{ErrorKind, Write};
use std::rt::Env;
use words::quoted;

/// How many bytes the system lets an argument have, with the zero that ends it.
const LONGEST_ARGUMENT: usize = 131_072;

/// Says the first argument that isn't UTF-8.
fn say_unreadable(rt: &HostRuntime) -> Result<(), Stop> {
    let mut error = StandardStream::error(rt);
    let mut buffer = vec![in rt.alloc(); 0u8; LONGEST_ARGUMENT]?;
    for place in 0..usize::MAX {
        let Ok(length) = rt.arg(place, buffer.as_mut_slice()) else {
            let _ = error.write_all(b"error: an argument is not UTF-8\n");
            break;
        };
        let bytes = &buffer.as_slice()[..length];
        if str::from_utf8(bytes).is_err() {
            let spelling = quoted(rt.alloc(), bytes)?;
            let line = format!(in rt.alloc();
                "error: argument {place} is not UTF-8: {spelling}\n"
            )?;
            let _ = error.write_all(line.as_bytes());
            break;
        }
    }
    Ok(())
}

/// The program's name and the arguments, all of them UTF-8: no other path can be opened. What isn't is said on standard error.
pub fn arguments(rt: &HostRuntime) -> Result<Vec<String>, Stop> {
    match env::args(rt) {
        Ok(words) => Ok(words.collect(rt.alloc())?),
        Err(error) => {
            if error.kind() != ErrorKind::InvalidData {
                return Err(Stop::Memory);
            }
            say_unreadable(rt)?;
            Err(Stop::Usage)
        }
    }
}
