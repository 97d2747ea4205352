//! The clock by which plans are measured.

use pipeline::Stopwatch;
use std::time::Instant;

/// The time since it was made. Where the machine has no clock it stands still.
#[derive(Drop)]
pub struct Clock<'a> {
    rt: &'a HostRuntime,
    start: Option<Instant>,
}

impl<'a> Clock<'a> {
    pub fn new(rt: &'a HostRuntime) -> Clock<'a> {
        Clock {
            rt,
            start: Instant::now(rt).ok(),
        }
    }
}

impl Stopwatch for Clock<'_> {
    fn microseconds(&mut self) -> u64 {
        let Some(start) = self.start else {
            return 0;
        };
        match start.elapsed(self.rt) {
            Ok(elapsed) => u64::try_from(elapsed.as_micros()).unwrap_or(u64::MAX),
            Err(_) => 0,
        }
    }
}
