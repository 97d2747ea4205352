//! Clocks.

/// Tells the time. Nothing is said of what it tells.
pub trait Stopwatch {
    /// Microseconds since some moment that stays the same.
    fn microseconds(&mut self) -> u64;
}
