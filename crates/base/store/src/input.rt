//! Where a table's bytes come from.

ghost use Rattle.std.specs.Prelude.{◌≡◌, ◌≤◌, ℕ, List, Option, None, IfOk, length};
ghost use Rattle.std.specs.Io.KnownBytes.{ReadConsumes};
ghost use Rattle.store.specs.Devices.{Counts};

use std::io::Read;

/// A call of the device failed.
#[derive(Clone, Copy, Debug)]
pub struct DeviceFailed;

/// A reader that counts the calls that failed.
pub trait TableInput {
    // The bytes that reads will give from here on, where they are known.
    ghost remaining: { Self → Option (List ℕ) } = { λ _. None };

    // How many calls failed, up to the largest count.
    ghost failures: { Self → ℕ };

    fn read_some(&mut self, buffer: &mut [u8]) -> Result<usize, DeviceFailed>
        ensures bound { IfOk result (λ n. n ≤ length buffer.new) }
        ensures bytes { ReadConsumes (remaining self.old) (remaining self.new) result buffer.new }
        ensures counts { Counts result (failures self.old) (failures self.new) };
}

/// A reader with a count of its failed calls.
#[derive(Drop)]
pub struct CountedInput<R> {
    inner: R,
    failures: u64,
}

impl<R: Read> CountedInput<R> {
    pub fn new(inner: R) -> CountedInput<R>
        ensures { result ≡ record { inner = inner; failures = 0 } }
    {
        CountedInput { inner, failures: 0 }
    }
}

impl<R: Read> TableInput for CountedInput<R> {
    ghost remaining = { λ c. R.remaining c.inner };

    ghost failures = { λ c. c.failures };

    fn read_some(&mut self, buffer: &mut [u8]) -> Result<usize, DeviceFailed> {
        match self.inner.read(buffer) {
            Ok(count) => Ok(count),
            Err(_) => {
                self.failures = self.failures.saturating_add(1);
                Err(DeviceFailed)
            }
        }
    }
}

/// Why an input was not read to its end.
#[derive(Clone, Copy)]
pub enum InputFault {
    Memory,
    Device,
}
