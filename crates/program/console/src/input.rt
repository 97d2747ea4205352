//! The tables' files.

ghost use Rattle.std.specs.Prelude.{◌≡◌};
ghost use Rattle.devices.specs.Inputs.{source_of};

use crate::progress::Progress;
use devices::{BoundedReader, ReadFailure, TABLE_BOUNDS};
use std::io::Read;
use store::{DeviceFailed, TableInput};

/// Who is told how far a table's file has been read.
#[derive(Clone, Copy)]
pub struct TableWatch<'a> {
    pub progress: &'a Progress<'a>,
    pub table: &'a str,
    /// How many bytes the file has, where that is known.
    pub size: Option<u64>,
    /// Whether no file is read behind this one.
    pub is_last: bool,
}

impl TableWatch<'_> {
    /// Tells it, after a read that gave so many bytes of those that were read in all.
    fn tell(self, count: usize, bytes: u64) {
        if count == 0 && self.is_last {
            self.progress.tables_read();
        } else {
            self.progress.reading(self.table, bytes, self.size);
        }
    }
}

/// A table's file. Why it could not be read to its end is kept for the words of the refusal.
#[derive(Drop)]
pub struct TableFile<'a, R> {
    reader: BoundedReader<R>,
    failures: u64,
    failure: Option<ReadFailure>,
    watch: Option<TableWatch<'a>>,
}

impl<'a, R: Read> TableFile<'a, R> {
    pub fn new(reader: R, watch: Option<TableWatch<'a>>) -> TableFile<'a, R>
        ensures { result.failures ≡ 0 }
    {
        TableFile {
            reader: BoundedReader::new(reader, TABLE_BOUNDS),
            failures: 0,
            failure: None,
            watch,
        }
    }

    /// The file, to be read again for words: what is read by it is told to nobody.
    pub fn reader_mut(&mut self) -> &mut BoundedReader<R> {
        &mut self.reader
    }

    /// Why it could not be read to its end, once a call failed.
    pub fn failure(&self) -> Option<&ReadFailure> {
        self.failure.as_ref()
    }
}

impl<R: Read> TableInput for TableFile<'_, R> {
    ghost remaining = { λ t. R.remaining (source_of t.reader) };

    ghost failures = { λ t. t.failures };

    fn read_some(&mut self, buffer: &mut [u8]) -> Result<usize, DeviceFailed> {
        match self.reader.read_some(buffer) {
            Ok(count) => {
                if let Some(watch) = self.watch {
                    watch.tell(count, self.reader.byte_count());
                }
                Ok(count)
            }
            Err(failure) => {
                self.failure = Some(failure);
                self.failures = self.failures.saturating_add(1);
                Err(DeviceFailed)
            }
        }
    }
}
