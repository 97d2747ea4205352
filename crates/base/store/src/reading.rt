//! A table's file, parsed while it is read.

ghost use Rattle.std.specs.Prelude.{◌≡◌, ◌≤◌, ◌++◌, ℕ, List, None, drop, length, IfOk, IfErr, IfSome, OnOk};
ghost use Rattle.store.specs.Devices.{Rose};
ghost use Rattle.store.specs.Fronts.{FitsEntry, ReadsFront};
ghost use Rattle.store.specs.Parsing.{ParsesFile};
ghost use Rattle.store.specs.Tables.{records_of};

use crate::cuts::cut_of;
use crate::input::{DeviceFailed, InputFault, TableInput};
use crate::records::{Parsed, Parsing};
use schema::Column;
use std::alloc::{AllocError, Global};

/// So many bytes are gathered before their records are parsed.
const PIECE: usize = 65_536;

/// What was read of a table's file: what is parsed of it, and the bytes behind that.
#[derive(Drop)]
struct Reading {
    parsing: Parsing,
    rest: Vec<u8>,
    /// The records of the rest are parsed once it has so many bytes.
    enough: usize,
}

/// Drops the first of these bytes.
fn drop_front(bytes: &mut Vec<u8>, count: usize)
    requires { count ≤ length bytes.old.items }
    ensures { bytes.new.items ≡ drop count bytes.old.items }
{
    bytes.drain(..count);
}

impl Reading {
    /// The next bytes of the file. After a fault they are dropped.
    fn take(&mut self, alloc: Global, columns: &[Column], bytes: &[u8]) -> Result<(), AllocError>
        requires fits { FitsEntry columns.now self.old.parsing.rows }
        ensures fits { OnOk result (FitsEntry columns.now self.new.parsing.rows) }
        ensures read { (before : List ℕ)
            → ReadsFront columns.now before self.old.rest.items self.old.parsing.named self.old.parsing.rows.rows self.old.parsing.fault
            → OnOk result (ReadsFront columns.now (before ++ bytes.now) self.new.rest.items self.new.parsing.named self.new.parsing.rows.rows self.new.parsing.fault) }
    {
        if self.parsing.has_fault() {
            return Ok(());
        }
        self.rest.extend_from_slice(bytes)?;
        if self.rest.len() < self.enough {
            return Ok(());
        }
        self.parse_front(alloc, columns)?;
        // A record that is longer than a piece is looked through only where twice as much of it came.
        self.enough = self.rest.len().saturating_mul(2).max(PIECE);
        Ok(())
    }

    /// Parses the records up to the last place at which the rest can be cut.
    fn parse_front(&mut self, alloc: Global, columns: &[Column]) -> Result<(), AllocError>
        requires fits { FitsEntry columns.now self.old.parsing.rows }
        requires open { self.old.parsing.fault ≡ None }
        ensures fits { OnOk result (FitsEntry columns.now self.new.parsing.rows) }
        ensures read { (before : List ℕ)
            → ReadsFront columns.now before self.old.rest.items self.old.parsing.named self.old.parsing.rows.rows self.old.parsing.fault
            → OnOk result (ReadsFront columns.now before self.new.rest.items self.new.parsing.named self.new.parsing.rows.rows self.new.parsing.fault) }
    {
        let Some(cut) = cut_of(self.rest.as_slice()) else {
            return Ok(());
        };
        self.parsing.take(alloc, columns, &self.rest[..cut])?;
        drop_front(&mut self.rest, cut);
        Ok(())
    }

    /// What the file is, where no byte is left.
    fn end(self, alloc: Global, columns: &[Column]) -> Result<Parsed, AllocError>
        requires fits { FitsEntry columns.now self.parsing.rows }
        ensures { (bytes : List ℕ)
            → ReadsFront columns.now bytes self.rest.items self.parsing.named self.parsing.rows.rows self.parsing.fault
            → IfOk result (ParsesFile columns.now (records_of bytes)) }
    {
        let Reading {
            parsing,
            rest,
            enough: _,
        } = self;
        if parsing.has_fault() {
            return Ok(parsing.end());
        }
        let mut parsing = parsing;
        parsing.take(alloc, columns, rest.as_slice())?;
        Ok(parsing.end())
    }
}

/// The rows of a table's file, up to the first record that is at fault for itself alone. The file is read to its end.
pub fn parse_input<R: TableInput>(
    alloc: Global,
    columns: &[Column],
    input: &mut R,
) -> Result<Parsed, InputFault>
    ensures read { IfOk result (λ p. (bytes : List ℕ) × ParsesFile columns.now (records_of bytes) p × IfSome (R.remaining input.old) (λ xs. bytes ≡ xs)) }
    ensures quiet { IfOk result (λ p. R.failures input.new ≡ R.failures input.old) }
    ensures memory { IfErr result (λ e. e ≡ InputFault.Memory → R.failures input.new ≡ R.failures input.old) }
    ensures device { IfErr result (λ e. e ≡ InputFault.Device → Rose (R.failures input.old) (R.failures input.new)) }
{
    let Ok(parsing) = Parsing::new(alloc, columns) else {
        return Err(InputFault::Memory);
    };
    let mut reading = Reading {
        parsing,
        rest: Vec::new(alloc),
        enough: PIECE,
    };
    let mut buffer = [0u8; 65_536];
    for _ in 0..u64::MAX {
        match input.read_some(&mut buffer) {
            Ok(0) => {
                return match reading.end(alloc, columns) {
                    Ok(parsed) => Ok(parsed),
                    Err(AllocError) => Err(InputFault::Memory),
                };
            }
            Ok(count) => {
                if let Err(AllocError) = reading.take(alloc, columns, &buffer[..count]) {
                    return Err(InputFault::Memory);
                }
            }
            Err(DeviceFailed) => return Err(InputFault::Device),
        }
    }
    // Nobody waits for 2^64 reads.
    Err(InputFault::Memory)
}
