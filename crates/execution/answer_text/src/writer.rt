//! An answer that is written a row at a time.

ghost use Rattle.std.specs.Prelude.{◌≡◌, ◌≢◌, ◌<◌, ◌++◌, [], length, slice_index_or, IfOk, IsErrAnd, OnOk, OnErr};
ghost use Rattle.std.specs.Io.KnownBytes.{Appends};
ghost use Rattle.csv.specs.Writing.{default_writer, row_text};
ghost use Rattle.store.specs.Devices.{Rose};
ghost use Rattle.answer_text.specs.AnswerText.{record_text, HasFront, IsGathered};

use crate::fields::{push_names, push_record, push_row};
use crate::output::{AnswerOutput, OutputFailed, send};
use query::Query;
use std::alloc::{AllocError, Global};
use store::RowSource;
use values::{Fault, Value};

pub type AnswerFault = Fault<OutputFailed>;

/// Writes all of a text.
fn send_text<W: AnswerOutput>(text: &[u8], out: &mut W) -> Result<(), AnswerFault>
    ensures ok { OnOk result (Appends (W.contents out.old) (W.contents out.new) text.now) }
    ensures front { OnErr result (HasFront (W.contents out.old) (W.contents out.new) text.now) }
    ensures device { IsErrAnd result (λ e. e ≢ Fault.Memory) → Rose (W.failures out.old) (W.failures out.new) }
    ensures quiet { OnOk result (W.failures out.new ≡ W.failures out.old) }
    ensures memory { IsErrAnd result (λ e. e ≡ Fault.Memory) → W.failures out.new ≡ W.failures out.old }
{
    match send(out, text) {
        Ok(()) => Ok(()),
        Err(failed) => Err(Fault::Refused(failed)),
    }
}

/// How much text is gathered before it is written.
const CHUNK: usize = 65_536;

/// Writes the text that is gathered, if there is much of it.
fn send_full<W: AnswerOutput>(text: &mut Vec<u8>, out: &mut W) -> Result<(), AnswerFault>
    ensures ok { OnOk result (IsGathered (W.contents out.old) (W.contents out.new) text.old.items text.new.items) }
    ensures front { OnErr result (HasFront (W.contents out.old) (W.contents out.new) text.old.items) }
    ensures device { IsErrAnd result (λ e. e ≢ Fault.Memory) → Rose (W.failures out.old) (W.failures out.new) }
    ensures quiet { OnOk result (W.failures out.new ≡ W.failures out.old) }
    ensures memory { IsErrAnd result (λ e. e ≡ Fault.Memory) → W.failures out.new ≡ W.failures out.old }
{
    if text.len() < CHUNK {
        return Ok(());
    }
    send_text(text.as_slice(), out)?;
    text.clear();
    Ok(())
}

/// An answer that is being written: the end of its text so far, which the output hasn't been given yet. A fault ends it.
#[derive(Drop)]
pub struct AnswerWriter {
    gathered: Vec<u8>,
}

impl AnswerWriter {
    /// Begins with the names of the query's items as a header. The output is given nothing yet.
    pub fn begin(alloc: Global, query: &Query) -> Result<AnswerWriter, AllocError>
        ensures { IfOk result (λ writer. writer.gathered.items ≡ row_text default_writer query.now.names) }
    {
        let mut gathered = Vec::new(alloc);
        push_names(&mut gathered, query.names.as_slice())?;
        Ok(AnswerWriter { gathered })
    }

    /// Adds the record of a row, by its number among those of the source.
    pub fn push<R: RowSource, W: AnswerOutput>(
        self,
        alloc: Global,
        found: &R,
        row: usize,
        out: &mut W,
    ) -> Result<AnswerWriter, AnswerFault>
        requires { row < length (R.rows found.now) }
        ensures ok { IfOk result (λ writer. IsGathered (W.contents out.old) (W.contents out.new) (self.gathered.items ++ record_text (slice_index_or (R.rows found.now) row [])) writer.gathered.items) }
        ensures front { OnErr result (HasFront (W.contents out.old) (W.contents out.new) (self.gathered.items ++ record_text (slice_index_or (R.rows found.now) row []))) }
        ensures device { IsErrAnd result (λ e. e ≢ Fault.Memory) → Rose (W.failures out.old) (W.failures out.new) }
        ensures quiet { OnOk result (W.failures out.new ≡ W.failures out.old) }
        ensures memory { IsErrAnd result (λ e. e ≡ Fault.Memory) → W.failures out.new ≡ W.failures out.old }
    {
        let mut gathered = self.gathered;
        push_row(alloc, &mut gathered, found, row)?;
        send_full(&mut gathered, out)?;
        Ok(AnswerWriter { gathered })
    }

    /// Adds the record of a row that has values of its own.
    pub fn push_values<W: AnswerOutput>(
        self,
        alloc: Global,
        row: &[Value],
        out: &mut W,
    ) -> Result<AnswerWriter, AnswerFault>
        ensures ok { IfOk result (λ writer. IsGathered (W.contents out.old) (W.contents out.new) (self.gathered.items ++ record_text row.now) writer.gathered.items) }
        ensures front { OnErr result (HasFront (W.contents out.old) (W.contents out.new) (self.gathered.items ++ record_text row.now)) }
        ensures device { IsErrAnd result (λ e. e ≢ Fault.Memory) → Rose (W.failures out.old) (W.failures out.new) }
        ensures quiet { OnOk result (W.failures out.new ≡ W.failures out.old) }
        ensures memory { IsErrAnd result (λ e. e ≡ Fault.Memory) → W.failures out.new ≡ W.failures out.old }
    {
        let mut gathered = self.gathered;
        push_record(alloc, &mut gathered, row)?;
        send_full(&mut gathered, out)?;
        Ok(AnswerWriter { gathered })
    }

    /// Writes what is left.
    pub fn finish<W: AnswerOutput>(self, out: &mut W) -> Result<(), AnswerFault>
        ensures ok { OnOk result (Appends (W.contents out.old) (W.contents out.new) self.gathered.items) }
        // Nothing is held back.
        ensures handed { OnOk result (W.held out.new ≡ []) }
        ensures front { OnErr result (HasFront (W.contents out.old) (W.contents out.new) self.gathered.items) }
        ensures device { IsErrAnd result (λ e. e ≢ Fault.Memory) → Rose (W.failures out.old) (W.failures out.new) }
        ensures quiet { OnOk result (W.failures out.new ≡ W.failures out.old) }
        ensures memory { IsErrAnd result (λ e. e ≡ Fault.Memory) → W.failures out.new ≡ W.failures out.old }
    {
        send_text(self.gathered.as_slice(), out)?;
        match out.flush_all() {
            Ok(()) => Ok(()),
            Err(failed) => Err(Fault::Refused(failed)),
        }
    }
}
