//! The lines of a text, one after the other.

ghost use Rattle.std.specs.Prelude.{◌≡◌, ◌==◌, ◌++◌, [], codes, Ok, true, MatchResult};
ghost use Rattle.std.specs.List.{position};
ghost use Rattle.certificate_text.specs.PartTexts.{lacks};
ghost use Rattle.certificate_text.specs.CertificateText.{Text, ended};
ghost use Rattle.certificate_text.specs.declared.fault.TextReason.TheVariants.{OtherForm};
ghost use Rattle.certificate_read.specs.TextCalls as spec;
ghost use Rattle.certificate_read.specs.TextFaults.{counted_on};
ghost use Rattle.certificate_read.specs.TextReading.{IsLine, LeavesText, UnlessMemory};

use crate::line_fault::LineFault;
use certificate_text::{TextFault, TextReason, TextRefusal};
use values::Fault;

/// The place of the first LF.
fn first_end(text: &[u8]) -> Option<usize>
    ensures { result ≡ position (λ b. b == 10) text.now }
{
    text.iter().position(|byte| *byte == b'\n')
}

/// The lines that are still to be read.
#[derive(Drop)]
pub struct TextLines<'a> {
    pub left: &'a [u8],
    /// The number of the line that was read last, from 1.
    pub number: usize,
}

impl<'a> TextLines<'a> {
    pub fn of(text: &'a [u8]) -> TextLines<'a>
        ensures left { result.left.now ≡ text.now }
        ensures number { result.number ≡ 0 }
    {
        TextLines {
            left: text,
            number: 0,
        }
    }

    /// The fault of the line that was read last.
    pub fn refused(&self, reason: TextReason) -> TextFault
        ensures { result ≡ spec.refused self.now.number reason }
    {
        let line = self.number;
        Fault::Refused(TextRefusal { line, reason })
    }

    /// Why the line that was read last isn't of its form.
    pub fn fault(&self, fault: LineFault) -> TextFault
        ensures { result ≡ spec.text_fault_of fault self.now.number }
    {
        match fault.reason() {
            Some(reason) => self.refused(reason),
            None => Fault::Memory,
        }
    }

    /// The next line, without its end.
    pub fn bytes(&mut self) -> Result<&'a [u8], TextFault>
        ensures complete { (line : Text) (rest : Text) → lacks 10 line ≡ true → self.old.left.now ≡ ended line ++ rest → LeavesText (λ l. l.now) line rest self.new result }
        ensures exact { spec.ReadsBytes (λ l. l.now) self.old self.new result }
    {
        self.number = self.number.saturating_add(1);
        match first_end(self.left) {
            Some(end) => {
                let line = &self.left[..end];
                self.left = &self.left[end + 1..];
                Ok(line)
            }
            None => Err(self.refused(TextReason::BrokenOff)),
        }
    }

    /// The next line, which is to be text.
    pub fn line(&mut self) -> Result<&'a str, TextFault>
        ensures complete { (line : Text) (rest : Text) → IsLine line → self.old.left.now ≡ ended line ++ rest → LeavesText (λ l. l.now) line rest self.new result }
        ensures exact { spec.ReadsText (λ l. l.now) self.old self.new result }
    {
        match str::from_utf8(self.bytes()?) {
            Ok(line) => Ok(line),
            Err(_) => Err(self.refused(TextReason::OtherForm)),
        }
    }

    /// That the next line is this one, for else it is refused so.
    pub fn expect(&mut self, line: &[u8], reason: TextReason) -> Result<(), TextFault>
        ensures complete { (rest : Text) → lacks 10 line.now ≡ true → self.old.left.now ≡ ended line.now ++ rest → LeavesText (λ u. u) tt rest self.new result }
        ensures exact { spec.Finds line.now reason self.old self.new result }
    {
        if self.bytes()? == line {
            Ok(())
        } else {
            Err(self.refused(reason))
        }
    }

    /// That no byte is left; the line behind the last is refused for it.
    pub fn end(&mut self) -> Result<(), TextFault>
        ensures complete { self.old.left.now ≡ [] → result ≡ Ok tt }
        ensures exact { MatchResult result (λ u. self.old.left.now ≡ []) (λ fault. (self.old.left.now ≡ [] → ⊥) × (fault ≡ spec.refused (counted_on self.old.number 1) OtherForm)) }
    {
        if self.left.is_empty() {
            return Ok(());
        }
        self.number = self.number.saturating_add(1);
        Err(self.refused(TextReason::OtherForm))
    }

    /// That the next line is the last, and says that the text ends.
    pub fn finish(&mut self) -> Result<(), TextFault>
        ensures complete { self.old.left.now ≡ ended (codes "end") → UnlessMemory (λ u. u ≡ tt) result }
        ensures exact { spec.Ends self.old result }
    {
        self.expect(b"end", TextReason::OtherForm)?;
        self.end()
    }
}
