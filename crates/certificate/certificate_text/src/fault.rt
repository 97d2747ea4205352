//! Why a certificate has no text, or a text no certificate.

ghost use Rattle.std.specs.Prelude.{◌≡◌};
ghost use Rattle.certificate_text.specs.Codes.{code_of};

use thiserror::Error;
use values::Fault;

/// Why a line of a certificate's text is refused.
#[derive(Clone, Copy, Debug)]
pub enum TextReason {
    /// The text is of another version.
    OtherVersion,
    /// The line isn't of the form that is wanted there.
    OtherForm,
    /// A number is past its range.
    OutOfRange,
    /// The text ends before the line does.
    BrokenOff,
    /// The line is over a limit of certificates.
    OverLimit,
}

impl TextReason {
    /// The code by which the program reports it.
    pub fn code(self) -> &'static str
        ensures { result.now ≡ code_of self }
    {
        match self {
            TextReason::OtherVersion => "C01",
            TextReason::OtherForm => "C02",
            TextReason::OutOfRange => "C03",
            TextReason::BrokenOff => "C04",
            TextReason::OverLimit => "C05",
        }
    }
}

/// The first fault of a certificate's text.
#[derive(Clone, Copy, Debug, Error)]
#[error("{} line {line}", .reason.code())]
pub struct TextRefusal {
    /// The number of the line, from 1.
    pub line: usize,
    pub reason: TextReason,
}

pub type TextFault = Fault<TextRefusal>;
