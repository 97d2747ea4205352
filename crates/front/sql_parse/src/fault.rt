//! Why a text is no query.

ghost use Rattle.std.specs.Prelude.{◌≡◌};
ghost use Rattle.sql_parse.specs.Codes.{code_of};

use thiserror::Error;
use values::Fault;

/// Why a text is refused.
#[derive(Clone, Copy, Debug)]
pub enum ParseReason {
    /// P01: a character at which no token begins.
    NoToken,
    /// P02: a text token that isn't closed.
    OpenText,
    /// P03: a number past 64 bits.
    NumberRange,
    /// P04: a token that no query has after the tokens before it.
    Unexpected,
    /// P05: too many open parentheses.
    TooDeep,
    /// P06: the text is too long.
    TooLong,
}

impl ParseReason {
    /// The code by which the program reports it.
    pub fn code(self) -> &'static str
        ensures { result.now ≡ code_of self }
    {
        match self {
            ParseReason::NoToken => "P01",
            ParseReason::OpenText => "P02",
            ParseReason::NumberRange => "P03",
            ParseReason::Unexpected => "P04",
            ParseReason::TooDeep => "P05",
            ParseReason::TooLong => "P06",
        }
    }
}

/// What is wrong with a text, and at which of its bytes.
#[derive(Clone, Copy, Debug, Drop, Error)]
#[error("{} at {at}", .reason.code())]
pub struct ParseRefusal {
    pub reason: ParseReason,
    pub at: usize,
}

pub type ParseFault = Fault<ParseRefusal>;

/// The fault of a text that is refused.
pub fn refused(reason: ParseReason, at: usize) -> ParseFault
    ensures { result ≡ Fault.Refused (record { reason = reason; at = at }) }
{
    Fault::Refused(ParseRefusal { reason, at })
}
