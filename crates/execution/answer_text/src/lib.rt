//! The text of an answer, and where it goes.
#![tactic(auto)]

mod fields;
pub mod output;
pub mod text;
pub mod writer;

pub use output::{AnswerOutput, CountedOutput, OutputFailed};
pub use text::{write_found, write_rows};
pub use writer::{AnswerFault, AnswerWriter};
