//! Labels as text, behind the text of the certificate that they are about: what the text is, writing it and reading it.
#![tactic(auto)]

mod cost_words;
mod label_lines;
mod labels_text;
mod reading;
pub mod worked;
mod writing;

pub use reading::{LabelledCertificate, read};
pub use writing::{MOST_LABELS, write};
