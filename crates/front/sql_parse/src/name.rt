//! A name of a text.

use values::Text;

/// A name of the text.
#[derive(Drop)]
pub struct Name {
    /// In lower case.
    pub text: Text,
    /// Its first byte in the text.
    pub at: usize,
}
