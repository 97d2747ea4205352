//! A column of texts, as a table keeps it.

use crate::texts::Texts;

/// Which rows have a text, and the texts with something in the place of each Null.
#[derive(Clone, Copy)]
pub struct TextColumn<'t> {
    pub known: &'t [bool],
    pub texts: &'t Texts,
}
