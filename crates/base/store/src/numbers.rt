//! A column of numbers, as a table keeps it.

/// Which rows have a number, and the numbers with something in the place of each Null.
#[derive(Clone, Copy)]
pub struct Numbers<'t> {
    pub known: &'t [bool],
    pub numbers: &'t [i64],
}
