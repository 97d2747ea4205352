//! A column of numbers at rows.

ghost use Rattle.std.specs.Prelude.{◌≡◌, length};

use store::Numbers;

/// A column of numbers as its table keeps it, at all rows of the table in their order, or at those with some numbers.
#[derive(Clone, Copy)]
pub struct NumberColumn<'p> {
    pub numbers: Numbers<'p>,
    pub rows: Option<&'p [usize]>,
    ghost even: { length numbers.numbers.now ≡ length numbers.known.now },
}
