//! What a comparison says of each order, known before many numbers are compared.

ghost use Rattle.std.specs.Prelude.{◌≡◌};
ghost use Rattle.std.specs.Ordering.{int_cmp};
ghost use Rattle.std.specs.declared.cmp.Ordering.TheVariants as by;
ghost use Rattle.values.specs.Truth as logic;
ghost use Rattle.values.specs.declared.value.Value.TheVariants as value;
ghost use Rattle.relations.specs.RowColumns.{int_or_null};

use std::cmp::Ordering;
use values::Comparison;

/// A comparison, and whether it is true of values in each order: so a loop over numbers needn't ask which comparison it is.
#[derive(Clone, Copy)]
pub struct Admitted {
    pub comparison: Comparison,
    less: bool,
    equal: bool,
    greater: bool,
    ghost of_less: { less ≡ logic.admits comparison by.Less },
    ghost of_equal: { equal ≡ logic.admits comparison by.Equal },
    ghost of_greater: { greater ≡ logic.admits comparison by.Greater },
}

impl Admitted {
    pub fn by(comparison: Comparison) -> Admitted
        ensures { result.comparison ≡ comparison }
    {
        Admitted {
            comparison,
            less: comparison.admits(Ordering::Less),
            equal: comparison.admits(Ordering::Equal),
            greater: comparison.admits(Ordering::Greater),
        }
    }

    /// Whether it is true of two numbers, without a branch on their order, which nothing foretells.
    #[inline(always)]
    fn admits_order_of(self, first: i64, second: i64) -> bool
        ensures { result ≡ logic.admits self.comparison (int_cmp first second) }
    {
        let less = first < second;
        let greater = second < first;
        (less & self.less) | (!less & ((greater & self.greater) | (!greater & self.equal)))
    }
}

/// Whether a comparison of a number with another is true; where there is none it isn't.
#[inline(always)]
pub(crate) fn admits_number(admitted: Admitted, known: i64, number: Option<i64>) -> bool
    ensures { result ≡ logic.is_true (logic.compare admitted.comparison (value.Int known) (int_or_null number)) }
{
    match number {
        Some(number) => admitted.admits_order_of(known, number),
        None => false,
    }
}
