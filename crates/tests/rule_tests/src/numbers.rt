//! Lists of numbers.

use crate::words::{cut, number, numbers_of};
use derivation::Numbers;
use fixtures::{Reporting, differences, push_number};
use std::alloc::{AllocError, Global};

fn push_numbers(reported: &mut String, numbers: &Numbers) -> Result<(), AllocError> {
    push_number(reported, "", numbers.len())?;
    reported.push_str(":")?;
    for number in numbers.as_slice() {
        push_number(reported, " ", *number as usize)?;
    }
    Ok(())
}

/// Reports for `NUMBERS OTHERS NUMBER COUNT` the first numbers with the others and the number behind them, what is left of these when
/// they are cut to the count, and the first numbers, which stay as they were.
struct Listed;

impl Reporting for Listed {
    fn report(&self, alloc: Global, text: &str, reported: &mut String) -> Result<(), AllocError> {
        let (first, words) = cut(text);
        let (others, words) = cut(words);
        let (last, count) = cut(words);
        let first = numbers_of(alloc, first)?;
        let mut all = first.copy(alloc)?;
        all.extend(alloc, &numbers_of(alloc, others)?)?;
        all.extend(alloc, &Numbers::one(number(last)))?;
        push_numbers(reported, &all)?;
        all.truncate(number(count) as usize);
        reported.push_str(" | ")?;
        push_numbers(reported, &all)?;
        reported.push_str(" | ")?;
        push_numbers(reported, &first)
    }
}

#[test]
fn numbers_are_listed(rt: HostRuntime) {
    const CASES: &str = "- - 7 1 => 1: 7 | 1: 7 | 0:
- - 7 0 => 1: 7 | 0: | 0:
3 - 7 1 => 2: 3 7 | 1: 3 | 1: 3
3 4 7 5 => 3: 3 4 7 | 3: 3 4 7 | 1: 3
- 3,4 7 2 => 3: 3 4 7 | 2: 3 4 | 0:
3,3 4,5,6 7 4 => 6: 3 3 4 5 6 7 | 4: 3 3 4 5 | 2: 3 3
3,4 - 7 0 => 3: 3 4 7 | 0: | 2: 3 4";
    assert_eq!(rt;
        differences(rt.alloc(), &[CASES], &Listed).as_deref(),
        Ok("")
    );
}

/// A list of one number, cut, and one that is cut to more than it has.
#[test]
fn one_number_is_cut(rt: HostRuntime) {
    for (count, left) in [(0, 0), (1, 1), (9, 1)] {
        let mut one = Numbers::one(3);
        one.truncate(count);
        assert_eq!(rt; one.len(), left);
    }
}
