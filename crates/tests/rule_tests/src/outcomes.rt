//! The truths that conditions can have where columns are Null.

use crate::words::{columns_of, condition_of, cut, number};
use algebra::Condition;
use fixtures::{Reporting, differences};
use props::outcomes::outcomes;
use props::{NullColumns, Truths, never_true};
use std::alloc::{AllocError, Global};
use values::{Boxed, Items};

/// The conditions of the letters, of which the first two stand apart. A letter that is missing is `x`.
fn parts_of(
    alloc: Global,
    letters: &str,
) -> Result<(Boxed<Condition>, Boxed<Condition>, Items<Condition>), AllocError> {
    let mut letters = letters.chars();
    let first = Boxed::new(alloc, condition_of(alloc, letters.next().unwrap_or('x'))?)?;
    let second = Boxed::new(alloc, condition_of(alloc, letters.next().unwrap_or('x'))?)?;
    let mut more = Items::new(alloc);
    for letter in letters {
        more.push(condition_of(alloc, letter)?)?;
    }
    Ok((first, second, more))
}

/// The condition of a letter of src/words.rt, or `not LETTER`, `and LETTERS`, `or LETTERS`.
fn condition_in(alloc: Global, words: &str) -> Result<Condition, AllocError> {
    let (form, letters) = cut(words);
    let (first, second, more) = parts_of(alloc, letters)?;
    Ok(match form {
        "not" => Condition::Not(first),
        "and" => Condition::And(first, second, more),
        "or" => Condition::Or(first, second, more),
        _ => condition_of(alloc, form.chars().next().unwrap_or('x'))?,
    })
}

fn push_truths(reported: &mut String, truths: Truths) -> Result<(), AllocError> {
    reported.push_str(if truths.can_be_true { "T" } else { "" })?;
    reported.push_str(if truths.can_be_false { "F" } else { "" })?;
    reported.push_str(if truths.can_be_unknown { "U" } else { "" })
}

fn push_outcomes(
    reported: &mut String,
    condition: &Condition,
    nulls: NullColumns<'_>,
) -> Result<(), AllocError> {
    push_truths(reported, outcomes(condition, nulls))?;
    let never = never_true(std::slice::from_ref(condition), nulls);
    reported.push_str(if never { " never" } else { "" })
}

/// Reports the truths that a condition can have where the columns behind `: ` are Null, and whether it is never true there.
struct Outcomes;

impl Reporting for Outcomes {
    fn report(&self, alloc: Global, text: &str, reported: &mut String) -> Result<(), AllocError> {
        let (words, nulls) = text.split_once(": ").unwrap_or((text, ""));
        let condition = condition_in(alloc, words)?;
        let columns = columns_of(alloc, nulls)?;
        let nulls = if nulls.contains(" ") {
            NullColumns::All(&columns)
        } else {
            NullColumns::One(number(nulls))
        };
        push_outcomes(reported, &condition, nulls)
    }
}

/// The letters are those of src/words.rt: `l` reads the column 0, as `n` and `e` do, `r` the column 2.
#[test]
fn conditions_have_outcomes(rt: HostRuntime) {
    const PARTS: &str = "l: 0 => U never
l: 5 => TFU
l: 2 0 => U never
m: 2 => U never
n: 0 => T
n: 5 => TF
x: 0 => TF
e: 0 => FU never
e: 5 => TFU";
    const CONNECTIVES: &str = "not l: 0 => U never
not n: 0 => F never
not e: 0 => TU
not x: 0 => TF
and ln: 0 => U never
and lx: 0 => FU never
and lr: 2 => FU never
and nx: 0 => TF
and nnl: 0 => U never
and lnx: 0 => FU never
or ln: 0 => T
or lx: 0 => TU
or lr: 2 => TU
or lr: 0 2 => U never
or lrx: 0 2 => TU
or lrn: 0 2 => T";
    assert_eq!(rt;
        differences(rt.alloc(), &[PARTS, CONNECTIVES], &Outcomes).as_deref(),
        Ok("")
    );
}
