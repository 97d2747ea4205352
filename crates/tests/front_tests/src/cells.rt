//! The order of values, comparisons and truths.

use fixtures::{Reporting, differences};
use std::alloc::{AllocError, Global};
use std::cmp::Ordering;
use values::{Cell, Comparison, Truth, compare, order, same};

/// The value of a word: a number, `'` and a text, or else Null.
pub fn cell(word: &str) -> Cell<'_> {
    if let Some(text) = word.strip_prefix("'") {
        return Cell::Text(text);
    }
    match word.parse() {
        Ok(number) => Cell::Int(number),
        Err(_) => Cell::Null,
    }
}

/// Whether values and what lends them stand in an order, by each other call that compares.
fn stand_in(alloc: Global, wanted: Ordering, a: Cell<'_>, b: Cell<'_>) -> Result<bool, AllocError> {
    let first = a.to_value(alloc)?;
    let second = b.to_value(alloc)?;
    let equal = wanted == Ordering::Equal;
    Ok(
        a.cmp(&b) == wanted
            && first.cmp(&second) == wanted
            && (first < second) == (wanted == Ordering::Less)
            && same(first.as_cell(), second.as_cell()) == equal
            && (first == second) == equal,
    )
}

/// Words whose values rise.
const RISING: &str = "- -3 20 ' 'B 'Ba 'a 'é";

/// Reports how a word's value stands to each of those that rise.
struct Orders;

impl Reporting for Orders {
    fn report(&self, alloc: Global, word: &str, reported: &mut String) -> Result<(), AllocError> {
        let a = cell(word);
        for other in RISING.split(" ") {
            let b = cell(other);
            let found = order(a, b);
            let agreed = stand_in(alloc, found, a, b)?;
            reported.push_str(match (agreed, found) {
                (false, _) => "?",
                (true, Ordering::Less) => "<",
                (true, Ordering::Equal) => "=",
                (true, Ordering::Greater) => ">",
            })?;
        }
        Ok(())
    }
}

#[test]
fn values_stand_in_order(rt: HostRuntime) {
    const CASES: &str = "- => =<<<<<<<
-3 => >=<<<<<<
20 => >>=<<<<<
' => >>>=<<<<
'B => >>>>=<<<
'Ba => >>>>>=<<
'a => >>>>>>=<
'é => >>>>>>>=";
    assert_eq!(rt;
        differences(rt.alloc(), &[CASES], &Orders).as_deref(),
        Ok("")
    );
}

fn comparison(sign: &str) -> Option<Comparison> {
    match sign {
        "=" => Some(Comparison::Equal),
        "<>" => Some(Comparison::NotEqual),
        "<" => Some(Comparison::Less),
        "<=" => Some(Comparison::LessOrEqual),
        ">" => Some(Comparison::Greater),
        ">=" => Some(Comparison::GreaterOrEqual),
        _ => None,
    }
}

fn name(truth: Truth) -> &'static str {
    match truth {
        Truth::False => "false",
        Truth::Unknown => "unknown",
        Truth::True => "true",
    }
}

fn truth(word: &str) -> Truth {
    match word {
        "false" => Truth::from(false),
        "true" => Truth::from(true),
        _ => Truth::Unknown,
    }
}

/// The two parts of a text at its first space.
fn halves(text: &str) -> (&str, &str) {
    text.split_once(" ").unwrap_or((text, ""))
}

/// Reports the truth of a comparison of two words.
struct Comparisons;

impl Reporting for Comparisons {
    fn report(&self, _alloc: Global, text: &str, reported: &mut String) -> Result<(), AllocError> {
        let (a, rest) = halves(text);
        let (sign, b) = halves(rest);
        reported.push_str(match comparison(sign) {
            Some(sign) => name(compare(sign, cell(a), cell(b))),
            None => "no comparison",
        })
    }
}

#[test]
fn null_compares_as_unknown(rt: HostRuntime) {
    const CASES: &str = "- = - => unknown
1 <> - => unknown
- <= 'a => unknown
5 = 5 => true
5 <> 5 => false
-1 < 1 => true
'b <= 'ab => false
'b > 'ab => true
2 >= 2 => true";
    assert_eq!(rt;
        differences(rt.alloc(), &[CASES], &Comparisons).as_deref(),
        Ok("")
    );
    assert!(rt; Comparison::NotEqual.admits(Ordering::Less));
}

/// Reports NOT of the first of two, their AND and their OR.
struct Connectives;

impl Reporting for Connectives {
    fn report(&self, _alloc: Global, text: &str, reported: &mut String) -> Result<(), AllocError> {
        let (a, b) = halves(text);
        let (a, b) = (truth(a), truth(b));
        reported.push_str(name(a.not()))?;
        reported.push_str(" ")?;
        reported.push_str(name(a.and(b)))?;
        reported.push_str(" ")?;
        reported.push_str(name(a.or(b)))
    }
}

#[test]
fn truth_has_three_values(rt: HostRuntime) {
    const CASES: &str = "false false => true false false
false unknown => true false unknown
false true => true false true
unknown false => unknown false unknown
unknown unknown => unknown unknown unknown
unknown true => unknown unknown true
true false => false false true
true unknown => false unknown true
true true => false true true";
    assert_eq!(rt;
        differences(rt.alloc(), &[CASES], &Connectives).as_deref(),
        Ok("")
    );
    assert!(rt; truth("true").is_true() && !truth("unknown").is_true());
}
