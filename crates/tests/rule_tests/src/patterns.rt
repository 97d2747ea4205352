//! Lines that are of a pattern, and lines that aren't.

use crate::classes::{Known, known_classes};
use crate::words::{lines_of, matched_lines, number};
use algebra::{ClassId, Expr};
use book::RuleName;
use fixtures::{Reporting, differences};
use rules::{Below, Input, Match, Operator, Operators, Pattern};
use std::alloc::{AllocError, Global};

/// The pattern of the rule of a code, or one by its name: one of each form, among them one whose second line is of the right side of a join, which no
/// rule has.
fn pattern_of(name: &str) -> Pattern {
    if let Some(rule) = RuleName::of_code(name) {
        return rule.pattern();
    }
    let select = Operators::Only(Operator::Select);
    match name {
        "right" => Pattern::Two(
            Operators::Only(Operator::Join),
            Below {
                input: Input::Second,
                operators: select,
            },
        ),
        "three" => Pattern::Three(
            Operators::Only(Operator::Keep),
            Below {
                input: Input::First,
                operators: select,
            },
            Below {
                input: Input::First,
                operators: Operators::Either(Operator::Join, Operator::LeftJoin),
            },
        ),
        "subquery" => Pattern::Subquery,
        "subquery line" => Pattern::SubqueryLine(select),
        "class line" => Pattern::ClassLine(Operators::Either(Operator::Keep, Operator::Distinct)),
        _ => Pattern::One(Operators::Only(Operator::Join)),
    }
}

fn report_fitting(
    alloc: Global,
    pattern: Pattern,
    pick: u32,
    lines: &[(ClassId, Expr)],
    known: &Known,
    reported: &mut String,
) -> Result<(), AllocError> {
    let matched = matched_lines(alloc, lines)?;
    let at = Match {
        lines: matched.as_slice(),
        pick,
        classes: known.lent(),
    };
    if pattern.fits(alloc, at)? {
        reported.push_str("fits")
    } else {
        reported.push_str("another form")
    }
}

/// Reports whether lines are of the pattern of a name.
struct Fitting;

impl Reporting for Fitting {
    fn report(&self, alloc: Global, text: &str, reported: &mut String) -> Result<(), AllocError> {
        let (name, lines) = text.split_once(": ").unwrap_or((text, ""));
        let (name, pick) = name.split_once(" pick ").unwrap_or((name, "0"));
        let lines = lines_of(alloc, lines)?;
        report_fitting(
            alloc,
            pattern_of(name),
            number(pick),
            lines.as_slice(),
            &known_classes(alloc)?,
            reported,
        )
    }
}

/// The letters of conditions are those of src/words.rt, the classes those of src/classes.rt: 3 and 4 are the same. A list of conditions is ordered,
/// subqueries last.
#[test]
fn patterns_fit(rt: HostRuntime) {
    const LINES: &str = "one: 3 join 0 1 m => fits
one: 3 left 0 1 m => another form
one pick 1: 3 join 0 1 m => another form
one: 3 join 0 1 m, 0 select 0 l => another form
right: 5 join 1 2 , 2 select 2 l => fits
right: 5 join 1 2 , 1 select 1 l => another form
right: 7 join 0 4 , 3 select 3 l => fits
right: 5 join 1 2 , 2 distinct 2 => another form
right: 5 left 1 2 , 2 select 2 l => another form
right: 5 select 2 l, 2 select 2 l => another form
right pick 1: 5 join 1 2 , 2 select 2 l => another form
three: 7 keep 3 0, 4 select 4 l, 3 left 0 1 m => fits
three: 7 keep 3 0, 4 select 4 l, 3 join 0 1 m => fits
three: 7 keep 3 0, 4 select 4 l, 3 semi 0 1 m => another form
three: 7 keep 3 0, 4 select 4 l, 0 left 0 1 m => another form
three: 7 keep 3 0, 4 select 4 l => another form";
    const RULES: &str = "J1: 3 join 0 1 m => fits
J1: 3 left 0 1 m => another form
J2: 7 join 3 2 u, 3 join 0 1 m => fits
J2: 7 join 3 2 u, 5 join 1 2 u => another form
J2: 7 join 3 2 u => another form
S1: 7 select 3 lr, 4 select 3 rm => fits
S2: 7 select 3 rx, 3 join 0 1 m => fits
S2: 7 select 3 rx, 0 join 0 1 m => another form
S3: 7 select 3 lx, 3 join 0 1 m => fits
S3: 7 select 3 lx, 3 left 0 1 m => another form
S4: 3 join 0 1 lm => fits
S5: 7 select 0 l, 0 semi 0 1 m => fits
S5: 7 select 0 l, 0 anti 0 1 m => fits
S5: 7 select 3 l, 3 join 0 1 m => another form
K1: 7 keep 3 0, 4 keep 3 0 2 => fits
K2: 7 keep 1 2 => fits
K2: 7 distinct 1 => another form
K3: 7 keep 3 1 3, 3 join 0 1 m => fits
D1: 7 distinct 1 => fits
G1: 7 group 3 => fits
G1: 7 distinct 3 => another form
G2: 7 select 3 l, 4 count 3 0 => fits
G2: 7 select 3 l, 3 distinct 3 => another form
O1: 7 select 3 r, 3 left 0 1 m => fits
O1: 7 select 3 l, 4 left 0 1 m => fits
O1: 7 select 3 r, 3 join 0 1 m => another form
O2: 7 select 3 r, 3 left 0 1 m => fits
O2: 7 select 3 l, 4 left 0 1 m => fits
O2: 7 select 3 l, 3 join 0 1 m => another form
O2: 7 select 3 l, 0 left 0 1 m => another form
O3: 3 left 0 1 lm => fits
O3: 3 join 0 1 rm => another form
O3: 3 left 0 1 rm, 0 get 0 => another form
O4: 5 left 3 2 u, 3 join 0 1 m => fits
O4: 5 left 3 2 u, 5 join 1 2 m => another form
O5: 5 join 3 2 u, 4 left 0 1 m => fits
O5: 5 join 3 2 u, 4 join 0 1 m => another form
O6: 7 keep 3 0 2, 3 left 0 1 l => fits
O6: 7 keep 3 0, 3 join 0 1 m => another form
O7: 7 keep 3 0 2, 4 select 4 l, 3 left 0 1 m => fits
O7: 7 keep 3 0, 4 select 4 z, 3 anti 0 1 m => another form
O7: 7 keep 3 0, 4 select 4 z => another form";
    const SUBQUERIES: &str = "U1 pick 1: 7 select 3 lx => fits
U1: 7 select 3 lx => another form
U1: 7 select 3 y, 2 select 2 l => another form
U2: 7 select 3 y => fits
U2: 7 select 3 Y => fits
U2: 7 select 3 L => another form
U3: 7 select 3 e => fits
U3: 7 distinct 3 => another form
U4: 7 select 3 I => fits
U4 pick 2: 7 select 3 lI => another form
U5: 7 anti 0 2 t => fits
U5: 7 semi 0 2 t => another form
U6 pick 6: 7 select 3 e, 6 keep 2 5 => fits
U6 pick 6: 7 select 3 E, 6 distinct 2 => fits
U6 pick 6: 7 select 3 e, 6 select 2 u => another form
U6 pick 2: 7 select 3 e, 2 keep 1 2 => another form
U7: 7 select 3 x, 6 select 2 u => fits
U7: 7 select 3 x, 6 keep 2 4 => another form
U8: 7 select 3 X, 6 select 2 u => fits
U8: 7 select 3 X => another form
U9: 7 select 3 e, 6 select 2 y => fits
U9: 7 select 3 e, 2 select 2 u => another form
U10 pick 1: 7 select 3 lE, 6 select 2 u => fits
U10: 7 select 3 lE, 6 select 2 u => another form
U11: 7 semi 3 2 u, 3 join 0 1 m => fits
U11: 7 anti 3 2 u/l, 4 join 0 1 m => fits
U11: 7 semi 3 2 u, 3 left 0 1 m => another form
U11: 7 left 3 2 u, 3 join 0 1 m => another form
U12: 7 semi 0 2 t => fits
U12: 7 anti 0 2 t => another form
U12 pick 1: 7 semi 0 2 t => another form";
    const PICKS: &str = "subquery pick 1: 7 select 3 lx => fits
subquery pick 0: 7 select 3 lx => another form
subquery pick 2: 7 select 3 lx => another form
subquery pick 1: 7 select 3 le => fits
subquery: 7 distinct 3 => another form
subquery line pick 1: 7 select 3 lx, 6 select 2 l => fits
subquery line pick 1: 7 select 3 lx, 6 get 2 => another form
subquery line pick 1: 7 select 3 lx, 3 select 2 l => another form
subquery line pick 0: 7 select 3 lx, 6 select 2 l => another form
subquery line pick 1: 7 select 3 lx => another form
class line pick 6: 7 select 3 lx, 6 keep 2 4 => fits
class line pick 6: 7 select 3 lx, 6 distinct 2 => fits
class line pick 6: 7 select 3 lx, 6 select 2 l => another form
class line pick 3: 7 select 3 lx, 3 distinct 2 => another form
class line pick 6: 7 select 3 l, 6 distinct 2 => another form";
    assert_eq!(rt;
        differences(rt.alloc(), &[LINES, PICKS, RULES, SUBQUERIES], &Fitting).as_deref(),
        Ok("")
    );
}
