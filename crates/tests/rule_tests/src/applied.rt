//! Each rule, applied, refused for its form, and refused for its condition.

use crate::classes::{Known, known_classes};
use crate::shapes::push_shape;
use crate::words::{lines_of, matched_lines, number};
use algebra::{ClassId, Expr};
use book::RuleName;
use fixtures::{Reporting, differences};
use rules::{Match, RuleFault, Shape, Unfit};
use std::alloc::{AllocError, Global};
use values::Fault;

pub fn push_applied(
    alloc: Global,
    reported: &mut String,
    applied: &Result<Shape, RuleFault>,
) -> Result<(), AllocError> {
    match applied {
        Ok(shape) => push_shape(alloc, reported, shape),
        Err(Fault::Refused(Unfit::Pattern)) => reported.push_str("another form"),
        Err(Fault::Refused(Unfit::Condition)) => reported.push_str("the condition fails"),
        Err(Fault::Memory) => Err(AllocError),
    }
}

fn report_applied(
    alloc: Global,
    rule: RuleName,
    pick: u32,
    lines: &[(ClassId, Expr)],
    known: &Known,
    reported: &mut String,
) -> Result<(), AllocError> {
    let matched = matched_lines(alloc, lines)?;
    let at = Match {
        lines: matched.as_slice(),
        pick,
        classes: known.lent(),
    };
    push_applied(alloc, reported, &rule.apply(alloc, at))
}

/// Reports what the rule of a code gives at lines.
struct Applied;

impl Reporting for Applied {
    fn report(&self, alloc: Global, text: &str, reported: &mut String) -> Result<(), AllocError> {
        let (code, lines) = text.split_once(": ").unwrap_or((text, ""));
        let (code, pick) = code.split_once(" pick ").unwrap_or((code, "0"));
        let Some(rule) = RuleName::of_code(code) else {
            return reported.push_str("no such rule");
        };
        let lines = lines_of(alloc, lines)?;
        report_applied(
            alloc,
            rule,
            number(pick),
            lines.as_slice(),
            &known_classes(alloc)?,
            reported,
        )
    }
}

/// The letters of conditions are those of src/words.rt, the classes those of src/classes.rt.
#[test]
fn rules_apply(rt: HostRuntime) {
    const JOINS: &str = "J1: 3 join 0 1 m => join [=(c0,c2)] (1) (0)
J1: 3 left 0 1 m => another form
J9: 3 join 0 1 m => no such rule
J1 pick 1: 3 join 0 1 m => another form
J1: 3 join 0 1 m, 3 join 0 1 m => another form
J2: 7 join 3 2 u, 3 join 0 1 m => join [=(c0,c2)] (0) (join [=(c2,c4)] (1) (2))
J2: 7 join 3 2 t, 4 join 0 1  => join [=(c0,c4)] (0) (join [] (1) (2))
J2: 7 join 3 2 u, 3 join 0 1 t => the condition fails
J2: 7 join 3 2 u, 5 join 1 2 u => another form
J2: 7 join 3 2 u, 3 left 0 1 m => another form";
    const SELECTS: &str =
        "S1: 7 select 3 lr, 4 select 3 rm => select [=(c0,c2);=(c0,i7);=(c2,i7)] (3)
S1: 7 select 3 l, 0 select 3 r => another form
S2: 7 select 3 lrm, 3 join 0 1  => select [=(c0,c2);=(c2,i7)] (join [] (select [=(c0,i7)] (0)) (1))
S2: 7 select 3 l, 3 join 0 1 m => join [=(c0,c2)] (select [=(c0,i7)] (0)) (1)
S2: 7 select 3 rx, 3 join 0 1 m => another form
S3: 7 select 3 lx, 3 join 0 1 m => select [exists(6)] (join [=(c0,c2);=(c0,i7)] (0) (1))
S3: 7 select 3 x, 3 join 0 1 m => another form
S4: 3 join 0 1 lm => join [=(c0,c2)] (select [=(c0,i7)] (0)) (1)
S4: 3 join 0 1 rm => another form
S5: 7 select 0 l, 0 semi 0 1 m => semi [=(c0,c2)] (select [=(c0,i7)] (0)) (1)
S5: 7 select 0 lx, 0 anti 0 1 m => anti [=(c0,c2)] [] (select [=(c0,i7);exists(6)] (0)) (1)
S5: 7 select 3 l, 3 join 0 1 m => another form";
    const KEEPS: &str = "K1: 7 keep 3 0, 4 keep 3 0 2 => keep 0 (3)
K1: 7 keep 3 0, 3 select 3 l => another form
K2: 7 keep 1 2 3 => 1
K2: 7 keep 1 2 => the condition fails
K2: 7 distinct 1 => another form
K3: 7 keep 3 3, 3 join 0 1 m => keep 3 (join [=(c0,c2)] (keep 0 (0)) (1))
K3: 7 keep 3 3, 3 join 0 1  => keep 3 (join [] (keep (0)) (1))
K3: 7 keep 3 1 3, 3 join 0 1 m => the condition fails
K3: 7 keep 3 1 3, 3 semi 0 1 m => another form
D1: 7 distinct 0 => 0
D1: 7 distinct 1 => the condition fails
D1: 7 keep 0 0 1 => another form
G1: 7 group 3 0 2 => distinct (keep 0 2 (3))
G1: 7 group 3 => the condition fails
G1: 7 count 3 0 => another form
G2: 7 select 3 lr, 3 count 4 0 => select [=(c2,i7)] (group 0 +9 (select [=(c0,i7)] (4)))
G2: 7 select 3 m, 3 group 4 0 2 => group 0 2 (select [=(c0,c2)] (4))
G2: 7 select 3 lex, 3 count 4 0 2 => select [exists(6);in(c0,6,c4)] (group 0 2 +9 (select [=(c0,i7)] (4)))
G2: 7 select 3 k, 3 count 4 0 => group 0 +9 (select [=(i1,i2)] (4))
G2: 7 select 3 k, 3 count 4 => the condition fails
G2: 7 select 3 l, 3 count 4 => another form
G2: 7 select 3 m, 3 count 4 0 => another form
G2: 7 select 3 l, 3 keep 4 0 => another form";
    const OUTER_JOINS: &str =
        "O1: 7 select 3 r, 3 left 0 1 m => select [=(c2,i7)] (join [=(c0,c2)] (0) (1))
O1: 7 select 4 lrx, 3 left 0 1 m => select [=(c0,i7);=(c2,i7);exists(6)] (join [=(c0,c2)] (0) (1))
O1: 7 select 3 m, 3 left 0 1  => select [=(c0,c2)] (join [] (0) (1))
O1: 7 select 3 l, 3 left 0 1 m => the condition fails
O1: 7 select 3 lnx, 3 left 0 1 m => the condition fails
O1: 7 select 3 r, 3 left 1 0 m => the condition fails
O1: 7 select 3 r, 3 join 0 1 m => another form
O1: 7 select 3 r, 5 left 0 1 m => another form
O1: 7 distinct 3, 3 left 0 1 m => another form
O1: 7 select 3 r => another form
O1 pick 1: 7 select 3 r, 3 left 0 1 m => another form
O2: 7 select 3 lrm, 3 left 0 1  => select [=(c0,c2);=(c2,i7)] (left [] (select [=(c0,i7)] (0)) (1))
O2: 7 select 3 l, 3 left 0 1 m => left [=(c0,c2)] (select [=(c0,i7)] (0)) (1)
O2: 7 select 3 r, 3 left 1 0 m => left [=(c0,c2)] (select [=(c2,i7)] (1)) (0)
O2: 7 select 5 x, 5 left 1 2 u => left [=(c2,c4)] (select [exists(6)] (1)) (2)
O2: 7 select 3 rx, 3 left 0 1 m => another form
O2: 7 select 3 l, 3 join 0 1 m => another form
O2: 7 select 3 l, 5 left 0 1 m => another form
O2: 7 select 3 l => another form
O2 pick 1: 7 select 3 l, 3 left 0 1 m => another form
O3: 3 left 0 1 rm => left [=(c0,c2)] (0) (select [=(c2,i7)] (1))
O3: 3 left 0 1 r => left [] (0) (select [=(c2,i7)] (1))
O3: 3 left 0 1 lr => left [=(c0,i7)] (0) (select [=(c2,i7)] (1))
O3: 3 left 0 1 lm => another form
O3: 3 join 0 1 rm => another form
O3: 3 left 0 1 rm, 0 get 0 => another form
O3 pick 1: 3 left 0 1 rm => another form";
    const CHANGED_PLACES: &str =
        "O4: 5 left 3 2 t, 3 join 0 1 m => join [=(c0,c2)] (left [=(c0,c4)] (0) (2)) (1)
O4: 5 left 3 2 l, 3 join 0 1 r => join [=(c2,i7)] (left [=(c0,i7)] (0) (2)) (1)
O4: 5 left 3 2 , 3 join 0 1  => join [] (left [] (0) (2)) (1)
O4: 5 left 3 2 u, 3 join 0 1 m => the condition fails
O4: 5 left 3 2 u, 3 join 1 0 m => join [=(c0,c2)] (left [=(c2,c4)] (1) (2)) (0)
O4: 5 left 3 2 t, 3 join 0 1 t => the condition fails
O4: 5 left 3 2 t, 3 left 0 1 m => another form
O4: 5 join 3 2 t, 3 join 0 1 m => another form
O4: 5 left 1 2 t, 3 join 0 1 m => another form
O4: 5 left 3 2 t => another form
O4 pick 1: 5 left 3 2 t, 3 join 0 1 m => another form
O5: 5 join 3 2 t, 3 left 0 1 m => left [=(c0,c2)] (join [=(c0,c4)] (0) (2)) (1)
O5: 5 join 3 2 , 3 left 0 1 l => left [=(c0,i7)] (join [] (0) (2)) (1)
O5: 5 join 3 2 u, 3 left 0 1 m => the condition fails
O5: 5 join 3 2 t, 3 left 0 1 t => the condition fails
O5: 5 join 3 2 t, 3 join 0 1 m => another form
O5: 5 left 3 2 t, 3 left 0 1 m => another form
O5: 5 join 1 2 t, 3 left 0 1 m => another form
O5 pick 1: 5 join 3 2 t, 3 left 0 1 m => another form";
    const ELIMINATED: &str = "O6: 7 keep 3 0, 3 left 0 1 m => keep 0 (0)
O6: 7 keep 3 0, 3 left 0 1 lm => keep 0 (0)
O6: 7 keep 3 0 1, 4 left 0 1 r => keep 0 1 (0)
O6: 7 keep 3 0, 3 left 0 1 l => the condition fails
O6: 7 keep 3 0 2, 3 left 0 1 m => the condition fails
O6: 7 keep 5 2, 5 left 1 2 u => the condition fails
O6: 7 keep 3 0, 3 join 0 1 m => another form
O6: 7 distinct 3, 3 left 0 1 m => another form
O6 pick 1: 7 keep 3 0, 3 left 0 1 m => another form
O7: 7 keep 3 2, 4 select 4 n, 3 left 1 0 m => keep 2 (anti [=(c0,c2)] [] (1) (0))
O7: 7 keep 3 2, 4 select 4 n, 3 left 1 0  => keep 2 (anti [] [] (1) (0))
O7: 7 keep 3 2, 4 select 4 nr, 3 left 1 0 m => keep 2 (select [=(c2,i7)] (anti [=(c0,c2)] [] (1) (0)))
O7: 7 keep 3 0, 4 select 4 z, 3 left 0 1 m => keep 0 (anti [=(c0,c2)] [] (0) (1))
O7: 7 keep 3 0, 4 select 4 zw, 3 left 0 1 m => keep 0 (anti [=(c0,c2)] [] (0) (1))
O7: 7 keep 3 0, 4 select 4 w, 3 left 0 1 m => the condition fails
O7: 7 keep 3 0, 4 select 4 z, 3 left 0 1 l => the condition fails
O7: 7 keep 3 0 2, 4 select 4 z, 3 left 0 1 m => the condition fails
O7: 7 keep 3 0, 4 select 4 zr, 3 left 0 1 m => the condition fails
O7: 7 keep 3 0, 4 select 4 l, 3 left 0 1 m => the condition fails
O7: 7 keep 3 0, 4 select 4 z, 3 join 0 1 m => another form
O7: 7 keep 3 0, 3 left 0 1 m => another form
O7: 7 distinct 3, 4 select 4 z, 3 left 0 1 m => another form
O7 pick 1: 7 keep 3 0, 4 select 4 z, 3 left 0 1 m => another form";
    assert_eq!(rt;
        differences(
            rt.alloc(),
            &[
                JOINS,
                SELECTS,
                KEEPS,
                OUTER_JOINS,
                CHANGED_PLACES,
                ELIMINATED
            ],
            &Applied
        )
        .as_deref(),
        Ok("")
    );
}

/// A conjunct is picked by its place, a class by its number: 0 is no class of a subquery.
#[test]
fn rules_of_subqueries_apply(rt: HostRuntime) {
    const UNNESTED: &str = "U1: 7 select 3 y => semi [] (3) (2)
U1 pick 1: 7 select 3 ly => select [=(c0,i7)] (semi [] (3) (2))
U1: 7 select 3 yi => select [in(c0,2,c4)] (semi [] (3) (2))
U1: 7 select 0 x => semi [] (0) (6)
U1 pick 1: 7 select 3 lx => the condition fails
U1: 7 select 5 y => the condition fails
U1: 7 select 3 Y => another form
U1: 7 select 3 i => another form
U1 pick 1: 7 select 3 yi => another form
U1: 7 select 3 l => another form
U1 pick 1: 7 select 3 y => another form
U1: 7 distinct 3 => another form
U1: 7 select 3 y, 2 select 2 l => another form
U2: 7 select 3 Y => anti [] [] (3) (2)
U2 pick 1: 7 select 3 lY => select [=(c0,i7)] (anti [] [] (3) (2))
U2: 7 select 0 X => anti [] [] (0) (6)
U2: 7 select 3 X => the condition fails
U2: 7 select 5 Y => the condition fails
U2: 7 select 3 y => another form
U2: 7 select 3 I => another form
U2: 7 select 3 L => another form
U2: 7 select 3 Y, 2 select 2 l => another form
U3: 7 select 3 i => semi [=(c0,c4)] (3) (2)
U3 pick 1: 7 select 3 li => select [=(c0,i7)] (semi [=(c0,c4)] (3) (2))
U3 pick 1: 7 select 3 yi => select [exists(2)] (semi [=(c0,c4)] (3) (2))
U3: 7 select 0 e => semi [=(c0,c4)] (0) (6)
U3: 7 select 3 e => the condition fails
U3: 7 select 5 i => the condition fails
U3: 7 select 3 f => the condition fails
U3: 7 select 3 g => the condition fails
U3: 7 select 3 I => another form
U3: 7 select 3 y => another form
U3: 7 select 3 i, 2 select 2 l => another form
U4: 7 select 3 I => anti [] [=(c0,c4)] (3) (2)
U4 pick 1: 7 select 3 lI => select [=(c0,i7)] (anti [] [=(c0,c4)] (3) (2))
U4: 7 select 0 E => anti [] [=(c0,c4)] (0) (6)
U4: 7 select 3 E => the condition fails
U4: 7 select 5 I => the condition fails
U4: 7 select 3 F => the condition fails
U4: 7 select 3 G => the condition fails
U4: 7 select 3 i => another form
U4: 7 select 3 Y => another form
U4: 7 select 3 L => another form
U4: 7 select 3 I, 2 select 2 l => another form";
    const UNNESTED_SELECTS: &str =
        "U7 pick 1: 7 select 3 lx, 6 select 2 u => select [=(c0,i7)] (semi [=(c2,c4)] (3) (2))
U7: 7 select 3 x, 6 select 2 tu => semi [=(c0,c4);=(c2,c4)] (3) (2)
U7: 7 select 3 x, 6 select 2  => semi [] (3) (2)
U7: 7 select 3 x, 6 select 2 y => the condition fails
U7: 7 select 3 x, 6 select 6 u => the condition fails
U7: 7 select 3 x, 6 select 5 u => the condition fails
U7: 7 select 3 x, 6 keep 2 4 => another form
U7: 7 select 3 X, 6 select 2 u => another form
U7: 7 select 3 e, 6 select 2 u => another form
U7: 7 select 3 x, 2 select 2 u => another form
U7 pick 1: 7 select 3 x, 6 select 2 u => another form
U7: 7 select 3 x => another form
U8: 7 select 3 X, 6 select 2 u => anti [=(c2,c4)] [] (3) (2)
U8 pick 1: 7 select 3 lX, 6 select 2 u => select [=(c0,i7)] (anti [=(c2,c4)] [] (3) (2))
U8: 7 select 3 X, 6 select 2 uy => the condition fails
U8: 7 select 3 X, 6 select 6 u => the condition fails
U8: 7 select 3 X, 6 select 5 u => the condition fails
U8: 7 select 3 X, 6 distinct 2 => another form
U8: 7 select 3 x, 6 select 2 u => another form
U8: 7 select 3 E, 6 select 2 u => another form
U9: 7 select 3 e, 6 select 2 u => semi [=(c0,c4);=(c2,c4)] (3) (2)
U9 pick 1: 7 select 3 le, 6 select 2 u => select [=(c0,i7)] (semi [=(c0,c4);=(c2,c4)] (3) (2))
U9: 7 select 3 e, 6 select 2 t => semi [=(c0,c4)] (3) (2)
U9: 7 select 3 e, 6 select 2 y => the condition fails
U9: 7 select 3 e, 6 select 6 u => the condition fails
U9: 7 select 3 e, 6 select 5 u => the condition fails
U9: 7 select 3 f, 2 select 2 u => the condition fails
U9: 7 select 3 g, 2 select 2 u => the condition fails
U9: 7 select 3 e, 6 keep 2 4 => another form
U9: 7 select 3 x, 6 select 2 u => another form
U9: 7 select 3 E, 6 select 2 u => another form
U10: 7 select 3 E, 6 select 2 u => anti [=(c2,c4)] [=(c0,c4)] (3) (2)
U10 pick 1: 7 select 3 lE, 6 select 2 u => select [=(c0,i7)] (anti [=(c2,c4)] [=(c0,c4)] (3) (2))
U10: 7 select 3 E, 6 select 2 t => anti [=(c0,c4)] [=(c0,c4)] (3) (2)
U10: 7 select 3 E, 6 select 2 y => the condition fails
U10: 7 select 3 E, 6 select 6 u => the condition fails
U10: 7 select 3 E, 6 select 5 u => the condition fails
U10: 7 select 3 F, 2 select 2 u => the condition fails
U10: 7 select 3 G, 2 select 2 u => the condition fails
U10: 7 select 3 E, 6 keep 2 4 => another form
U10: 7 select 3 X, 6 select 2 u => another form
U10: 7 select 3 e, 6 select 2 u => another form";
    const REPLACED: &str = "U6 pick 6: 7 select 3 lx, 6 keep 2 4 => select [=(c0,i7);exists(2)] (3)
U6 pick 6: 7 select 3 xe, 6 keep 2 4 => select [exists(2);in(c0,2,c4)] (3)
U6 pick 6: 7 select 3 XE, 6 distinct 2 => select [not(exists(2));not(in(c0,2,c4))] (3)
U6 pick 6: 7 select 3 xy, 6 keep 2 4 => select [exists(2)] (3)
U6 pick 6: 7 select 3 x, 6 keep 2 5 => select [exists(2)] (3)
U6 pick 6: 7 select 3 xf, 6 keep 2 4 => select [exists(2);in(c0,2,c3)] (3)
U6 pick 6: 7 select 3 e, 6 keep 2 5 => the condition fails
U6 pick 6: 7 select 3 xE, 6 keep 2 5 => the condition fails
U6 pick 6: 7 select 3 e, 6 distinct 2 => select [in(c0,2,c4)] (3)
U6 pick 6: 7 select 3 e, 6 select 2 u => another form
U6 pick 2: 7 select 3 e, 6 keep 2 4 => another form
U6 pick 2: 7 select 3 e, 2 keep 1 2 => another form
U6: 7 select 3 e, 6 keep 2 4 => another form
U6 pick 6: 7 distinct 3, 6 keep 2 4 => another form
U6 pick 6: 7 select 3 e => another form";
    const SEMIJOINS: &str = "U5: 7 anti 0 2 /l => anti [=(c0,i7)] [] (0) (2)
U5: 7 anti 0 1 r/lmo => anti [=(c0,c0);=(c0,i7);=(c2,i7)] [=(c0,c2)] (0) (1)
U5: 7 anti 1 0 /l => anti [=(c0,i7)] [] (1) (0)
U5: 7 anti 0 2 /t => another form
U5: 7 anti 0 2 l/t => another form
U5: 7 anti 0 1 /r => another form
U5: 7 anti 1 2 /l => another form
U5: 7 anti 0 2 /dLn => another form
U5: 7 anti 0 2 l => another form
U5: 7 semi 0 2 l => another form
U5 pick 1: 7 anti 0 2 /l => another form
U5: 7 anti 0 2 /l, 0 get 0 => another form
U11: 7 semi 3 2 t, 3 join 0 1 m => join [=(c0,c2)] (semi [=(c0,c4)] (0) (2)) (1)
U11: 7 semi 3 2 , 3 join 0 1  => join [] (semi [] (0) (2)) (1)
U11: 7 semi 3 2 u, 4 join 1 0 m => join [=(c0,c2)] (semi [=(c2,c4)] (1) (2)) (0)
U11: 7 anti 3 2 t/l, 3 join 0 1 m => join [=(c0,c2)] (anti [=(c0,c4)] [=(c0,i7)] (0) (2)) (1)
U11: 7 semi 3 2 u, 3 join 0 1 m => the condition fails
U11: 7 semi 3 2 tr, 3 join 0 1 m => the condition fails
U11: 7 semi 3 2 t, 3 join 0 1 mu => the condition fails
U11: 7 anti 3 2 u/t, 3 join 0 1 m => the condition fails
U11: 7 anti 3 2 t/u, 3 join 0 1 m => the condition fails
U11: 7 anti 3 2 t/l, 3 join 0 1 u => the condition fails
U11: 7 join 3 2 t, 3 join 0 1 m => another form
U11: 7 semi 3 2 t, 3 left 0 1 m => another form
U11: 7 semi 0 2 t, 3 join 0 1 m => another form
U11: 7 semi 3 2 t => another form
U11 pick 1: 7 semi 3 2 t, 3 join 0 1 m => another form
U12: 7 semi 1 0 m => keep 2 3 (join [=(c0,c2)] (1) (0))
U12: 7 semi 0 1 m => keep 0 1 (join [=(c0,c2)] (0) (1))
U12: 7 semi 0 1 lr => keep 0 1 (join [=(c0,i7);=(c2,i7)] (0) (1))
U12: 7 semi 0 2 t => the condition fails
U12: 7 semi 0 1 l => the condition fails
U12: 7 semi 0 1  => the condition fails
U12: 7 anti 1 0 m => another form
U12: 7 join 1 0 m => another form
U12: 7 semi 1 0 m, 1 get 1 => another form
U12 pick 1: 7 semi 1 0 m => another form";
    assert_eq!(rt;
        differences(
            rt.alloc(),
            &[UNNESTED, UNNESTED_SELECTS, REPLACED, SEMIJOINS],
            &Applied
        )
        .as_deref(),
        Ok("")
    );
}

/// Each code is that of the rule that is found by it, and a text that is none finds no rule.
#[test]
fn rules_are_found(rt: HostRuntime) {
    for code in [
        "J1", "J2", "S1", "S2", "S3", "S4", "S5", "K1", "K2", "K3", "D1", "G1", "G2", "O1", "O2",
        "O3", "O4", "O5", "O6", "O7", "U1", "U2", "U3", "U4", "U5", "U6", "U7", "U8", "U9", "U10",
        "U11", "U12",
    ] {
        assert_eq!(rt; RuleName::of_code(code).map(|rule| rule.code()), Some(code));
    }
    for rule in RuleName::all() {
        assert_eq!(rt; RuleName::of_code(rule.code()), Some(*rule));
    }
    for text in [
        "", "J", "J3", "j1", "J1 ", "JJ1", "O8", "U", "U0", "U13", "U01",
    ] {
        assert_eq!(rt; RuleName::of_code(text), None);
    }
}
