//! When rules are tried.

use crate::classes::{Known, known_classes};
use crate::words::lines_of;
use algebra::{ClassId, Expr};
use book::RuleName;
use fixtures::{Reporting, differences};
use rules::{Match, MatchedLine, Promise};
use std::alloc::{AllocError, Global};

fn report_promise(
    alloc: Global,
    rule: RuleName,
    lines: &[(ClassId, Expr)],
    known: &Known,
    reported: &mut String,
) -> Result<(), AllocError> {
    let mut matched = Vec::new(alloc);
    for line in lines {
        matched.push(MatchedLine {
            class: line.0,
            expr: &line.1,
        })?;
    }
    let at = Match {
        lines: matched.as_slice(),
        pick: 0,
        classes: known.lent(),
    };
    reported.push_str(match rule.promise(alloc, at)? {
        Promise::Simpler => "simpler",
        Promise::Connected => "connected",
        Promise::Products => "a product",
        Promise::Projections => "a projection more",
    })
}

/// Reports what the rule of a code promises at lines.
struct Promising;

impl Reporting for Promising {
    fn report(&self, alloc: Global, text: &str, reported: &mut String) -> Result<(), AllocError> {
        let (code, lines) = text.split_once(": ").unwrap_or((text, ""));
        let Some(rule) = RuleName::of_code(code) else {
            return reported.push_str("no such rule");
        };
        let lines = lines_of(alloc, lines)?;
        report_promise(
            alloc,
            rule,
            lines.as_slice(),
            &known_classes(alloc)?,
            reported,
        )
    }
}

/// The letters of conditions are those of src/words.rt, the classes those of src/classes.rt.
#[test]
fn rules_promise(rt: HostRuntime) {
    const JOINS: &str = "J1: 3 join 0 1 m => connected
J1: 3 join 0 1  => a product
J2: 7 join 3 2 u, 3 join 0 1 m => connected
J2: 7 join 3 2 u, 4 join 0 1  => connected
J2: 7 join 3 2 t, 3 join 0 1 m => a product
J2: 7 join 3 2 , 4 join 0 1  => a product
J2: 7 join 3 2 rt, 3 join 0 1 m => a product
S2: 7 select 3 l, 3 join 0 1 m => connected
S3: 7 select 3 l, 4 join 0 1  => connected
S4: 3 join 0 1 lm => connected
S5: 7 select 0 l, 0 semi 0 1 m => connected
O4: 5 left 3 2 t, 3 join 0 1  => connected
O5: 5 join 3 2 , 3 left 0 1 m => connected";
    const OTHERS: &str = "S1: 7 select 3 lr, 4 select 3 rm => simpler
K1: 7 keep 3 0, 4 keep 3 0 2 => simpler
K2: 7 keep 1 2 => simpler
K3: 7 keep 3 1 3, 3 join 0 1 m => a projection more
D1: 7 distinct 1 => simpler
G1: 7 group 3 0 2 => simpler
G2: 7 select 3 l, 3 count 4 0 => simpler
O1: 7 select 3 r, 3 left 0 1 m => simpler
O1: 7 select 3 l, 3 left 0 1 m => simpler
O2: 7 select 3 l, 3 left 0 1 m => simpler
O3: 3 left 0 1 rm => simpler
O6: 7 keep 3 0, 3 left 0 1 m => simpler
O7: 7 keep 3 0, 4 select 4 z, 3 left 0 1 m => simpler";
    const SUBQUERIES: &str = "U1: 7 select 3 y => simpler
U2: 7 select 3 Y => simpler
U3: 7 select 3 i => simpler
U4: 7 select 3 I => simpler
U5: 7 anti 0 2 /l => simpler
U6: 7 select 3 x, 6 keep 2 4 => simpler
U7: 7 select 3 x, 6 select 2 u => simpler
U8: 7 select 3 X, 6 select 2 u => simpler
U9: 7 select 3 e, 6 select 2 u => simpler
U10: 7 select 3 E, 6 select 2 u => simpler
U11: 7 semi 3 2 t, 3 join 0 1 m => connected
U11: 7 semi 3 2 , 3 join 0 1  => connected
U12: 7 semi 1 0 m => connected";
    assert_eq!(rt;
        differences(rt.alloc(), &[JOINS, OTHERS, SUBQUERIES], &Promising).as_deref(),
        Ok("")
    );
}
