//! Rules that no book lists, some of patterns that none of its rules has: applied, and refused.

use crate::applied::push_applied;
use crate::classes::{Known, known_classes};
use crate::words::{lines_of, matched_lines, number};
use algebra::{ClassId, Expr};
use fixtures::{Reporting, differences};
use pattern_rules::input_exists::InputExists;
use pattern_rules::right_select_of_none::RightSelectOfNone;
use pattern_rules::right_selects_merge::RightSelectsMerge;
use rules::{Match, Rule};
use std::alloc::{AllocError, Global};

/// Reports what a rule gives at lines of its pattern; of others, that they aren't.
fn report_rule<R: Rule>(
    alloc: Global,
    at: Match<'_>,
    reported: &mut String,
) -> Result<(), AllocError> {
    push_applied(alloc, reported, &R::apply(alloc, at))?;
    let fits = R::pattern().fits(alloc, at)?;
    reported.push_str(if fits { "" } else { ", another pattern" })
}

/// The same of the rule of a name.
fn report_unlisted(
    alloc: Global,
    name: &str,
    pick: u32,
    lines: &[(ClassId, Expr)],
    known: &Known,
    reported: &mut String,
) -> Result<(), AllocError> {
    let matched = matched_lines(alloc, lines)?;
    let at = Match {
        lines: matched.as_slice(),
        pick,
        classes: known.lent(),
    };
    match name {
        "right-selects-merge" => report_rule::<RightSelectsMerge>(alloc, at, reported),
        "right-select-of-none" => report_rule::<RightSelectOfNone>(alloc, at, reported),
        "input-exists" => report_rule::<InputExists>(alloc, at, reported),
        _ => reported.push_str("no such rule"),
    }
}

/// Reports what the rule of a name gives at lines.
struct Unlisted;

impl Reporting for Unlisted {
    fn report(&self, alloc: Global, text: &str, reported: &mut String) -> Result<(), AllocError> {
        let (name, lines) = text.split_once(": ").unwrap_or((text, ""));
        let (name, pick) = name.split_once(" pick ").unwrap_or((name, "0"));
        let lines = lines_of(alloc, lines)?;
        report_unlisted(
            alloc,
            name,
            number(pick),
            lines.as_slice(),
            &known_classes(alloc)?,
            reported,
        )
    }
}

/// The letters of conditions are those of src/words.rt, the classes those of src/classes.rt: 3 and 4 are the same.
#[test]
fn unlisted_rules_apply(rt: HostRuntime) {
    const RIGHT: &str =
        "right-selects-merge: 7 join 2 4 u, 3 select 4 lr, 4 select 3 rm => join [=(c2,c4)] (2) (select [=(c0,c2);=(c0,i7);=(c2,i7)] (3))
right-selects-merge: 7 join 2 4 , 4 select 3 l, 3 select 4 l => join [] (2) (select [=(c0,i7)] (4))
right-selects-merge: 7 join 4 2 u, 3 select 4 lr, 4 select 3 rm => another form, another pattern
right-selects-merge: 7 join 2 4 u, 3 select 4 lr, 0 select 0 l => another form, another pattern
right-selects-merge: 7 join 2 4 u, 0 select 0 l, 0 select 0 l => another form, another pattern
right-selects-merge: 7 left 2 4 u, 3 select 4 lr, 4 select 3 rm => another form, another pattern
right-selects-merge: 7 join 2 4 u, 3 distinct 4, 4 select 3 rm => another form, another pattern
right-selects-merge: 7 join 2 4 u, 3 select 4 lr, 4 join 0 1 m => another form, another pattern
right-selects-merge: 7 join 2 4 u, 3 select 4 lr => another form, another pattern
right-selects-merge pick 1: 7 join 2 4 u, 3 select 4 lr, 4 select 3 rm => another form, another pattern";
    const NONE: &str = "right-select-of-none: 7 join 2 4 u, 3 select 4  => join [=(c2,c4)] (2) (4)
right-select-of-none: 7 join 2 4 u, 3 select 4 l => another form
right-select-of-none: 7 join 4 2 u, 3 select 4  => another form, another pattern
right-select-of-none: 7 left 2 4 u, 3 select 4  => another form, another pattern
right-select-of-none: 7 join 2 4 u, 3 distinct 4 => another form, another pattern
right-select-of-none: 7 join 2 4 u => another form, another pattern
right-select-of-none pick 1: 7 join 2 4 u, 3 select 4  => another form, another pattern";
    const EXISTS: &str =
        "input-exists pick 1: 7 select 3 lx, 6 keep 2 4 => select [=(c0,i7);exists(2);exists(6)] (3)
input-exists pick 1: 7 select 3 lx, 6 select 2 u => select [=(c0,i7);exists(2);exists(6)] (3)
input-exists: 7 select 3 x, 6 keep 6 4 => select [exists(6)] (3)
input-exists pick 1: 7 select 3 le, 6 keep 2 4 => another form
input-exists pick 0: 7 select 3 lx, 6 keep 2 4 => another form, another pattern
input-exists pick 2: 7 select 3 lx, 6 keep 2 4 => another form, another pattern
input-exists pick 1: 7 select 3 lx, 6 distinct 2 => another form, another pattern
input-exists pick 1: 7 select 3 lx, 3 select 3 l => another form, another pattern
input-exists pick 1: 7 select 3 lx => another form, another pattern
input-exists: 7 join 0 1 m, 6 keep 2 4 => another form, another pattern";
    assert_eq!(rt;
        differences(rt.alloc(), &[RIGHT, NONE, EXISTS], &Unlisted).as_deref(),
        Ok("")
    );
}
