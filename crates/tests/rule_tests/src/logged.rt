//! Logs of lines, judged one after the other.

use crate::answers::TABLES;
use crate::classes::fact_of;
use crate::words::{cut, line_of, number, numbers_of};
use book::RuleName;
use derivation::{Line, LineReason, Step};
use fixtures::{QueryReporting, push_number, query_differences};
use logs::Log;
use query::BoundQuery;
use std::alloc::{AllocError, Global};
use store::Database;
use values::{Boxed, Fault};

/// The rule of a code. Where there is none, that is reported.
fn rule_of(code: &str, reported: &mut String) -> Result<RuleName, AllocError> {
    match RuleName::of_code(code) {
        Some(rule) => Ok(rule),
        None => {
            reported.push_str("no such rule. ")?;
            Ok(RuleName::KeepOfAll)
        }
    }
}

/// A step: `RULE USES MAKES`.
fn step_of(alloc: Global, words: &str, reported: &mut String) -> Result<Boxed<Step>, AllocError> {
    let (rule, words) = cut(words);
    let (uses, makes) = cut(words);
    let rule = rule_of(rule, reported)?;
    let uses = numbers_of(alloc, uses)?;
    let makes = numbers_of(alloc, makes)?;
    Boxed::new(
        alloc,
        Step {
            rule,
            pick: 0,
            uses,
            makes,
        },
    )
}

/// A line: `A CLASS STEP: ` and an expression's line, `S CLASS CLASS STEP`, `G LINE LINE`, `L CLASS LINE: FACT`, or an expression's line
/// that founds a class.
fn log_line_of(alloc: Global, text: &str, reported: &mut String) -> Result<Line, AllocError> {
    let (words, more) = text.split_once(": ").unwrap_or((text, ""));
    let (kind, words) = cut(words);
    let (first, words) = cut(words);
    let (second, step) = cut(words);
    Ok(match kind {
        "A" => Line::Adds(
            number(first),
            step_of(alloc, words, reported)?,
            line_of(alloc, more)?.1,
        ),
        "S" => Line::Unites(
            number(first),
            number(second),
            step_of(alloc, step, reported)?,
        ),
        "G" => Line::Alike(number(first), number(second)),
        "L" => Line::Gives(number(first), number(second), fact_of(alloc, more)?),
        _ => Line::Founds(line_of(alloc, text)?.1),
    })
}

fn copied_line_of(alloc: Global, text: &str, reported: &mut String) -> Result<Line, AllocError> {
    log_line_of(alloc, text, reported)?.copy(alloc)
}

fn name(reason: LineReason) -> &'static str {
    match reason {
        LineReason::UnknownLine => "unknown line",
        LineReason::IllFormed => "ill formed",
        LineReason::OtherForm => "other form",
        LineReason::FailedCondition(rule) => rule.code(),
        LineReason::FailedFact => "no such fact",
        LineReason::OtherLine => "other line",
    }
}

/// Pushes copies of lines, and reports why each is refused that may not stand, with the number that it would have.
fn push_lines(
    alloc: Global,
    log: &mut Log<'_>,
    lines: &str,
    reported: &mut String,
) -> Result<(), AllocError> {
    for text in lines.split("; ") {
        match log.push(alloc, copied_line_of(alloc, text, reported)?) {
            Ok(()) => {}
            Err(Fault::Memory) => return Err(AllocError),
            Err(Fault::Refused(reason)) => {
                reported.push_str(name(reason))?;
                push_number(reported, " at ", log.lines().len())?;
                reported.push_str(". ")?;
            }
        }
    }
    Ok(())
}

/// Reports why each line is refused that may not stand, with the number that it would have; else what the log says of the classes 1
/// and 2. A refused line isn't there for those behind it.
struct Pushed;

impl QueryReporting for Pushed {
    fn report(
        &self,
        alloc: Global,
        _database: &Database<'_>,
        query: &BoundQuery,
        more: &str,
        reported: &mut String,
    ) -> Result<(), AllocError> {
        let mut log = Log::new(alloc, query.query().tables.as_slice(), &[]);
        push_lines(alloc, &mut log, more, reported)?;
        reported.push_str(said_of(&log))?;
        push_number(reported, ", lines ", log.into_lines().len())
    }
}

/// What a log says of the classes 1 and 2.
fn said_of(log: &Log<'_>) -> &'static str {
    if log.are_same(1, 2) {
        "1 is 2"
    } else if log.member(2).is_some()
        && log.classes().columns.columns_of(1) == log.classes().columns.columns_of(2)
    {
        "1 is like 2"
    } else {
        "1 and 2"
    }
}

/// Queries, lines, and the first that may not stand.
#[test]
fn lines_are_judged(rt: HostRuntime) {
    const FACTS: &str =
        "SELECT id FROM emp => 0 get 0; 1 keep 0 0; 2 distinct 1; L 0 0: notnull 0; L 0 0: weak 0; L 0 0: strong 0; L 1 1: strong 0; S 2 1 D1 2 - => 1 is 2, lines 8
SELECT id FROM emp => 0 get 0; 1 keep 0 0; 2 distinct 1; L 0 0: notnull 0; L 0 0: weak 0; L 1 1: strong 0 => no such fact at 5. 1 is like 2, lines 5
SELECT id FROM emp => 0 get 0; 1 keep 0 0; 2 distinct 1; S 2 1 D1 2 - => D1 at 3. 1 is like 2, lines 3
SELECT id FROM emp => 0 get 0; L 1 0: weak 0; 2 keep 0 0 => unknown line at 1. 1 and 2, lines 2
SELECT id FROM emp => 0 get 0; 1 keep 0 0; L 1 0: weak 0 => other form at 2. 1 and 2, lines 2
SELECT id FROM emp => 0 get 0; 1 keep 0 0; L 1 1: weak 1 => ill formed at 2. 1 and 2, lines 2";
    const SAME: &str =
        "SELECT id FROM emp => 0 get 0; 1 keep 0 0; 2 keep 0 0; G 1 2 => 1 is 2, lines 4
SELECT id FROM emp => 0 get 0; 1 keep 0 0; 2 keep 0 0; 3 keep 0 0; 4 distinct 1; 5 distinct 2; G 4 5 => other form at 6. 1 is like 2, lines 6
SELECT id FROM emp => 0 get 0; 1 keep 0 0; 2 keep 0 0; G 1 2; 4 distinct 1; 5 distinct 2; G 4 5 => 1 is 2, lines 7
SELECT id FROM emp => 0 get 0; 1 keep 0 0; 2 keep 0 1; G 1 2 => other form at 3. 1 and 2, lines 3
SELECT id FROM emp => 0 get 0; 1 keep 0 0; 2 keep 0 0; G 1 2; L 0 0: notnull 0; L 0 0: weak 0; L 0 0: strong 0; L 1 1: strong 0; 8 distinct 2; S 8 2 D1 8 - => 1 is 2, lines 10
SELECT id FROM emp => 0 get 0; 1 keep 0 0; 2 keep 0 0; L 0 0: notnull 0; L 0 0: weak 0; L 0 0: strong 0; L 1 1: strong 0; 7 distinct 2; S 7 2 D1 7 - => D1 at 8. 1 is like 2, lines 8
SELECT id FROM emp => 0 get 0; 1 keep 0 0; 2 distinct 1; 3 distinct 2; L 0 0: notnull 0; L 0 0: weak 0; L 0 0: strong 0; L 1 1: strong 0; S 2 3 D1 2 - => other line at 8. 1 is like 2, lines 8";
    const MEMBERS: &str =
        "SELECT id FROM emp => 0 get 0; 1 group 0 0; 2 keep 0 0; A 1 G1 1 2: 1 distinct 2 => 1 is like 2, lines 4
SELECT id FROM emp => 0 get 0; 1 group 0 0; 2 keep 0 0; A 1 G1 1 2: 1 distinct 1 => other line at 3. 1 is like 2, lines 3
SELECT id FROM emp => 0 get 0; 1 group 0 0; 2 keep 0 0; A 1 G1 1 3: 1 distinct 2 => unknown line at 3. 1 is like 2, lines 3
SELECT id FROM emp => 0 get 0; 1 group 0 0; 2 keep 0 0; A 1 G1 2 2: 1 distinct 2 => other form at 3. 1 is like 2, lines 3
SELECT id FROM emp => 0 get 0; 1 group 0 0; 2 keep 0 1; A 1 G1 1 2: 1 distinct 2 => ill formed at 3. 1 and 2, lines 3
SELECT id FROM emp => 0 get 0; 1 keep 1 0 => unknown line at 1. 1 and 2, lines 1
SELECT id FROM emp => 0 get 0; 1 keep 0 5 => ill formed at 1. 1 and 2, lines 1";
    const REFUSED: &str =
        "SELECT id FROM emp => 0 get 0; 1 keep 0 5; 1 keep 0 0; 2 keep 0 0; G 1 2 => ill formed at 1. 1 is 2, lines 4
SELECT id FROM emp => 0 get 0; 1 keep 0 0; L 1 1: strong 0; 2 distinct 1; S 2 1 D1 2 - => no such fact at 2. D1 at 3. 1 is like 2, lines 3
SELECT id FROM emp => 0 get 0; 1 keep 0 0; G 1 2 => unknown line at 2. 1 and 2, lines 2
SELECT id FROM emp => 0 get 0; 1 keep 0 0; A 1 G1 3 -: 1 keep 0 0 => unknown line at 2. 1 and 2, lines 2
SELECT id FROM emp => 0 get 0; 1 keep 0 0; 2 distinct 1; S 2 1 J1 2 - => other form at 3. 1 is like 2, lines 3
SELECT id FROM emp => 0 get 0; 1 keep 0 0; 2 distinct 1; S 2 1 J9 2 - => no such rule. other form at 3. 1 is like 2, lines 3";
    assert_eq!(rt;
        query_differences(
            rt.alloc(),
            TABLES,
            &[FACTS, SAME, MEMBERS, REFUSED],
            &Pushed
        )
        .as_deref(),
        Ok("")
    );
}

/// Reports for the number of each line, and for the number behind them, the lines of the class.
struct Lent;

impl QueryReporting for Lent {
    fn report(
        &self,
        alloc: Global,
        _database: &Database<'_>,
        query: &BoundQuery,
        more: &str,
        reported: &mut String,
    ) -> Result<(), AllocError> {
        let mut log = Log::new(alloc, query.query().tables.as_slice(), &[]);
        push_lines(alloc, &mut log, more, reported)?;
        let count = u32::try_from(log.lines().len()).unwrap_or(0);
        for class in 0..=count {
            push_number(
                reported,
                if class == 0 { "" } else { " | " },
                class as usize,
            )?;
            reported.push_str(":")?;
            let mut members = log.members(alloc, class)?;
            members.sort()?;
            for line in &members {
                push_number(reported, " ", *line as usize)?;
            }
        }
        Ok(())
    }
}

/// Queries, lines, and the lines of each class: founded, added, and united both ways round.
#[test]
fn members_are_lent(rt: HostRuntime) {
    const ADDED: &str =
        "SELECT id FROM emp => 0 get 0; 1 group 0 0; 2 keep 0 0; A 1 G1 1 2: 1 distinct 2 => 0: 0 | 1: 1 3 | 2: 2 | 3: | 4:
SELECT id FROM emp => 0 get 0; 1 group 0 0; 2 keep 0 0; A 1 G1 1 2: 1 distinct 2; A 1 G1 1 2: 1 distinct 2; 5 keep 0 1 => 0: 0 | 1: 1 3 4 | 2: 2 | 3: | 4: | 5: 5 | 6:
SELECT id FROM emp => 0 get 0; 1 keep 0 0; L 1 1: strong 0 => no such fact at 2. 0: 0 | 1: 1 | 2:";
    const UNITED: &str =
        "SELECT id FROM emp => 0 get 0; 1 keep 0 0; 2 keep 0 0; G 1 2 => 0: 0 | 1: 1 2 | 2: 1 2 | 3: | 4:
SELECT id FROM emp => 0 get 0; 1 keep 0 0; 2 keep 0 0; G 2 1 => 0: 0 | 1: 1 2 | 2: 1 2 | 3: | 4:
SELECT id FROM emp => 0 get 0; 1 keep 0 0; 2 keep 0 0; 3 keep 0 0; G 1 2; G 3 2; G 1 3 => 0: 0 | 1: 1 2 3 | 2: 1 2 3 | 3: 1 2 3 | 4: | 5: | 6: | 7:
SELECT id FROM emp => 0 get 0; 1 group 0 0; 2 keep 0 0; A 1 G1 1 2: 1 distinct 2; 4 group 0 0; G 4 1; A 4 G1 4 2: 4 distinct 2 => 0: 0 | 1: 1 3 4 6 | 2: 2 | 3: | 4: 1 3 4 6 | 5: | 6: | 7:
SELECT id FROM emp => 0 get 0; 1 group 0 0; 2 keep 0 0; A 1 G1 1 2: 1 distinct 2; 4 group 0 0; G 1 4; A 1 G1 4 2: 1 distinct 2 => 0: 0 | 1: 1 3 4 6 | 2: 2 | 3: | 4: 1 3 4 6 | 5: | 6: | 7:";
    assert_eq!(rt;
        query_differences(rt.alloc(), TABLES, &[ADDED, UNITED], &Lent).as_deref(),
        Ok("")
    );
}
