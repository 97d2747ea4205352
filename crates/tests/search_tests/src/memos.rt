//! Memos: logs whose lines are found by their expressions up to which classes are the same.

use bindings::{Binding, BoundLines};
use closure::{Missing, is_closed, missing};
use derivation::{Line, Step};
use explore::{Products, apply_all, explore};
use fixtures::{
    COMPANY, DEPT, EMP, QueryReporting, Tables, push_number, push_numbers, query_differences,
};
use lean_logs::LeanLog;
use logs::Log;
use memo::Memo;
use plan_words::derived::{expr_of, fact_of, lines_of, numbers_of, rule_of};
use plan_words::plans::{cut, id};
use query::BoundQuery;
use std::alloc::{AllocError, Global};
use store::Database;
use values::Fault;

/// Lines of a log, at most.
const LIMIT: usize = 20_000;

const TABLES: Tables<'static> = Tables {
    schema: COMPANY,
    first: DEPT,
    second: EMP,
};

/// The number, or `none`.
fn push_found(reported: &mut String, found: Option<u32>) -> Result<(), AllocError> {
    match found {
        Some(number) => push_number(reported, "", number as usize),
        None => reported.push_str("none"),
    }
}

/// So often a log gets something at most that it lacks.
const MOST_LACKING: usize = 100;

/// Gives a log one by one what it lacks, and adds how many times.
fn push_given(alloc: Global, reported: &mut String, memo: &mut Memo<'_>) -> Result<(), AllocError> {
    for count in 0..MOST_LACKING {
        let Some(lacking) = missing(alloc, memo.log())? else {
            return push_number(reported, "", count);
        };
        match lacking {
            Missing::Alike(first, second) => memo.add(alloc, Line::Alike(first, second))?,
            Missing::Result(binding) => {
                let _ = memo.apply(alloc, binding)?;
            }
            Missing::Fact(class, line, fact) => memo.add(alloc, Line::Gives(class, line, fact))?,
        }
    }
    reported.push_str("too many")
}

/// The step of a line that says what a rule gives.
fn step_of(line: &Line) -> Option<&Step> {
    match line {
        Line::Adds(_, step, _) | Line::Unites(_, _, step) => Some(step.get()),
        Line::Founds(_) | Line::Alike(_, _) | Line::Gives(_, _, _) => None,
    }
}

/// How many lines found something that the next line which founds nothing doesn't name among what its result is made of.
fn count_unnamed(alloc: Global, lines: &[Line]) -> Result<usize, AllocError> {
    let mut waiting = Vec::new(alloc);
    let mut count = 0usize;
    for (number, line) in lines.iter().enumerate() {
        if let Line::Founds(_) = line {
            waiting.push(number)?;
        } else {
            for founded in &waiting {
                let is_named = step_of(line).is_some_and(|step| step
                    .makes
                    .as_slice()
                    .iter()
                    .any(|make| *make as usize == *founded));
                if !is_named {
                    count = count.saturating_add(1);
                }
            }
            waiting.clear();
        }
    }
    Ok(count)
}

/// The lines of a binding, if there are one to three.
fn lines_bound(uses: &[u32]) -> Option<BoundLines> {
    match uses {
        [top] => Some(BoundLines::One(*top)),
        [top, below] => Some(BoundLines::Two(*top, *below)),
        [top, below, lowest] => Some(BoundLines::Three(*top, *below, *lowest)),
        _ => None,
    }
}

/// Does what the words say, and adds what comes of it: `found EXPR` the class, `line CLASS EXPR` and `apply RULE LINES` the line,
/// `learn CLASS FACT` whether it is known, `members CLASS` and `parents CLASS` lines, `explore` and `closed` whether nothing more can be added,
/// `give` how many things the log lacked, `unnamed` how many lines found something that the next result doesn't name.
fn push_done(
    alloc: Global,
    reported: &mut String,
    memo: &mut Memo<'_>,
    words: &str,
) -> Result<(), AllocError> {
    let (verb, more) = cut(words, " ");
    let (first, rest) = cut(more, " ");
    match verb {
        "found" => push_found(reported, memo.intern(alloc, expr_of(alloc, more)?)?),
        "line" => push_found(
            reported,
            memo.line_of(alloc, id(first), &expr_of(alloc, rest)?)?,
        ),
        "apply" => {
            let uses = numbers_of(alloc, rest)?;
            let found = match lines_bound(uses.as_slice()) {
                Some(lines) => {
                    let rule = rule_of(first);
                    memo.apply(
                        alloc,
                        Binding {
                            rule,
                            pick: 0,
                            lines,
                        },
                    )?
                }
                None => None,
            };
            push_found(reported, found)
        }
        "learn" => {
            let is_known = memo.learn(alloc, id(first), fact_of(alloc, rest)?)?;
            reported.push_str(if is_known { "known" } else { "not known" })
        }
        "explore" => {
            apply_all(alloc, memo, Products::Made)?;
            let is_whole = explore(alloc, memo)?;
            reported.push_str(if is_whole { "whole" } else { "not whole" })
        }
        "give" => push_given(alloc, reported, memo),
        "unnamed" => push_number(reported, "", count_unnamed(alloc, memo.log().lines())?),
        "closed" => {
            let is_closed = is_closed(alloc, memo.log())?;
            reported.push_str(if is_closed { "closed" } else { "open" })
        }
        "members" => push_numbers(
            reported,
            "",
            " ",
            memo.members(alloc, id(first))?.as_slice(),
        ),
        "parents" => push_numbers(reported, "", " ", memo.parents(id(first))?.as_slice()),
        _ => reported.push_str("what?"),
    }
}

/// The letter of a line, the class to which it adds, and the classes or lines that it says are the same.
fn push_kind(reported: &mut String, line: &Line) -> Result<(), AllocError> {
    match line {
        Line::Founds(_) => reported.push_str(" F"),
        Line::Adds(class, _, _) => push_number(reported, " A", *class as usize),
        Line::Unites(first, second, _) => {
            push_number(reported, " S", *first as usize)?;
            push_number(reported, ",", *second as usize)
        }
        Line::Alike(first, second) => {
            push_number(reported, " G", *first as usize)?;
            push_number(reported, ",", *second as usize)
        }
        Line::Gives(class, _, _) => push_number(reported, " L", *class as usize),
    }
}

/// A log of the lines that may stand.
fn log_of<'q>(alloc: Global, query: &'q BoundQuery, words: &str) -> Result<Log<'q>, AllocError> {
    let mut log = Log::new(alloc, query.query().tables.as_slice(), &[]);
    for line in lines_of(alloc, words)?.as_slice() {
        match log.push(alloc, line.copy(alloc)?) {
            Ok(()) | Err(Fault::Refused(_)) => {}
            Err(Fault::Memory) => return Err(AllocError),
        }
    }
    Ok(log)
}

/// Reports what comes of a memo of lines, ` / ` and what is done with it, and then the kinds of all lines. The log has so many at most.
struct Grown {
    limit: usize,
}

impl QueryReporting for Grown {
    fn report(
        &self,
        alloc: Global,
        _database: &Database<'_>,
        query: &BoundQuery,
        more: &str,
        reported: &mut String,
    ) -> Result<(), AllocError> {
        let (lines, deeds) = cut(more, " / ");
        let log = LeanLog::behind(alloc, log_of(alloc, query, lines)?)?;
        let mut memo = Memo::of(alloc, log, self.limit)?;
        for deed in deeds.split("; ") {
            push_done(alloc, reported, &mut memo, deed)?;
            reported.push_str("; ")?;
        }
        reported.push_str("lines")?;
        let log = memo.into_log();
        for line in log.lines() {
            push_kind(reported, line)?;
        }
        Ok(())
    }
}

/// A step adds its line once, and what it makes stands before it.
#[test]
fn lines_are_added_once(rt: HostRuntime) {
    const TURNED: &str =
        "SELECT d.id FROM dept d, emp e => F get 0; F get 1; F join [] 0 1 / apply J1 2; apply J1 2; apply J1 3; line 2 join [] 1 0; line 0 join [] 1 0; apply J1 0; members 2; parents 0 => 3; 3; 2; 3; none; none; 2 3; 2 3; lines F F F A2";
    const MADE: &str =
        "SELECT d.id FROM dept d, emp e => F get 0; F get 1; F join [] 0 1; F select [>(c0,i5)] 2 / apply S2 3,2; apply S2 3,2; found select [>(c0,i5)] 0; found select [>(c0,i5)] 7; parents 4 => 5; 5; 4; none; 5; lines F F F F F A3";
    assert_eq!(rt;
        query_differences(rt.alloc(), TABLES, &[TURNED, MADE], &Grown { limit: LIMIT }).as_deref(),
        Ok("")
    );
}

/// Where two classes become the same, so do those of lines over them that are alike, and those of lines over these.
#[test]
fn alike_lines_are_of_one_class(rt: HostRuntime) {
    const LATER: &str =
        "SELECT id FROM emp => F get 0; F keep 0 0; F distinct 1; F select [>(c0,i5)] 1; F select [>(c0,i5)] 2; F distinct 3; F distinct 4; L 0 0 notnull 0; L 0 0 weak 0; L 0 0 strong 0; L 1 1 strong 0 / parents 1; apply D1 2; members 2; members 4; members 6; parents 1; parents 4; members 11; apply D1 2 => 2 3; 11; 1 2; 3 4; 5 6; 2 3 4; 5 6; ; 2; lines F F F F F F F L0 L0 L0 L1 S2,1 G3,4 G5,6
SELECT id FROM dept => F get 0; F keep 0 0; F distinct 1; F select [exists(1)] 0; F select [exists(2)] 0; L 0 0 notnull 0; L 0 0 weak 0; L 0 0 strong 0; L 1 1 strong 0 / apply D1 2; members 4; parents 2; found select [exists(2)] 0 => 9; 3 4; 2 3 4; 3; lines F F F F F L0 L0 L0 L1 S2,1 G3,4";
    const AT_FIRST: &str =
        "SELECT id FROM emp => F get 0; F keep 0 0; F keep 0 0; F distinct 1; F distinct 2; F distinct 4 / members 2; members 4; parents 2; parents 3 => 1 2; 3 4; 3 4; 5; lines F F F F F F G1,2 G3,4
SELECT id FROM emp => F get 0; F keep 0 0; F keep 0 0; G 1 2; F distinct 1; F distinct 2 / members 2; members 5; parents 1 => 1 2; 4 5; 4 5; lines F F F G1,2 F F G4,5";
    assert_eq!(rt;
        query_differences(
            rt.alloc(),
            TABLES,
            &[LATER, AT_FIRST],
            &Grown { limit: LIMIT }
        )
        .as_deref(),
        Ok("")
    );
}

/// An expression over one of two same classes is found by the other, and a step founds only what it names that no line has so.
#[test]
fn expressions_are_found_by_same_classes(rt: HostRuntime) {
    const FOUND: &str =
        "SELECT id FROM emp => F get 0; F keep 0 0; F distinct 1; F select [>(c0,i5)] 1; L 0 0 notnull 0; L 0 0 weak 0; L 0 0 strong 0; L 1 1 strong 0 / line 3 select [>(c0,i5)] 2; apply D1 2; line 3 select [>(c0,i5)] 2; found select [>(c0,i5)] 2; found distinct 2; learn 1 notnull 0; learn 2 notnull 0 => none; 8; 3; 3; 2; known; known; lines F F F F L0 L0 L0 L1 S2,1 L1";
    const MADE: &str =
        "SELECT d.id FROM dept d, emp e => F get 0; F get 1; F distinct 0; F select [>(c0,i5)] 2; F join [] 0 1; F select [>(c0,i5)] 4; L 0 0 notnull 0; L 0 0 weak 0; L 0 0 strong 0 / apply D1 2; apply S2 5,4; apply S2 5,4; found join [] 3 1; members 3; members 5; parents 2 => 9; 11; 11; 5; 3 10; 5 11; 2 3 4 10; lines F F F F F F L0 L0 L0 S2,0 F A5 G3,10
SELECT d.id FROM dept d, emp e => F get 0; F get 1; F distinct 0; F select [>(c0,i5)] 2; F join [] 0 1; F select [>(c0,i5)] 4; L 0 0 notnull 0; L 0 0 weak 0; L 0 0 strong 0; F join [] 3 1 / apply D1 2; apply S2 5,4; members 5; unnamed; apply S2 5,4 => 10; 12; 5 9 12; 7; 9; lines F F F F F F L0 L0 L0 F S2,0 F A5 G3,11 G9,12";
    assert_eq!(rt;
        query_differences(rt.alloc(), TABLES, &[FOUND, MADE], &Grown { limit: LIMIT }).as_deref(),
        Ok("")
    );
}

/// Where a step gives an expression that another class has, the two are the same.
#[test]
fn classes_with_one_expression_are_same(rt: HostRuntime) {
    const CASES: &str =
        "SELECT d.id FROM dept d, emp e => F get 0; F get 1; F join [] 0 1; F join [] 1 0; F keep 0 2; F keep 0 3 / apply J1 2; members 2; members 4; apply J1 2; apply J1 3 => 3; 2 3; 4 5; 3; 2; lines F F F F F F S2,3 G4,5
SELECT d.id FROM dept d, emp e => F get 0; F get 1; F join [] 0 1; F select [>(c0,i5)] 2; F select [>(c0,i5)] 0; F join [] 4 1 / apply S2 3,2; members 3; apply S2 3,2 => 5; 3 5; 5; lines F F F F F F S3,5";
    assert_eq!(rt;
        query_differences(rt.alloc(), TABLES, &[CASES], &Grown { limit: LIMIT }).as_deref(),
        Ok("")
    );
}

/// Nothing is added to a log that holds as many lines as it may.
#[test]
fn full_logs_stay(rt: HostRuntime) {
    const CASES: &str =
        "SELECT d.id FROM dept d, emp e => F get 0; F get 1; F join [] 0 1 / apply J1 2; found select [>(c0,i5)] 0; learn 0 notnull 0; found get 1; apply J1 3 => 3; none; not known; 1; 2; lines F F F A2";
    assert_eq!(rt;
        query_differences(rt.alloc(), TABLES, &[CASES], &Grown { limit: 4 }).as_deref(),
        Ok("")
    );
}

/// Each rule is applied at each binding, also at those of lines that were added meanwhile. A join of three sides has three ways to split them, and the
/// one that has both sides of its condition on the left asks it above or below; each of these four stands in both orders.
#[test]
fn logs_are_explored(rt: HostRuntime) {
    const SELECTED: &str =
        "SELECT d.id FROM dept d, emp e => F get 0; F get 1; F join [] 0 1; F select [>(c0,i5)] 2 / closed; explore; closed; members 2; members 3; explore => open; whole; closed; 2 8; 3 5 6 7 9; whole; lines F F F F F A3 A3 A3 A2 A3 L0 L0 L0 L0 L1 L1 L1 L1 L2 L2 L2 L2 L2 L2 L3 L3 L3 L3 L3 L3 L4 L4 L4 L4";
    const JOINED: &str =
        "SELECT d.id FROM dept d, emp e, emp f => F get 0; F get 1; F get 2; F join [] 0 1; F join [=(c0,c4)] 3 2 / explore; members 3; members 4; unnamed; explore => whole; 3 10; 4 5 7 12 13 15 17 18; 5; whole; lines F F F F F A4 F A4 A6 A6 A3 F A4 A4 A11 A4 F A4 A4 A16 L0 L0 L0 L0 L1 L1 L1 L1 L2 L2 L2 L2 L3 L3 L3 L3 L3 L3 L4 L4 L4 L4 L4 L4 L4 L4 L4 L4 L6 L6 L6 L6 L6 L6 L6 L6 L6 L6 L11 L11 L11 L11 L11 L11 L11 L4 L4 L4 L4 L4 L16 L16 L16 L16 L16 L16";
    assert_eq!(rt;
        query_differences(
            rt.alloc(),
            TABLES,
            &[SELECTED, JOINED],
            &Grown { limit: LIMIT }
        )
        .as_deref(),
        Ok("")
    );
}

/// What a log lacks, given line by line, closes it as exploring does: with as many expressions, in another order, and as many facts.
#[test]
fn logs_are_given_what_they_lack(rt: HostRuntime) {
    const SELECTED: &str =
        "SELECT d.id FROM dept d, emp e => F get 0; F get 1; F join [] 0 1; F select [>(c0,i5)] 2 / closed; give; closed; explore; give => open; 29; closed; whole; 0; lines F F F F A2 F A3 A3 A3 A3 L0 L0 L0 L0 L1 L1 L1 L1 L2 L2 L2 L2 L2 L2 L3 L3 L3 L3 L3 L3 L5 L5 L5 L5";
    const ALIKE: &str =
        "SELECT d.id FROM dept d, emp e => F get 0; F get 1; F get 0; F join [] 0 1; F join [] 1 0 / give; closed; explore => 15; closed; whole; lines F F F F F G0,2 S3,4 L0 L0 L0 L0 L1 L1 L1 L1 L3 L3 L3 L3 L3 L3";
    assert_eq!(rt;
        query_differences(
            rt.alloc(),
            TABLES,
            &[SELECTED, ALIKE],
            &Grown { limit: LIMIT }
        )
        .as_deref(),
        Ok("")
    );
}

/// Facts that lines give are learned where no result is left to add, and results follow from them: that the rows of a table differ by its key makes the
/// distinct ones the same. A key of a join comes of keys of both sides.
#[test]
fn facts_are_learned(rt: HostRuntime) {
    const DISTINCT: &str =
        "SELECT id FROM emp => F get 0; F distinct 0 / closed; members 1; explore; members 1; closed; learn 1 strong 0 => open; 1; whole; 0 1; closed; known; lines F F L0 L0 L0 L0 L1 L1 L1 L1 L1 L1 S1,0";
    const JOINED: &str =
        "SELECT d.id FROM dept d, emp e => F get 0; F get 1; F join [=(c0,c4)] 0 1; F distinct 2 / explore; members 3; learn 2 strong 3; learn 2 strong 0,3; learn 2 strong 0; learn 2 notnull 4 => whole; 2 3 4; known; known; not known; known; lines F F F F A2 L0 L0 L0 L0 L1 L1 L1 L1 L2 L2 L2 L2 L2 L2 L2 L2 L2 L2 L3 L3 L3 L3 L3 L3 L3 L3 L3 L3 S3,2";
    assert_eq!(rt;
        query_differences(
            rt.alloc(),
            TABLES,
            &[DISTINCT, JOINED],
            &Grown { limit: LIMIT }
        )
        .as_deref(),
        Ok("")
    );
}

/// A log that is full isn't whole.
#[test]
fn full_logs_are_not_explored(rt: HostRuntime) {
    const CASES: &str =
        "SELECT d.id FROM dept d, emp e => F get 0; F get 1; F join [] 0 1; F select [>(c0,i5)] 2 / explore => not whole; lines F F F F F A3";
    assert_eq!(rt;
        query_differences(rt.alloc(), TABLES, &[CASES], &Grown { limit: 6 }).as_deref(),
        Ok("")
    );
}
