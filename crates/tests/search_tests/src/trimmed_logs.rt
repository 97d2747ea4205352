//! Certificates with those lines of a log that a plan needs, and logs without what serves no rule.

use crate::canonical::push_plan;
use costs::{Cardinalities, cost};
use derivation::{Line, Step};
use explore::{Products, apply_all, simplify};
use fixtures::{
    COMPANY, DEPT, EMP, QueryReporting, Tables, push_number, push_numbers, query_differences,
    query_of, schema_of,
};
use labels::Goal;
use lean_logs::LeanLog;
use logs::Log;
use memo::Memo;
use physical::Plan;
use plan_words::derived::{expressions_of, lines_of};
use plan_words::plans::{cut, number, plan_of};
use plan_words::queries::QUERIES;
use plan_words::texts::push_line;
use planner::canonical;
use prepared_query::PreparedQuery;
use props::Fact;
use query::BoundQuery;
use query::ids::id_of;
use schema::Schema;
use seed::seed;
use statistics::Statistics;
use std::alloc::{AllocError, Global};
use std::fmt::Write;
use store::Database;
use trimming::{serving_lines, trimmed};
use values::Items;
use winners::best;

/// Lines of a log, at most.
const LIMIT: usize = 2_000;

/// Lines that a plan of at most five tables needs, at most.
const MOST: usize = 50;

/// Of both tables: rows, and pages.
const STATISTICS: &str =
    r#"{"tables":{"dept":{"rows":300,"pages":10,"indexes":[]},"emp":{"rows":40000,"pages":900,"indexes":[{"keys":4000,"pages":100}]}}}"#;

/// Joins of several tables in other forms than those of the answers' queries.
const JOINS: &str =
    r"SELECT a.id FROM dept a JOIN emp b ON b.dept = a.id JOIN dept c ON c.boss = b.id JOIN emp d ON d.dept = c.id JOIN dept e ON e.boss = d.id WHERE a.name = 'ops'
SELECT a.id FROM emp a JOIN dept b ON b.id = a.dept JOIN dept c ON c.id = a.pay JOIN dept d ON d.id = a.badge JOIN dept e ON e.boss = a.id WHERE e.name = 'lab'
SELECT a.id FROM emp a JOIN emp b ON a.id = b.id JOIN emp c ON a.id = c.id AND b.id = c.id JOIN emp d ON a.id = d.id AND b.id = d.id AND c.id = d.id JOIN emp e ON a.id = e.id AND b.id = e.id AND c.id = e.id AND d.id = e.id
SELECT DISTINCT a.id, b.id FROM dept a JOIN emp b ON b.dept = a.id WHERE a.name = 'ops'
SELECT DISTINCT a.id FROM emp a JOIN dept b ON b.id = a.dept JOIN emp c ON c.id = b.boss WHERE c.pay > 3
SELECT a.name FROM dept a JOIN emp b ON b.dept = a.id JOIN emp c ON c.id = a.boss GROUP BY a.name ORDER BY a.name
SELECT a.id FROM dept a JOIN emp b ON b.dept = a.id WHERE a.id NOT IN (SELECT c.badge FROM emp c WHERE c.pay = a.boss) AND b.pay > 3
SELECT a.id FROM dept a LEFT JOIN emp b ON b.dept = a.id JOIN emp c ON c.id = a.boss WHERE c.pay > 3 AND b.pay IS NULL
SELECT a.id FROM dept a JOIN emp b ON b.dept = a.id WHERE EXISTS (SELECT DISTINCT c.id FROM emp c WHERE c.dept = a.id) AND EXISTS (SELECT c.id FROM emp c WHERE c.dept = a.id)";

/// What a query is planned by.
#[derive(Clone, Copy)]
struct Planning<'q> {
    query: &'q PreparedQuery<'q>,
    statistics: &'q Statistics,
}

/// A log of the lines of a query's frame, and of others behind them.
fn explored<'q>(alloc: Global, planning: Planning<'q>) -> Result<Log<'q>, AllocError> {
    let tables = planning.query.query().tables.as_slice();
    let mut log = Log::new(alloc, tables, planning.query.own());
    for line in canonical(alloc, planning.query)?.lines.as_slice() {
        let _ = log.push(alloc, line.copy(alloc)?);
    }
    let mut memo = Memo::of(alloc, LeanLog::behind(alloc, log)?, LIMIT)?;
    simplify(alloc, &mut memo)?;
    let _ = seed(alloc, &mut memo, planning.statistics)?;
    simplify(alloc, &mut memo)?;
    apply_all(alloc, &mut memo, Products::Made)?;
    Ok(memo.into_log())
}

fn cost_over(
    alloc: Global,
    statistics: &Statistics,
    log: &Log<'_>,
    plan: &Plan,
) -> Result<u64, AllocError> {
    let cardinalities = Cardinalities::of(alloc, statistics, log)?;
    Ok(cost(statistics, log, &cardinalities, plan))
}

/// The cheapest plan over a log of the class of the frame.
fn cheapest(
    alloc: Global,
    planning: Planning<'_>,
    log: &Log<'_>,
) -> Result<Option<Plan>, AllocError> {
    let class = id_of(planning.query.frame().len().saturating_sub(1))?;
    let order = Items::from_vec(Vec::from_slice(alloc, planning.query.order())?);
    let cardinalities = Cardinalities::of(alloc, planning.statistics, log)?;
    let root = Goal { class, order };
    let found = best(alloc, log, planning.statistics, &cardinalities, &root)?;
    Ok(found.map(|best| best.plan))
}

/// Whether a part of a log is as short as a plan of five tables needs, and no other once more trimmed, and its plan costs what it does over the log.
fn is_least(
    alloc: Global,
    planning: Planning<'_>,
    log: &Log<'_>,
    plan: &Plan,
    part: &Log<'_>,
    own: &Plan,
) -> Result<bool, AllocError> {
    let again = trimmed(alloc, part, planning.query.frame().len(), own)?
        .lines
        .len();
    let cost = cost_over(alloc, planning.statistics, part, own)?;
    let known = cost_over(alloc, planning.statistics, log, plan)?;
    Ok(part.len() <= MOST && again == part.len() && cost == known)
}

/// Adds the fault of the certificate with the lines that a plan needs, if the check has one. Whether it is as a reader expects.
fn push_faults(
    alloc: Global,
    found: &mut String,
    planning: Planning<'_>,
    log: &Log<'_>,
    plan: &Plan,
) -> Result<bool, AllocError> {
    let certificate = trimmed(alloc, log, planning.query.frame().len(), plan)?;
    match &planning.query.judged(alloc, &certificate) {
        Ok(part) => is_least(alloc, planning, log, plan, part, &certificate.plan),
        Err(fault) => {
            writeln!(found, "{fault}")?;
            Ok(false)
        }
    }
}

/// Adds what is wrong of a query's certificate. Whether it is as short as a reader expects.
fn push_trimmed(
    alloc: Global,
    found: &mut String,
    query: &BoundQuery,
    statistics: &Statistics,
) -> Result<bool, AllocError> {
    let planning = Planning {
        query: &PreparedQuery::of(alloc, query)?,
        statistics,
    };
    let log = explored(alloc, planning)?;
    match cheapest(alloc, planning, &log)? {
        Some(plan) => push_faults(alloc, found, planning, &log, &plan),
        None => {
            writeln!(found, "no plan")?;
            Ok(false)
        }
    }
}

/// How many of the texts of cases are queries over a schema; adds what is wrong of their certificates.
fn push_trimmed_of(
    alloc: Global,
    found: &mut String,
    schema: &Schema,
    statistics: &Statistics,
    cases: &str,
) -> Result<usize, AllocError> {
    let mut asked = 0_usize;
    for case in cases.lines() {
        let (text, _) = case.split_once(" => ").unwrap_or((case, ""));
        if let Some(query) = &query_of(alloc, schema, text) {
            asked = asked.saturating_add(1);
            if !push_trimmed(alloc, found, query, statistics)? {
                writeln!(found, "{text}")?;
            }
        }
    }
    Ok(asked)
}

/// Each part of a log replays, has no line that isn't needed, and its plan costs what it did over the log.
#[test]
fn plans_need_few_lines(rt: HostRuntime) {
    let alloc = rt.alloc();
    let mut found = String::new(alloc);
    let mut asked = 0_usize;
    if let Ok(schema) = &schema_of(alloc, COMPANY) {
        if let Ok(statistics) = &Statistics::read(alloc, schema, STATISTICS.as_bytes()) {
            for cases in [JOINS].iter().chain(QUERIES.iter()) {
                let more = push_trimmed_of(alloc, &mut found, schema, statistics, cases).unwrap_or(
                    0,
                );
                asked = asked.saturating_add(more);
            }
        }
    }
    assert_eq!(rt; found.as_str(), "");
    assert_eq!(rt; asked, 146);
}

/// The rule of a step, the lines to which it is applied, and behind `/` those that it makes.
fn push_step(reported: &mut String, step: &Step) -> Result<(), AllocError> {
    reported.push_str(" ")?;
    reported.push_str(step.rule.code())?;
    push_numbers(reported, " ", ",", step.uses.as_slice())?;
    if !step.makes.as_slice().is_empty() {
        reported.push_str(" /")?;
        push_numbers(reported, " ", ",", step.makes.as_slice())?;
    }
    Ok(())
}

fn push_fact(reported: &mut String, fact: &Fact) -> Result<(), AllocError> {
    match fact {
        Fact::NotNull(column) => push_number(reported, " notnull ", *column as usize),
        Fact::WeakKey(key) => {
            reported.push_str(" weak")?;
            push_numbers(reported, " ", ",", key.as_slice())
        }
        Fact::StrongKey(key) => {
            reported.push_str(" strong")?;
            push_numbers(reported, " ", ",", key.as_slice())
        }
    }
}

/// A line, by the letter of its kind.
fn push_said(alloc: Global, reported: &mut String, line: &Line) -> Result<(), AllocError> {
    match line {
        Line::Founds(expr) => {
            reported.push_str("F ")?;
            push_line(alloc, reported, expr)
        }
        Line::Adds(class, step, expr) => {
            reported.push_str("A")?;
            push_numbers(reported, " ", ",", &[*class])?;
            push_step(reported, step.get())?;
            reported.push_str(" ")?;
            push_line(alloc, reported, expr)
        }
        Line::Unites(first, second, step) => {
            reported.push_str("S")?;
            push_numbers(reported, " ", ",", &[*first, *second])?;
            push_step(reported, step.get())
        }
        Line::Alike(first, second) => {
            reported.push_str("G")?;
            push_numbers(reported, " ", ",", &[*first, *second])
        }
        Line::Gives(class, member, fact) => {
            reported.push_str("L")?;
            push_numbers(reported, " ", ",", &[*class, *member])?;
            push_fact(reported, fact)
        }
    }
}

/// A log of lines; adds those that may not stand.
fn log_of<'q>(
    alloc: Global,
    reported: &mut String,
    query: &'q BoundQuery,
    lines: &[Line],
) -> Result<Log<'q>, AllocError> {
    let mut log = Log::new(alloc, query.query().tables.as_slice(), &[]);
    for line in lines {
        if log.push(alloc, line.copy(alloc)?).is_err() {
            push_said(alloc, reported, line)?;
            reported.push_str(" is refused; ")?;
        }
    }
    Ok(log)
}

/// Reports which of the lines of a log a plan needs, and the plan over these. Words are how many lines the frame has, ` / ` the lines, ` / ` the
/// plan. Both logs have to stand.
struct Part;

impl QueryReporting for Part {
    fn report(
        &self,
        alloc: Global,
        _database: &Database<'_>,
        query: &BoundQuery,
        more: &str,
        reported: &mut String,
    ) -> Result<(), AllocError> {
        let (frame_lines, words) = cut(more, " / ");
        let (lines, plan) = cut(words, " / ");
        let expressions = expressions_of(alloc, lines)?;
        let Some(plan) = &plan_of(alloc, expressions.as_slice(), plan)? else {
            return reported.push_str("no plan");
        };
        let lines = lines_of(alloc, lines)?;
        let log = log_of(alloc, reported, query, lines.as_slice())?;
        let part = trimmed(alloc, &log, number(frame_lines), plan)?;
        let _part = log_of(alloc, reported, query, part.lines.as_slice())?;
        for line in part.lines.as_slice() {
            push_said(alloc, reported, line)?;
            reported.push_str("; ")?;
        }
        push_plan(reported, part.lines.as_slice(), &part.plan)
    }
}

/// Conjuncts stand in the order of their new texts, where classes with one more digit became ones with as many. Of facts those are left out from which
/// nothing follows that is asked; of two lines that give one, the later.
#[test]
fn lines_are_numbered_anew(rt: HostRuntime) {
    const ORDERED: &str =
        "SELECT * FROM dept WHERE EXISTS (SELECT * FROM emp) AND EXISTS (SELECT * FROM emp e) => 7 / F get 0; F get 1; F keep 3,4,5,6 1; F get 2; F keep 7,8,9,10 3; F select [exists(2);exists(4)] 0; F keep 0,1,2 5; F select [>(c0,i5)] 0; F distinct 0; F keep 3,4,5,6 1; F keep 7,8,9,10 3; F select [exists(10);exists(9)] 0; S 9 1 K2 0 9 -; S 2 1 K2 0 2 -; S 10 3 K2 0 10 -; S 4 3 K2 0 4 -; F keep 0 0; G 5 11; F keep 0,1,2 11; G 6 18 / scan 0 0 | scan 1 1 | cut 9: 3 4 5 6 | scan 3 2 | cut 10: 7 8 9 10 | subqueries 11 2 | cut 18: 0 1 2 => F get 0; F get 1; F keep 1: 3 4 5 6; F get 2; F keep 3: 7 8 9 10; F select 0 [exists(2),exists(4)]; F keep 5: 0 1 2; F keep 1: 3 4 5 6; F keep 3: 7 8 9 10; F select 0 [exists(7),exists(8)]; S 7,1 K2 7; S 2,1 K2 2; S 8,3 K2 8; S 4,3 K2 4; G 5,9; F keep 9: 0 1 2; G 6,15; cut 15 0 1 2 (filter by subqueries 9 (scan 0 of 0) (cut 7 3 4 5 6 (scan 1 of 1)) (cut 8 7 8 9 10 (scan 3 of 2)))";
    const GIVEN: &str =
        "SELECT DISTINCT id FROM dept => 3 / F get 0; F keep 0 0; F distinct 1; L 0 0 notnull 1; L 0 0 notnull 0; L 0 0 weak 0; L 0 0 strong 0; L 0 0 strong 0; L 1 1 notnull 0; L 1 1 strong 0; L 1 1 strong 0; S 2 1 D1 0 2 - / scan 0 0 | cut 1: 0 => F get 0; F keep 0: 0; F distinct 1; L 0,0 notnull 0; L 0,0 weak 0; L 0,0 strong 0; L 1,1 strong 0; S 2,1 D1 2; cut 1 0 (scan 0 of 0)
SELECT id FROM dept => 2 / F get 0; F keep 0 0; F distinct 1; F distinct 2; L 0 0 notnull 0; L 0 0 weak 0; L 0 0 strong 0; L 1 1 strong 0; S 2 1 D1 0 2 -; S 3 2 D1 0 3 - / scan 0 0 | cut 1: 0 | distinct 3 => F get 0; F keep 0: 0; F distinct 1; F distinct 2; L 0,0 notnull 0; L 0,0 weak 0; L 0,0 strong 0; L 1,1 strong 0; S 2,1 D1 2; S 3,2 D1 3; distinct 3 (cut 1 0 (scan 0 of 0))";
    let company = Tables {
        schema: COMPANY,
        first: DEPT,
        second: EMP,
    };
    assert_eq!(rt;
        query_differences(rt.alloc(), company, &[ORDERED, GIVEN], &Part).as_deref(),
        Ok("")
    );
}

/// Reports the lines of a log without those that serve no rule. Words are how many lines stay whatever they serve, ` / ` the lines. Both logs have to
/// stand.
struct Serving;

impl QueryReporting for Serving {
    fn report(
        &self,
        alloc: Global,
        _database: &Database<'_>,
        query: &BoundQuery,
        more: &str,
        reported: &mut String,
    ) -> Result<(), AllocError> {
        let (first, lines) = cut(more, " / ");
        let lines = lines_of(alloc, lines)?;
        let log = log_of(alloc, reported, query, lines.as_slice())?;
        let serving = serving_lines(alloc, &log, number(first))?;
        let _serving = log_of(alloc, reported, query, serving.as_slice())?;
        let mut separator = "";
        for line in serving.as_slice() {
            reported.push_str(separator)?;
            push_said(alloc, reported, line)?;
            separator = "; ";
        }
        Ok(())
    }
}

/// A class that is only founded goes, with the fact of it; and so do those over it, and then what a rule made for these alone. A line that says of it that it is another is
/// no use of it. The first lines stay.
#[test]
fn idle_lines_are_left_out(rt: HostRuntime) {
    const IDLE: &str =
        "SELECT d.id FROM dept d JOIN emp e ON e.dept = d.id WHERE d.boss = 10 => 5 / F get 0; F get 1; F join [=(c4,c0)] 0 1; F select [=(c2,i10)] 2; F keep 0 3; F select [>(c5,i3)] 1; L 5 5 notnull 5; F select [=(c2,i10)] 0; A 3 S2 0 3,2 7 join [=(c4,c0)] 7 1; A 3 J1 0 8 - join [=(c4,c0)] 1 7 => F get 0; F get 1; F join 0 1 [=(c4,c0)]; F select 2 [=(c2,i10)]; F keep 3: 0; F select 0 [=(c2,i10)]; A 3 S2 3,2 / 5 join 5 1 [=(c4,c0)]; A 3 J1 6 join 1 5 [=(c4,c0)]
SELECT d.id FROM dept d JOIN emp e ON e.dept = d.id WHERE d.boss = 10 => 5 / F get 0; F get 1; F join [=(c4,c0)] 0 1; F select [=(c2,i10)] 2; F keep 0 3; F select [>(c5,i3)] 1; F join [=(c4,c0)] 0 5; F select [=(c2,i10)] 6; F select [=(c2,i10)] 0; A 7 S2 0 7,6 8 join [=(c4,c0)] 8 5; A 2 J1 0 2 - join [=(c4,c0)] 1 0 => F get 0; F get 1; F join 0 1 [=(c4,c0)]; F select 2 [=(c2,i10)]; F keep 3: 0; A 2 J1 2 join 1 0 [=(c4,c0)]";
    const SAME: &str =
        "SELECT d.id FROM dept d JOIN emp e ON e.dept = d.id => 4 / F get 0; F get 1; F join [=(c4,c0)] 0 1; F keep 0 2; F get 0; G 0 4; F keep 3,4,5,6 1; S 6 1 K2 0 6 - => F get 0; F get 1; F join 0 1 [=(c4,c0)]; F keep 2: 0; F keep 1: 3 4 5 6; S 4,1 K2 4
SELECT d.id FROM dept d JOIN emp e ON e.dept = d.id => 5 / F get 0; F get 1; F join [=(c4,c0)] 0 1; F keep 0 2; F get 0; G 0 4; F keep 3,4,5,6 1; S 6 1 K2 0 6 - => F get 0; F get 1; F join 0 1 [=(c4,c0)]; F keep 2: 0; F get 0; G 0,4; F keep 1: 3 4 5 6; S 6,1 K2 6";
    let company = Tables {
        schema: COMPANY,
        first: DEPT,
        second: EMP,
    };
    assert_eq!(rt;
        query_differences(rt.alloc(), company, &[IDLE, SAME], &Serving).as_deref(),
        Ok("")
    );
}
