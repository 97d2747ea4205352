//! Plans that are chosen by statistics.

use fixtures::{COMPANY, Reporting, differences, push_lines, query_of, schema_of};
use pipeline::{
    Exploration, PlanForm, check, check_least, explain, explain_least, fault_line, plan_with_labels,
};
use plan_words::queries::QUERIES;
use prepared_query::PreparedQuery;
use schema::Schema;
use statistics::Statistics;
use std::alloc::{AllocError, Global};
use std::fmt::Write;
use std::str;

/// Lines of a log, at most.
const LIMIT: usize = 2_000;

/// Of both tables: rows, and pages.
const STATISTICS: &str =
    r#"{"tables":{"dept":{"rows":3,"pages":1,"indexes":[]},"emp":{"rows":4,"pages":1,"indexes":[{"keys":4,"pages":1}]}}}"#;

/// Reports the certificate that is planned for a query, explored so far, with `/` for a line's end. Statistics stand behind the query; else they are those above.
#[derive(Clone, Copy)]
struct Planned(Exploration);

impl Reporting for Planned {
    fn report(&self, alloc: Global, text: &str, reported: &mut String) -> Result<(), AllocError> {
        let (query, statistics) = text.split_once(" => ").unwrap_or((text, STATISTICS));
        let planned = pipeline::plan(
            alloc,
            COMPANY.as_bytes(),
            query.as_bytes(),
            statistics.as_bytes(),
            LIMIT,
            self.0,
        );
        match planned {
            Ok(certificate) => {
                let certificate = str::from_utf8(certificate.as_slice()).unwrap_or("no text");
                push_lines(reported, certificate, "/")
            }
            Err(refusal) => reported.push_str(fault_line(alloc, &refusal, None)?.as_str()),
        }
    }
}

/// A hash join of two small tables costs less than nested loops, one pass of a table less than one for each row of the other. A sort of few rows
/// stands where they are fewest. Each rule has been applied at each binding, or none where the plan costs too little for that: the certificates are the same. A left join whose
/// padded rows are rejected is an inner one, an antijoin if it is asked for these, and none if it gives each left row once and its right side isn't read. Faults come in the
/// order text, scope, statistics.
#[test]
fn plans_are_the_cheapest(rt: HostRuntime) {
    const CASES: &str =
        r#"SELECT id FROM emp WHERE pay <> 500 => SQLPLAN 1/lines 3/F get 0/F select [<>(c2,i500)] 0/F keep 0 1/plan 3/cut 2 0/filter 1 [<>(c2,i500)]/scan 0 0/end/
SELECT d.id FROM dept d JOIN emp e ON e.pay < d.id => SQLPLAN 1/lines 4/F get 0/F get 1/F join [<(c5,c0)] 0 1/F keep 0 2/plan 4/cut 3 0/loop 2 inner [<(c5,c0)]/scan 0 0/scan 1 1/end/
SELECT DISTINCT d.id FROM dept d => SQLPLAN 1/lines 8/F get 0/F keep 0 0/F distinct 1/L 0 0 notnull 0/L 0 0 weak 0/L 0 0 strong 0/L 1 1 strong 0/S 2 1 D1 0 2 -/plan 2/cut 1 0/scan 0 0/end/
SELECT nothing FROM emp => [] => refused B02 at 7
SELECT id FROM emp => [ => refused N01
SELECT id FROM emp => [] => refused N02
SELECT id FROM emp => {"tables":{"dept":{"rows":3,"pages":1,"indexes":[]}}} => refused N02"#;
    const OUTER: &str =
        r#"SELECT d.id, e.id FROM dept d LEFT JOIN emp e ON e.dept = d.id WHERE e.pay > 0 => SQLPLAN 1/lines 9/F get 0/F get 1/F left [=(c4,c0)] 0 1/F select [>(c5,i0)] 2/F keep 0,3 3/F join [=(c4,c0)] 0 1/A 3 O1 0 3,2 5 select [>(c5,i0)] 5/A 5 J1 0 5 - join [=(c4,c0)] 1 0/A 3 S3 0 6,7 - join [=(c4,c0);>(c5,i0)] 1 0/plan 4/cut 4 0,3/hash 8 inner [=(c4,c0);>(c5,i0)]/scan 1 1/scan 0 0/end/
SELECT d.id FROM dept d LEFT JOIN emp e ON e.dept = d.id WHERE e.id IS NULL => SQLPLAN 1/lines 8/F get 0/F get 1/F left [=(c4,c0)] 0 1/F select [null(c3)] 2/F keep 0 3/L 1 1 notnull 3/F anti [=(c4,c0)] [] 0 1/A 4 O7 0 4,3,2 6 keep 0 6/plan 4/cut 7 0/hash 6 anti [=(c4,c0)] []/scan 0 0/scan 1 1/end/
SELECT d.id FROM dept d LEFT JOIN emp e ON e.dept = d.id WHERE e.dept IS NULL => SQLPLAN 1/lines 7/F get 0/F get 1/F left [=(c4,c0)] 0 1/F select [null(c4)] 2/F keep 0 3/F anti [=(c4,c0)] [] 0 1/A 4 O7 0 4,3,2 5 keep 0 5/plan 4/cut 6 0/hash 5 anti [=(c4,c0)] []/scan 0 0/scan 1 1/end/
SELECT e.id FROM emp e LEFT JOIN dept d ON d.id = e.dept => SQLPLAN 1/lines 6/F get 0/F get 1/F left [=(c4,c1)] 0 1/F keep 0 2/L 1 1 weak 4/A 3 O6 0 3,2 - keep 0 0/plan 2/cut 5 0/scan 0 0/end/"#;
    for exploration in [Exploration::ToLimit, Exploration::WhileWorthwhile] {
        assert_eq!(rt;
            differences(rt.alloc(), &[CASES, OUTER], &Planned(exploration)).as_deref(),
            Ok("")
        );
    }
}

/// Reports the plan of a query as text, or as a graph where `dot ` stands before the query, with `/` for a line's end. Where `least ` stands before that,
/// with over what it is the cheapest.
#[derive(Clone, Copy)]
struct Explained(Exploration);

impl Reporting for Explained {
    fn report(&self, alloc: Global, text: &str, reported: &mut String) -> Result<(), AllocError> {
        let (is_least, text) = match text.strip_prefix("least ") {
            Some(text) => (true, text),
            None => (false, text),
        };
        let (form, query) = match text.strip_prefix("dot ") {
            Some(query) => (PlanForm::Graph, query),
            None => (PlanForm::Text, text),
        };
        let (schema, query) = (COMPANY.as_bytes(), query.as_bytes());
        let statistics = STATISTICS.as_bytes();
        let shown = if is_least {
            explain_least(alloc, form, schema, query, statistics, LIMIT, self.0)
        } else {
            explain(alloc, form, schema, query, statistics, LIMIT, self.0)
        };
        match shown {
            Ok(plan) => push_lines(
                reported,
                str::from_utf8(plan.as_slice()).unwrap_or("no text"),
                "/",
            ),
            Err(refusal) => reported.push_str(fault_line(alloc, &refusal, None)?.as_str()),
        }
    }
}

/// The plan is shown that is chosen: joins in another order than the text's, an inner join for a left one whose padded rows are rejected, an antijoin for one
/// that is asked for these, none for one that isn't read, left joins above inner ones that leave few rows, filters below them, distinct rows of a key not
/// looked for, and semijoins and antijoins for subqueries, null-aware ones for NOT IN.
#[test]
fn plans_are_explained(rt: HostRuntime) {
    const CASES: &str =
        r#"SELECT d.id, e.id FROM dept d LEFT JOIN emp e ON e.dept = d.id WHERE e.pay > 0 => cut d.id,e.id rows=2 cost=281/  hash inner e.dept = d.id AND e.pay > 0 rows=2 cost=280/    scan emp e rows=4 cost=140/    scan dept d rows=3 cost=130/
SELECT d.id, e.id FROM dept d LEFT JOIN emp e ON e.dept = d.id WHERE d.boss = 10 => cut d.id,e.id rows=1 cost=274/  loop left e.dept = d.id rows=1 cost=273/    filter d.boss = 10 rows=1 cost=133/      scan dept d rows=3 cost=130/    scan emp e rows=4 cost=140/
SELECT d.id FROM dept d LEFT JOIN emp e ON e.dept = d.id WHERE e.id IS NULL => cut d.id rows=1 cost=282/  hash anti sure e.dept = d.id maybe true rows=2 cost=281/    scan dept d rows=3 cost=130/    scan emp e rows=4 cost=140/
SELECT e.id FROM emp e LEFT JOIN dept d ON d.id = e.dept => cut e.id rows=4 cost=141/  scan emp e rows=4 cost=140/
SELECT e.id, d.id, x.id FROM emp e LEFT JOIN dept d ON d.id = e.dept JOIN dept x ON x.id = e.badge WHERE x.boss = 10 => cut e.id,d.id,x.id rows=1 cost=404/  loop left d.id = e.dept rows=1 cost=403/    loop inner x.id = e.badge rows=1 cost=273/      filter x.boss = 10 rows=1 cost=133/        scan dept x rows=3 cost=130/      scan emp e rows=4 cost=140/    scan dept d rows=3 cost=130/
SELECT e.id, d.id, x.id FROM dept x, emp e LEFT JOIN dept d ON d.id = e.dept WHERE x.id = e.badge AND x.boss = 10 => cut x.id,e.id,d.id rows=1 cost=404/  loop left d.id = e.dept rows=1 cost=403/    loop inner x.id = e.badge rows=1 cost=273/      filter x.boss = 10 rows=1 cost=133/        scan dept x rows=3 cost=130/      scan emp e rows=4 cost=140/    scan dept d rows=3 cost=130/
SELECT d.id, e.id FROM dept d LEFT JOIN emp e ON e.dept = d.id AND e.pay > 0 AND d.boss = 10 => cut d.id,e.id rows=3 cost=282/  hash left d.boss = 10 AND e.dept = d.id AND e.pay > 0 rows=3 cost=281/    scan dept d rows=3 cost=130/    scan emp e rows=4 cost=140/
SELECT d.id, e.id FROM dept d LEFT JOIN emp e ON e.dept = d.id WHERE e.pay IS NULL => cut d.id,e.id rows=1 cost=285/  filter e.pay IS NULL rows=1 cost=284/    hash left e.dept = d.id rows=3 cost=281/      scan dept d rows=3 cost=130/      scan emp e rows=4 cost=140/
SELECT DISTINCT d.id FROM dept d => cut d.id rows=3 cost=131/  scan dept d rows=3 cost=130/
SELECT * FROM dept => scan dept dept rows=3 cost=130/
SELECT name FROM dept GROUP BY name => hgroup dept.name - rows=1 cost=136/  scan dept dept rows=3 cost=130/
dot SELECT * FROM dept => digraph plan {/  node [shape=box fontname="sans-serif"];/  n0 [label="scan dept dept rows=3 cost=130"];/}/
SELECT nothing FROM emp => refused B02 at 7"#;
    const SUBQUERIES: &str =
        r#"SELECT d.id FROM dept d WHERE d.id NOT IN (SELECT e.dept FROM emp e) => cut d.id rows=2 cost=282/  hash anti sure true maybe d.id = e.dept rows=2 cost=281/    scan dept d rows=3 cost=130/    scan emp e rows=4 cost=140/
SELECT d.id FROM dept d WHERE d.id NOT IN (SELECT e.dept FROM emp e WHERE e.dept IS NOT NULL) => cut d.id rows=2 cost=286/  hash anti sure true maybe d.id = e.dept rows=2 cost=285/    scan dept d rows=3 cost=130/    filter NOT (e.dept IS NULL) rows=4 cost=144/      scan emp e rows=4 cost=140/
SELECT d.id FROM dept d WHERE NOT EXISTS (SELECT * FROM emp e WHERE e.dept = d.id) => cut d.id rows=2 cost=282/  hash anti sure e.dept = d.id maybe true rows=2 cost=281/    scan dept d rows=3 cost=130/    scan emp e rows=4 cost=140/
SELECT d.boss FROM dept d WHERE d.boss NOT IN (SELECT e.id FROM emp e WHERE e.pay > 1000) => cut d.boss rows=2 cost=282/  hash anti sure true maybe d.boss = e.id rows=2 cost=281/    scan dept d rows=3 cost=130/    filter e.pay > 1000 rows=2 cost=144/      scan emp e rows=4 cost=140/
SELECT d.id FROM dept d WHERE EXISTS (SELECT e.id FROM emp e WHERE e.dept = d.id AND e.badge NOT IN (SELECT x.badge FROM emp x WHERE x.pay = 400)) => cut d.id rows=2 cost=428/  hash semi e.dept = d.id rows=2 cost=427/    scan dept d rows=3 cost=130/    hash anti sure true maybe e.badge = x.badge rows=2 cost=290/      scan emp e rows=4 cost=140/      filter x.pay = 400 rows=1 cost=144/        scan emp x rows=4 cost=140/
SELECT d.id FROM dept d WHERE EXISTS (SELECT e.id FROM emp e WHERE e.dept = d.id AND e.badge NOT IN (SELECT x.badge FROM emp x WHERE x.pay > 500)) => cut d.id rows=2 cost=430/  hash semi e.dept = d.id rows=2 cost=429/    scan dept d rows=3 cost=130/    hash anti sure true maybe e.badge = x.badge rows=2 cost=292/      scan emp e rows=4 cost=140/      filter x.pay > 500 rows=2 cost=144/        scan emp x rows=4 cost=140/"#;
    for exploration in [Exploration::ToLimit, Exploration::WhileWorthwhile] {
        assert_eq!(rt;
            differences(rt.alloc(), &[CASES, SUBQUERIES], &Explained(exploration)).as_deref(),
            Ok("")
        );
    }
}

/// What was found out of queries: how many there are, and for how many of them no rule adds anything to the lines of the search; and a line for each of which
/// something isn't so.
#[derive(Drop)]
struct Found {
    asked: usize,
    complete: usize,
    wrong: String,
}

/// Adds what isn't so of a query: that the check accepts its certificate, and `check_least` its labels.
fn push_unaccepted(alloc: Global, found: &mut String, text: &str) -> Result<(), AllocError> {
    let (schema, statistics) = (COMPANY.as_bytes(), STATISTICS.as_bytes());
    let query = text.as_bytes();
    let texts = match plan_with_labels(
        alloc,
        schema,
        query,
        statistics,
        LIMIT,
        Exploration::ToLimit,
    ) {
        Ok(texts) => texts,
        Err(refusal) => return writeln!(found, "{text}: {refusal}"),
    };
    if let Err(refusal) = check(alloc, schema, query, texts.certificate.as_slice()) {
        writeln!(found, "{text}: {refusal}")?;
    }
    if let Err(refusal) = check_least(alloc, schema, query, statistics, texts.labels.as_slice()) {
        writeln!(found, "{text}: {refusal}")?;
    }
    Ok(())
}

/// Adds what is found out of a case's text, where that is a query over a schema.
fn note(
    alloc: Global,
    found: &mut Found,
    schema: &Schema,
    statistics: &Statistics,
    text: &str,
) -> Result<(), AllocError> {
    if let Some(query) = &query_of(alloc, schema, text) {
        found.asked = found.asked.saturating_add(1);
        let query = PreparedQuery::of(alloc, query)?;
        let planned = planner::plan(alloc, &query, statistics, LIMIT, Exploration::ToLimit)?;
        if planned.is_complete {
            found.complete = found.complete.saturating_add(1);
        }
        push_unaccepted(alloc, &mut found.wrong, text)?;
    }
    Ok(())
}

/// Adds what is found out of the texts of all cases.
fn note_all(
    alloc: Global,
    found: &mut Found,
    schema: &Schema,
    statistics: &Statistics,
) -> Result<(), AllocError> {
    for cases in QUERIES {
        for case in cases.lines() {
            let (text, _) = case.split_once(" => ").unwrap_or((case, ""));
            note(alloc, found, schema, statistics, text)?;
        }
    }
    Ok(())
}

/// Each query that fits it has a plan whose certificate is accepted, and labels that show it to be the cheapest. No search comes to its limit.
#[test]
fn plans_are_accepted_with_their_labels(rt: HostRuntime) {
    let alloc = rt.alloc();
    let mut found = Found {
        asked: 0,
        complete: 0,
        wrong: String::new(alloc),
    };
    let mut ended = false;
    if let Ok(schema) = &schema_of(alloc, COMPANY) {
        if let Ok(statistics) = &Statistics::read(alloc, schema, STATISTICS.as_bytes()) {
            ended = note_all(alloc, &mut found, schema, statistics).is_ok();
        }
    }
    assert!(rt; ended);
    assert_eq!(rt; found.wrong.as_str(), "");
    assert_eq!(rt; found.asked, 137);
    assert_eq!(rt; found.complete, 137);
}

/// Behind the plan stands over how many goals and lines it is the cheapest, and whether no rule adds anything to them, which is only found out by a search to
/// the limit.
#[test]
fn plans_are_told_to_be_the_cheapest(rt: HostRuntime) {
    const TO_LIMIT: &str =
        r#"least SELECT * FROM dept => scan dept dept rows=3 cost=130/least of 1 goals over 7 lines, closed/
least SELECT id FROM emp ORDER BY id => sort emp.id ASC rows=4 cost=153/  cut emp.id rows=4 cost=141/    scan emp emp rows=4 cost=140/least of 4 goals over 9 lines, closed/
least dot SELECT * FROM dept => digraph plan {/  node [shape=box fontname="sans-serif"];/  n0 [label="scan dept dept rows=3 cost=130"];/}/// least of 1 goals over 7 lines, closed/
least SELECT nothing FROM emp => refused B02 at 7"#;
    const WHILE_WORTHWHILE: &str =
        r#"least SELECT * FROM dept => scan dept dept rows=3 cost=130/least of 1 goals, not closed at 3 lines/
least dot SELECT * FROM dept => digraph plan {/  node [shape=box fontname="sans-serif"];/  n0 [label="scan dept dept rows=3 cost=130"];/}/// least of 1 goals, not closed at 3 lines/"#;
    assert_eq!(rt;
        differences(rt.alloc(), &[TO_LIMIT], &Explained(Exploration::ToLimit)).as_deref(),
        Ok("")
    );
    assert_eq!(rt;
        differences(
            rt.alloc(),
            &[WHILE_WORTHWHILE],
            &Explained(Exploration::WhileWorthwhile)
        )
        .as_deref(),
        Ok("")
    );
}
