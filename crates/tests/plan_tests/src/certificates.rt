//! Certificates of worked queries: the verdict on each, and the rows that its plan gives.

ghost use Rattle.query.specs.Bound.{TablesAreOver};

use algebra::Expr;
use certificate::{Certificate, CheckRefusal};
use checker::{Checked, check};
use derivation::Line;
use fixtures::{
    COMPANY, DEPT, EMP, QueryReporting, Tables, drop_query, push_number, push_rows,
    query_differences, query_of,
};
use frame::frame_of;
use physical::Plan;
use pipeline::execution::run;
use plan_words::derived::{expressions_of, lines_of};
use plan_words::plans::{cut, number, plan_of};
use plan_words::tables::TABLES;
use prepared_query::PreparedQuery;
use query::{BoundQuery, Query};
use schema::Schema;
use std::alloc::{AllocError, Global};
use store::Database;
use values::{Fault, Items};

/// The lines of the query's frame, or of another text's where there is one.
fn frame_or_other(
    alloc: Global,
    schema: &Schema,
    query: &Query,
    other: &str,
) -> Result<Items<Expr>, AllocError> {
    if other.is_empty() {
        return frame_of(alloc, query);
    }
    let other = query_of(alloc, schema, other);
    let frame = match &other {
        Some(other) => frame_of(alloc, other.query()),
        None => Ok(Items::new(alloc)),
    };
    drop_query(other);
    frame
}

/// These lines without one.
fn founded(
    alloc: Global,
    mut frame: Items<Expr>,
    without: usize,
) -> Result<Items<Line>, AllocError> {
    let mut lines = Items::new(alloc);
    for number in 0..frame.len() {
        if frame.is_empty() {
            return Ok(lines);
        }
        let line = frame.remove(0);
        if number != without {
            lines.push(Line::Founds(line))?;
        }
    }
    Ok(lines)
}

/// A plan in words, whose conjuncts are those of a frame's lines.
fn plan_over(
    alloc: Global,
    schema: &Schema,
    query: &Query,
    conjuncts: &str,
    plan: &str,
) -> Result<Option<Plan>, AllocError> {
    let frame = frame_or_other(alloc, schema, query, conjuncts)?;
    plan_of(alloc, frame.as_slice(), plan)
}

/// A certificate of the query: a plan in words, and where ` / ` stands behind that a text whose lines it has, the number of
/// one that it lacks, and a text whose lines' conjuncts the plan has.
fn certificate_of(
    alloc: Global,
    schema: &Schema,
    query: &Query,
    words: &str,
) -> Result<Option<Certificate>, AllocError> {
    let (plan, rest) = cut(words, " / ");
    let (lines, rest) = cut(rest, " / ");
    let (without, conjuncts) = cut(rest, " / ");
    let frame = frame_or_other(alloc, schema, query, lines)?;
    let lines = founded(alloc, frame, number(without))?;
    match plan_over(alloc, schema, query, conjuncts, plan)? {
        Some(plan) => Ok(Some(Certificate { lines, plan })),
        None => Ok(None),
    }
}

/// A certificate of lines and a plan in words, with ` / ` between them.
fn derived_certificate(alloc: Global, words: &str) -> Result<Option<Certificate>, AllocError> {
    let (lines, plan) = cut(words, " / ");
    let expressions = expressions_of(alloc, lines)?;
    match plan_of(alloc, expressions.as_slice(), plan)? {
        Some(plan) => {
            let lines = lines_of(alloc, lines)?;
            Ok(Some(Certificate { lines, plan }))
        }
        None => Ok(None),
    }
}

/// `accepted`, and the rows over the tables.
fn push_answer(
    alloc: Global,
    reported: &mut String,
    checked: &Checked<'_>,
    database: &Database<'_>,
) -> Result<(), AllocError> {
    reported.push_str("accepted")?;
    let rows = run(alloc, checked, database)?;
    reported.push_str(if rows.is_empty() { "" } else { " " })?;
    push_rows(reported, rows.as_slice())
}

/// The code of a refusal, the rule whose condition fails, and the line.
fn push_refusal(reported: &mut String, refusal: CheckRefusal) -> Result<(), AllocError> {
    reported.push_str(refusal.reason.code())?;
    if let Some(rule) = refusal.reason.rule() {
        reported.push_str(" ")?;
        reported.push_str(rule)?;
    }
    push_number(reported, " line ", refusal.line)
}

/// A refusal, or `accepted` and the rows.
fn push_verdict(
    alloc: Global,
    reported: &mut String,
    database: &Database<'_>,
    query: &BoundQuery,
    certificate: &Certificate,
) -> Result<(), AllocError>
    requires { TablesAreOver database.now.schema query.now }
{
    let prepared = PreparedQuery::of(alloc, query)?;
    match check(alloc, database.schema(), &prepared, certificate) {
        Ok(checked) => push_answer(alloc, reported, &checked, database),
        Err(Fault::Refused(refusal)) => push_refusal(reported, refusal),
        Err(Fault::Memory) => Err(AllocError),
    }
}

/// Reports the verdict on a certificate in words.
struct Verdicts;

impl QueryReporting for Verdicts {
    fn report(
        &self,
        alloc: Global,
        database: &Database<'_>,
        query: &BoundQuery,
        more: &str,
        reported: &mut String,
    ) -> Result<(), AllocError> {
        match &certificate_of(alloc, database.schema(), query.query(), more)? {
            Some(certificate) => push_verdict(alloc, reported, database, query, certificate),
            None => reported.push_str("no plan"),
        }
    }
}

/// Reports the verdict on a certificate whose lines stand in words too.
struct Derivations;

impl QueryReporting for Derivations {
    fn report(
        &self,
        alloc: Global,
        database: &Database<'_>,
        query: &BoundQuery,
        more: &str,
        reported: &mut String,
    ) -> Result<(), AllocError> {
        match &derived_certificate(alloc, more)? {
            Some(certificate) => push_verdict(alloc, reported, database, query, certificate),
            None => reported.push_str("no plan"),
        }
    }
}

/// The last line of a frame is a cut; nodes are numbered on from the lines, each before its inputs.
const PLANS: &str =
    "SELECT id FROM emp WHERE pay <> 500 => scan 0 0 | filter 1 | cut 2: 0 => accepted
SELECT id FROM emp WHERE pay <> 500 => scan 0 0 | cut 2: 0 => K06 line 4
SELECT id FROM emp WHERE pay <> 500 => scan 0 0 | filter 1 => K06 line 3
SELECT id FROM emp WHERE pay <> 500 => scan 7 0 | filter 1 | cut 2: 0 => K01 line 5
SELECT DISTINCT badge FROM emp ORDER BY badge DESC => scan 0 0 | cut 1: 3 | distinct 2 => K08 line 3
SELECT DISTINCT badge FROM emp ORDER BY badge DESC => scan 0 0 | cut 1: 2 | sort: 3d | distinct 2 => K06 line 5
SELECT DISTINCT badge FROM emp ORDER BY badge DESC => scan 0 0 | cut 1: 3 | sort: 3d | distinct 2 => accepted
SELECT DISTINCT badge FROM emp ORDER BY badge DESC => scan 0 0 | cut 1: 3 | distinct 2 | sort: 3 => K08 line 3
SELECT DISTINCT badge FROM emp ORDER BY badge DESC => scan 0 0 | cut 1: 3 | distinct 2 | sort: 3d => accepted
SELECT DISTINCT badge FROM emp ORDER BY badge DESC => scan 0 0 | cut 1: 3 | distinct 2 | sort: 2d => K04 line 3
SELECT d.boss FROM dept d LEFT JOIN emp e ON e.dept = d.id => scan 0 0 | scan 1 1 | left 2 | cut 3: 1 => accepted
SELECT d.boss FROM dept d LEFT JOIN emp e ON e.dept = d.id => scan 0 0 | scan 1 1 | loop 2 | cut 3: 1 => K06 line 5
SELECT d.id FROM dept d WHERE EXISTS (SELECT e.id FROM emp e) => scan 0 0 | scan 1 1 | cut 2: 2 | subqueries 3 1 | cut 4: 0 => accepted
SELECT d.id FROM dept d WHERE EXISTS (SELECT e.id FROM emp e) => scan 0 0 | subqueries 3 0 | cut 4: 0 => K06 line 6";

/// A join by hash needs an equality between its sides, a merge and what goes over sorted rows the order.
const METHODS: &str =
    "SELECT a, c, d FROM t JOIN u ON a = c => scan 0 0 | scan 1 1 | hash 2 | cut 3: 0 2 3 => accepted ;1,1,-,;3,3,x,;3,3,y,
SELECT a, c, d FROM t LEFT JOIN u ON a = c AND c > 1 => scan 0 0 | scan 1 1 | hash 2 | cut 3: 0 2 3 => accepted ;1,-,-,;2,-,-,;3,3,x,;3,3,y,;4,-,-,;5,-,-,
SELECT COUNT(*), COUNT(e.b), SUM(e.a), MIN(a.a), MAX(e.b) FROM t a, t b, t c, t d, t e => scan 0 0 | scan 1 1 | loop 2 | scan 3 2 | loop 4 | scan 5 3 | loop 6 | scan 7 4 | loop 8 | group 9 | cut 10: 10 11 12 13 14 => accepted ;3125,1875,9375,1,20,
SELECT e.b, COUNT(*), SUM(e.a), MAX(a.a) FROM t a, t b, t c, t d, t e GROUP BY e.b => scan 0 0 | scan 1 1 | loop 2 | scan 3 2 | loop 4 | scan 5 3 | loop 6 | scan 7 4 | loop 8 | group 9 | cut 10: 9 10 11 12 => accepted ;20,1250,3750,5,;-,1250,3750,5,;10,625,1875,5,
SELECT COUNT(*), SUM(h.a), MIN(a.a) FROM t a, t b, t c, t d, t e, t f, t g, t h => scan 0 0 | scan 1 1 | loop 2 | scan 3 2 | loop 4 | scan 5 3 | loop 6 | scan 7 4 | loop 8 | scan 9 5 | loop 10 | scan 11 6 | loop 12 | scan 13 7 | loop 14 | group 15 | cut 16: 16 17 18 => accepted ;390625,1171875,1,
SELECT COUNT(*), MAX(d), SUM(a.a) FROM t a, t b, t c, t d, t e, t f, t g, u WHERE g.a = c => scan 0 0 | scan 1 1 | loop 2 | scan 3 2 | loop 4 | scan 5 3 | loop 6 | scan 7 4 | loop 8 | scan 9 5 | loop 10 | scan 11 6 | loop 12 | scan 13 7 | loop 14 | filter 15 | group 16 | cut 17: 16 17 18 => accepted ;46875,y,140625,
SELECT DISTINCT e.b FROM t a, t b, t c, t d, t e => scan 0 0 | scan 1 1 | loop 2 | scan 3 2 | loop 4 | scan 5 3 | loop 6 | scan 7 4 | loop 8 | cut 9: 9 | distinct 10 => accepted ;20,;-,;10,
SELECT DISTINCT a, d FROM t LEFT JOIN u ON a = c WHERE a > 2 => scan 0 0 | scan 1 1 | left 2 | filter 3 | cut 4: 0 3 | distinct 5 => accepted ;3,x,;3,y,;4,-,;5,-,
SELECT COUNT(*), MAX(a) FROM t LEFT JOIN u ON a = c WHERE d IS NULL => scan 0 0 | scan 1 1 | left 2 | filter 3 | group 4 | cut 5: 4 5 => accepted ;4,5,
SELECT COUNT(*), MAX(d) FROM t JOIN u ON a = c => scan 0 0 | scan 1 1 | hash 2 | group 3 | cut 4: 4 5 => accepted ;3,y,
SELECT a, COUNT(d) FROM t LEFT JOIN u ON a = c GROUP BY a => scan 0 0 | scan 1 1 | left 2 | group 3 | cut 4: 0 4 => accepted ;1,0,;2,0,;3,2,;4,0,;5,0,
SELECT COUNT(*) FROM t, u WHERE a < c => scan 0 0 | scan 1 1 | loop 2 | filter 3 | group 4 | cut 5: 4 => accepted ;4,
SELECT COUNT(*), SUM(a) FROM t, u WHERE a < 0 => scan 0 0 | scan 1 1 | loop 2 | filter 3 | group 4 | cut 5: 4 5 => accepted ;0,-,
SELECT a, COUNT(*) FROM t, u WHERE a < 0 GROUP BY a => scan 0 0 | scan 1 1 | loop 2 | filter 3 | group 4 | cut 5: 0 4 => accepted
SELECT x.a FROM t x WHERE x.a IN (SELECT COUNT(*) FROM t y, u WHERE y.a = x.a AND u.c = 3) => scan 0 0 | scan 1 1 | scan 2 2 | loop 3 | filter 4 | group 5 | cut 6: 6 | subqueries 7 1 | cut 8: 0 => accepted ;2,
SELECT a, c FROM t JOIN u ON a < c => scan 0 0 | scan 1 1 | hash 2 | cut 3: 0 2 => K06 line 5
SELECT x.a, y.a FROM t x JOIN t y ON x.b = y.b => scan 0 0 | scan 1 1 | hash 2 | cut 3: 0 2 => accepted ;1,1,;1,5,;3,3,;5,1,;5,5,
SELECT x.a, y.a FROM t x LEFT JOIN t y ON x.b = y.b => scan 0 0 | scan 1 1 | hash 2 | cut 3: 0 2 => accepted ;1,1,;1,5,;2,-,;3,3,;4,-,;5,1,;5,5,
SELECT x.a, y.a FROM t x JOIN t y ON x.b = y.b AND x.a = y.a => scan 0 0 | scan 1 1 | hash 2 | cut 3: 0 2 => accepted ;1,1,;3,3,;5,5,
SELECT x.a, y.a FROM t x JOIN t y ON x.b = y.b AND x.a < y.a => scan 0 0 | scan 1 1 | hash 2 | cut 3: 0 2 => accepted ;1,5,
SELECT x.a, y.a FROM t x LEFT JOIN t y ON x.b = y.b AND y.a > 1 => scan 0 0 | scan 1 1 | hash 2 | cut 3: 0 2 => accepted ;1,5,;2,-,;3,3,;4,-,;5,5,
SELECT a, c FROM t LEFT JOIN u ON b = c => scan 0 0 | scan 1 1 | hash 2 | cut 3: 0 2 => accepted ;1,-,;2,-,;3,-,;4,-,;5,-,
SELECT c, a FROM u JOIN t ON c = a AND b IS NOT NULL => scan 0 0 | scan 1 1 | hash 2 | cut 3: 0 2 => accepted ;3,3,;1,1,;3,3,
SELECT x.a, y.a FROM t x JOIN t y ON x.a = x.b => scan 0 0 | scan 1 1 | hash 2 | cut 3: 0 2 => K06 line 5
SELECT a, c FROM t JOIN u ON c = 3 => scan 0 0 | scan 1 1 | hash 2 | cut 3: 0 2 => K06 line 5
SELECT a, c FROM t JOIN u ON a = c OR b = c => scan 0 0 | scan 1 1 | hash 2 | cut 3: 0 2 => K06 line 5
SELECT a, c, d FROM t JOIN u ON a = c AND (d = 'x' AND b < 20 OR d = 'y' AND b > 10) => scan 0 0 | scan 1 1 | hash 2 | cut 3: 0 2 3 => accepted ;3,3,x,
SELECT a, c, d FROM t LEFT JOIN u ON a = c AND (d = 'x' AND b < 20 OR d = 'y' AND b > 10) => scan 0 0 | scan 1 1 | hash 2 | cut 3: 0 2 3 => accepted ;1,-,-,;2,-,-,;3,3,x,;4,-,-,;5,-,-,
SELECT x.a, y.a FROM t x LEFT JOIN t y ON x.b = y.b AND (y.a > 3 AND x.a < 5 OR y.b IS NULL AND x.a = 2) => scan 0 0 | scan 1 1 | hash 2 | cut 3: 0 2 => accepted ;1,5,;2,-,;3,-,;4,-,;5,-,
SELECT a, c, d FROM t LEFT JOIN u ON d = 'x' AND b < 20 OR d IS NULL AND b = 20 => scan 0 0 | scan 1 1 | left 2 | cut 3: 0 2 3 => accepted ;1,1,-,;2,-,-,;3,3,x,;4,-,-,;5,1,-,
SELECT a, c, d FROM t LEFT JOIN u ON d = 'x' AND b < 20 OR a = c => scan 0 0 | scan 1 1 | left 2 | cut 3: 0 2 3 => accepted ;1,1,-,;2,-,-,;3,3,x,;3,3,y,;4,-,-,;5,-,-,
SELECT a, c FROM t, u WHERE a = c => scan 0 0 | scan 1 1 | hash 2 | filter 3 | cut 4: 0 2 => K06 line 7
SELECT a, c, d FROM t JOIN u ON a = c => scan 0 0 | sort: 0 | scan 1 1 | sort: 2 | merge 2: 0 2 | cut 3: 0 2 3 => accepted ;1,1,-,;3,3,x,;3,3,y,
SELECT a, c, d FROM t JOIN u ON a = c => scan 0 0 | scan 1 1 | sort: 2 | merge 2: 0 2 | cut 3: 0 2 3 => K07 line 5
SELECT a, c, d FROM t JOIN u ON a = c => scan 0 0 | sort: 0 | scan 1 1 | sort: 2d | merge 2: 0 2 | cut 3: 0 2 3 => K07 line 5
SELECT a, c, d FROM t JOIN u ON a = c => scan 0 0 | sort: 1 | scan 1 1 | sort: 2 | merge 2: 1 2 | cut 3: 0 2 3 => K06 line 5
SELECT a, c, d FROM t LEFT JOIN u ON a = c => scan 0 0 | sort: 0 | scan 1 1 | sort: 2 | merge 2: 0 2 | cut 3: 0 2 3 => K06 line 5
SELECT a, c, d FROM t JOIN u ON a = c => scan 0 0 | scan 1 1 | semi 2 | cut 3: 0 2 3 => K06 line 5
SELECT a, c, d FROM t JOIN u ON a = c => scan 0 0 | scan 1 1 | anti 2 | cut 3: 0 2 3 => K06 line 5
SELECT b, COUNT(*) FROM t GROUP BY b => scan 0 0 | sort: 1d | sgroup 1 | cut 2: 1 2 => accepted ;20,2,;10,1,;-,2,
SELECT b, COUNT(*) FROM t GROUP BY b => scan 0 0 | sort: 0 | sgroup 1 | cut 2: 1 2 => K07 line 4
SELECT DISTINCT b FROM t => scan 0 0 | sort: 1 | cut 1: 1 | sdistinct 2 => accepted ;-,;10,;20,
SELECT DISTINCT b FROM t => scan 0 0 | cut 1: 1 | sdistinct 2 => K07 line 3";

/// Joins keep the order of the loops, groups and distinct rows come as first seen, and sorts are stable. Among a Null alone
/// nothing is found: that is unknown. Without keys there is one group, over no rows too. A filter by a subquery that reads a column with
/// the same values in several rows keeps the rows' order.
const ROWS: &str =
    "SELECT a, b FROM t => scan 0 0 | cut 1: 0 1 => accepted ;1,20,;2,-,;3,10,;4,-,;5,20,
SELECT b FROM t => scan 0 0 | cut 1: 1 => accepted ;20,;-,;10,;-,;20,
SELECT a FROM t WHERE a = 7 => scan 0 0 | filter 1 | cut 2: 0 => accepted
SELECT a, c, d FROM t JOIN u ON a = c => scan 0 0 | scan 1 1 | loop 2 | cut 3: 0 2 3 => accepted ;1,1,-,;3,3,x,;3,3,y,
SELECT a, c, d FROM t LEFT JOIN u ON a = c => scan 0 0 | scan 1 1 | left 2 | cut 3: 0 2 3 => accepted ;1,1,-,;2,-,-,;3,3,x,;3,3,y,;4,-,-,;5,-,-,
SELECT a FROM t WHERE EXISTS (SELECT * FROM u WHERE c = a) => scan 0 0 | scan 1 1 | filter 2 | cut 3: 2 3 | subqueries 4 1 | cut 5: 0 => accepted ;1,;3,
SELECT x.a FROM t x WHERE x.a = 2 OR EXISTS (SELECT * FROM t y WHERE y.b = x.b AND y.a > 3) => scan 0 0 | scan 1 1 | filter 2 | cut 3: 2 3 | subqueries 4 1 | cut 5: 0 => accepted ;1,;2,;5,
SELECT x.a FROM t x WHERE x.a NOT IN (SELECT y.a FROM t y WHERE y.b = x.b AND y.a < 5) => scan 0 0 | scan 1 1 | filter 2 | cut 3: 2 | subqueries 4 1 | cut 5: 0 => accepted ;2,;4,;5,
SELECT a FROM t WHERE 'y' IN (SELECT d FROM u WHERE c = a) => scan 0 0 | scan 1 1 | filter 2 | cut 3: 3 | subqueries 4 1 | cut 5: 0 => accepted ;3,
SELECT x.a FROM t x WHERE EXISTS (SELECT DISTINCT y.b FROM t y WHERE y.a > x.a) => scan 0 0 | scan 1 1 | filter 2 | cut 3: 3 | sort: 3 | sdistinct 4 | subqueries 5 1 | cut 6: 0 => accepted ;1,;2,;3,;4,
SELECT x.a FROM t x WHERE NOT EXISTS (SELECT y.b, COUNT(*) FROM t y WHERE y.a > x.a GROUP BY y.b) => scan 0 0 | scan 1 1 | filter 2 | group 3 | cut 4: 3 4 | subqueries 5 1 | cut 6: 0 => accepted ;5,
SELECT x.a FROM t x WHERE EXISTS (SELECT COUNT(*) FROM t y WHERE y.a > x.a) => scan 0 0 | scan 1 1 | filter 2 | group 3 | cut 4: 4 | subqueries 5 1 | cut 6: 0 => accepted ;1,;2,;3,;4,;5,
SELECT x.a FROM t x WHERE EXISTS (SELECT * FROM u LEFT JOIN t y ON y.a = x.a AND y.b > 10) => scan 0 0 | scan 1 1 | scan 2 2 | left 3 | cut 4: 2 3 4 5 | subqueries 5 1 | cut 6: 0 => accepted ;1,;2,;3,;4,;5,
SELECT x.a FROM t x WHERE NOT EXISTS (SELECT * FROM u JOIN t y ON y.a = c WHERE y.b = x.b) => scan 0 0 | scan 1 1 | scan 2 2 | hash 3 | filter 4 | cut 5: 2 3 4 5 | subqueries 6 1 | cut 7: 0 => accepted ;2,;4,
SELECT x.a FROM t x WHERE x.a = 4 OR EXISTS (SELECT * FROM t y WHERE y.b = x.b AND y.a > x.a) AND x.a IN (SELECT c FROM u WHERE c < 3) => scan 0 0 | scan 1 1 | filter 2 | cut 3: 2 3 | scan 4 2 | filter 5 | cut 6: 4 | subqueries 7 2 | cut 8: 0 => accepted ;1,;4,
SELECT b, COUNT(*), COUNT(b), SUM(a), MIN(a), MAX(b) FROM t GROUP BY b => scan 0 0 | group 1 | cut 2: 1 2 3 4 5 6 => accepted ;20,2,2,6,1,20,;-,2,0,6,2,-,;10,1,1,3,3,10,
SELECT COUNT(*), COUNT(b), SUM(a), MIN(a), MAX(b) FROM t WHERE a = 7 => scan 0 0 | filter 1 | group 2 | cut 3: 2 3 4 5 6 => accepted ;0,0,-,-,-,
SELECT COUNT(*) FROM t WHERE a = 7 GROUP BY b => scan 0 0 | filter 1 | group 2 | cut 3: 2 => accepted
SELECT DISTINCT b FROM t => scan 0 0 | cut 1: 1 | distinct 2 => accepted ;20,;-,;10,
SELECT a, b FROM t ORDER BY b => scan 0 0 | sort: 1 | cut 1: 0 1 => accepted ;2,-,;4,-,;3,10,;1,20,;5,20,
SELECT a, b FROM t ORDER BY b DESC => scan 0 0 | sort: 1d | cut 1: 0 1 => accepted ;1,20,;5,20,;3,10,;2,-,;4,-,";

/// A scan by an index stands for a table's, or for a filter of one, and gives its rows by the index, Null first, those that tie as
/// they stood; a join by an index stands for the loop over a scan. Each of its columns has to be equated with what is none of the
/// instance's.
const INDEXES: &str =
    "SELECT b, a FROM t ORDER BY b => iscan 0: 0 0 0 | cut 1: 0 1 => accepted ;-,2,;-,4,;10,3,;20,1,;20,5,
SELECT b, a FROM t ORDER BY b DESC => iscan 0: 0 0 0 | cut 1: 0 1 => K08 line 2
SELECT b, a FROM t WHERE a > 2 ORDER BY b => iscan 1: 0 0 0 | cut 2: 0 1 => accepted ;-,4,;10,3,;20,5,
SELECT b, a FROM t WHERE b >= 20 => iscan 1: 0 0 1 | cut 2: 0 1 => accepted ;20,1,;20,5,
SELECT b, a FROM t WHERE b >= 20 => iscan 1: 0 0 2 | cut 2: 0 1 => K06 line 4
SELECT b, a FROM t WHERE b >= 20 => iscan 1: 1 0 0 | cut 2: 0 1 => K06 line 4
SELECT b, a FROM t WHERE b >= 20 => iscan 1: 0 1 0 | cut 2: 0 1 => K06 line 4
SELECT b, a FROM t WHERE b >= 20 => iscan 1: 9 0 0 | cut 2: 0 1 => K01 line 4
SELECT b, a FROM t WHERE b >= 20 => iscan 0: 0 0 0 | filter 1 | cut 2: 0 1 => accepted ;20,1,;20,5,
SELECT a FROM t WHERE EXISTS (SELECT * FROM u) => iscan 3: 0 0 0 | cut 4: 0 => K06 line 6
SELECT a, c, d FROM t JOIN u ON a = c => scan 0 0 | iloop 2: 1 1 0 | cut 3: 0 2 3 => accepted ;1,1,-,;3,3,x,;3,3,y,
SELECT a, c, d FROM t LEFT JOIN u ON a = c AND c > 1 => scan 0 0 | iloop 2: 1 1 0 | cut 3: 0 2 3 => accepted ;1,-,-,;2,-,-,;3,3,x,;3,3,y,;4,-,-,;5,-,-,
SELECT a, c, d FROM t JOIN u ON a = c => scan 0 0 | iloop 2: 1 1 1 | cut 3: 0 2 3 => K06 line 5
SELECT a, c, d FROM t JOIN u ON a = c => scan 0 0 | iloop 2: 0 0 0 | cut 3: 0 2 3 => K06 line 5
SELECT a, c, d FROM t JOIN u ON a = c => scan 0 0 | iloop 2: 7 1 0 | cut 3: 0 2 3 => K01 line 5
SELECT a, c, d FROM t JOIN u ON a <= c => scan 0 0 | iloop 2: 1 1 0 | cut 3: 0 2 3 => K06 line 5
SELECT c, a, b FROM u JOIN t ON b = c => scan 0 0 | iloop 2: 1 1 1 | cut 3: 0 2 3 => K06 line 5
SELECT c, a, b FROM u JOIN t ON b = 20 AND a = c => scan 0 0 | iloop 2: 1 1 1 | cut 3: 0 2 3 => accepted ;1,1,20,
SELECT x.a, y.a FROM t x JOIN t y ON x.b = y.b => iscan 0: 0 0 0 | iscan 1: 1 1 0 | merge 2: 1 3 | cut 3: 0 2 => accepted ;3,3,;1,1,;1,5,;5,1,;5,5,
SELECT x.a, y.a FROM t x JOIN t y ON x.b = y.b => iscan 0: 0 0 0 | scan 1 1 | merge 2: 1 3 | cut 3: 0 2 => K07 line 5";

/// What a scan by an index finds: by an equality, a range, both, and by values of an outer row. No comparison with a Null finds a
/// row, and a Null in the index is found by its own test alone.
const SEARCHES: &str =
    "SELECT b, a FROM t WHERE b > 10 AND b <= 20 => iscan 1: 0 0 0 | cut 2: 0 1 => accepted ;20,1,;20,5,
SELECT b, a FROM t WHERE 10 <= b AND b < 20 => iscan 1: 0 0 0 | cut 2: 0 1 => accepted ;10,3,
SELECT b, a FROM t WHERE b < 20 => iscan 1: 0 0 0 | cut 2: 0 1 => accepted ;10,3,
SELECT b, a FROM t WHERE b IS NULL => iscan 1: 0 0 0 | cut 2: 0 1 => accepted ;-,2,;-,4,
SELECT b, a FROM t WHERE b IS NULL AND a > 2 => iscan 1: 0 0 1 | cut 2: 0 1 => accepted ;-,4,
SELECT b, a FROM t WHERE b = 20 => iscan 1: 0 0 0 | cut 2: 0 1 => accepted ;20,1,;20,5,
SELECT b, a FROM t WHERE b = 20 AND a > 1 => iscan 1: 0 0 1 | cut 2: 0 1 => accepted ;20,5,
SELECT b, a FROM t WHERE b = 20 AND a > 0 AND a < 5 => iscan 1: 0 0 1 | cut 2: 0 1 => accepted ;20,1,
SELECT b, a FROM t WHERE b = 15 => iscan 1: 0 0 0 | cut 2: 0 1 => accepted
SELECT b, a FROM t WHERE b = NULL => iscan 1: 0 0 0 | cut 2: 0 1 => accepted
SELECT b, a FROM t WHERE b > 20 AND b < 10 => iscan 1: 0 0 0 | cut 2: 0 1 => accepted
SELECT d, c FROM u WHERE d >= 'x' => iscan 1: 0 0 1 | cut 2: 0 1 => accepted ;x,3,;y,3,
SELECT id FROM emp WHERE pay > 5 => iscan 1: 0 0 0 | cut 2: 0 => accepted
SELECT id FROM emp => iscan 0: 0 0 0 | cut 1: 0 => accepted
SELECT c, d FROM u WHERE EXISTS (SELECT * FROM t WHERE b = 10 AND a = c) => scan 0 0 | iscan 2: 1 1 1 | cut 3: 2 3 | subqueries 4 1 | cut 5: 0 1 => accepted ;3,x,;3,y,
SELECT c, d FROM u WHERE EXISTS (SELECT * FROM t WHERE b = 20 AND a < c) => scan 0 0 | iscan 2: 1 1 1 | cut 3: 2 3 | subqueries 4 1 | cut 5: 0 1 => accepted ;3,x,;3,y,
SELECT x.a FROM t x WHERE EXISTS (SELECT * FROM t y WHERE y.b = x.b AND y.a <> x.a) => scan 0 0 | iscan 2: 1 1 0 | cut 3: 2 3 | subqueries 4 1 | cut 5: 0 => accepted ;1,;5,
SELECT x.a FROM t x WHERE NOT EXISTS (SELECT * FROM t y WHERE y.b = x.b AND y.a > x.a) => scan 0 0 | iscan 2: 1 1 0 | cut 3: 2 3 | subqueries 4 1 | cut 5: 0 => accepted ;2,;3,;4,;5,
SELECT x.a FROM t x WHERE NOT EXISTS (SELECT * FROM t y WHERE y.b = x.b AND y.a > x.a) => scan 0 0 | iscan 2: 1 1 1 | cut 3: 2 3 | subqueries 4 1 | cut 5: 0 => accepted ;2,;3,;4,;5,
SELECT x.a FROM t x WHERE x.b > 10 AND EXISTS (SELECT * FROM t y WHERE y.b < x.b) => iscan 0: 0 0 0 | iscan 2: 1 1 0 | cut 3: 2 3 | subqueries 4 1 | cut 5: 0 => accepted ;1,;5,";

/// Certificates with lines or conjuncts of other texts. The lines of the third but the group are those of the query, but for
/// the class that the cut names.
const LINES: &str =
    "SELECT id FROM emp WHERE pay <> 500 => scan 0 0 | filter 1 | cut 2: 0 /  / 2 => K03 line 2
SELECT id FROM emp WHERE pay <> 500 => scan 0 0 | filter 1 | cut 2: 0 / SELECT id FROM emp WHERE pay <> 400 => K03 line 1
SELECT id FROM emp WHERE pay <> 500 => scan 0 0 | filter 1 | cut 2: 0 / SELECT id FROM emp WHERE pay <> 500 GROUP BY id / 2 => K01 line 2
SELECT id FROM emp WHERE pay <> 500 => scan 0 0 | filter 1 | cut 2: 0 /  /  / SELECT id FROM emp WHERE pay <> 400 => K06 line 4";

#[test]
fn certificates_are_judged(rt: HostRuntime) {
    assert_eq!(rt;
        query_differences(
            rt.alloc(),
            TABLES,
            &[PLANS, METHODS, ROWS, INDEXES, SEARCHES, LINES],
            &Verdicts
        )
        .as_deref(),
        Ok("")
    );
}

/// Lines of every kind, and a plan of what they found. An id has no Null and is a key, so distinct rows are the rows themselves; a badge
/// may be Null, so its key is weak and serves for nothing.
const FACTS: &str =
    "SELECT DISTINCT id FROM emp => F get 0; F keep 0 0; F distinct 1; L 0 0 notnull 0; L 0 0 weak 0; L 0 0 strong 0; L 1 1 strong 0; S 2 1 D1 0 2 - / scan 0 0 | cut 1: 0 => accepted ;10,;11,;12,;13,
SELECT DISTINCT id FROM emp => F get 0; F keep 0 0; F distinct 1; L 0 0 notnull 0; L 0 0 weak 0; L 1 1 strong 0; S 2 1 D1 0 2 - / scan 0 0 | cut 1: 0 => K05 L line 5
SELECT DISTINCT id FROM emp => F get 0; F keep 0 0; F distinct 1; L 0 0 notnull 0; L 0 0 weak 0; L 0 0 strong 0; L 1 1 strong 0 / scan 0 0 | cut 1: 0 => K06 line 7
SELECT DISTINCT id FROM emp => F get 0; F keep 0 0; F distinct 1; L 0 0 notnull 1 / scan 0 0 | cut 1: 0 => K05 L line 3
SELECT DISTINCT id FROM emp => F get 0; F keep 0 0; F distinct 1; L 0 1 notnull 0 / scan 0 0 | cut 1: 0 => K02 line 3
SELECT DISTINCT id FROM emp => F get 0; F keep 0 0; F distinct 1; L 1 1 notnull 3 / scan 0 0 | cut 1: 0 => K04 line 3
SELECT DISTINCT id FROM emp => F get 0; F keep 0 0; F distinct 1; L 3 0 notnull 0 / scan 0 0 | cut 1: 0 => K01 line 3
SELECT DISTINCT badge FROM emp => F get 0; F keep 3 0; F distinct 1; S 2 1 D1 0 2 - / scan 0 0 | cut 1: 3 => K05 D1 line 3
SELECT DISTINCT badge FROM emp => F get 0; F keep 3 0; F distinct 1; S 2 1 K2 0 1 - / scan 0 0 | cut 1: 3 => K02 line 3
SELECT DISTINCT badge FROM emp => F get 0; F keep 3 0; F distinct 1 / scan 0 0 | cut 1: 3 | distinct 2 => accepted ;7,;-,;9,
SELECT DISTINCT badge FROM emp => F get 0; F keep 3 5; F distinct 1 / scan 0 0 | cut 1: 3 | distinct 2 => K01 line 1
SELECT DISTINCT badge FROM emp => F get 0; F keep 2,3 0; F distinct 1 / scan 0 0 | cut 1: 3 | distinct 2 => K03 line 1
SELECT DISTINCT badge FROM emp => F get 0; F keep 3 0; F distinct 1 / scan 0 0 | cut 1: 3 | sdistinct 2 => K07 line 3
SELECT DISTINCT badge FROM emp => F get 0; F keep 3 0; F distinct 1 / scan 0 0 | cut 1: 2 | distinct 2 => K06 line 4
SELECT DISTINCT badge FROM emp ORDER BY badge => F get 0; F keep 3 0; F distinct 1 / scan 0 0 | cut 1: 3 | distinct 2 => K08 line 3
SELECT DISTINCT badge FROM emp ORDER BY badge => F get 0; F keep 3 0; F distinct 1 / scan 0 0 | cut 1: 3 | distinct 2 | sort: 3 => accepted ;-,;7,;9,";

/// Plans over members that rules add: a join turned round, a filter below a join or a group, a group as distinct rows, a group over a group. A node
/// names a line with an expression of its own class, or of one that earlier lines make the same.
const MEMBERS: &str =
    "SELECT d.id, e.id FROM dept d JOIN emp e ON e.dept = d.id => F get 0; F get 1; F join [=(c4,c0)] 0 1; F keep 0,3 2; A 2 J1 0 2 - join [=(c4,c0)] 1 0 / scan 1 1 | scan 0 0 | hash 4 | cut 3: 0 3 => accepted ;1,10,;1,11,;3,12,
SELECT d.id, e.id FROM dept d JOIN emp e ON e.dept = d.id => F get 0; F get 1; F join [=(c4,c0)] 0 1; F keep 0,3 2; A 2 J1 0 2 - join [=(c4,c0)] 0 1 / scan 1 1 | scan 0 0 | hash 4 | cut 3: 0 3 => K03 line 4
SELECT d.id, e.id FROM dept d JOIN emp e ON e.dept = d.id => F get 0; F get 1; F join [=(c4,c0)] 0 1; F keep 0,3 2; A 3 J1 0 2 - join [=(c4,c0)] 1 0 / scan 1 1 | scan 0 0 | hash 4 | cut 3: 0 3 => K04 line 4
SELECT d.id, e.id FROM dept d JOIN emp e ON e.dept = d.id => F get 0; F get 1; F join [=(c4,c0)] 0 1; F keep 0,3 2; A 2 J1 0 4 - join [=(c4,c0)] 1 0 / scan 1 1 | scan 0 0 | hash 4 | cut 3: 0 3 => K01 line 4
SELECT d.id, e.id FROM dept d JOIN emp e ON e.dept = d.id => F get 0; F get 1; F join [=(c4,c0)] 0 1; F keep 0,3 2; A 2 J1 0 1 - join [=(c4,c0)] 1 0 / scan 1 1 | scan 0 0 | hash 4 | cut 3: 0 3 => K02 line 4
SELECT d.id, e.id FROM dept d JOIN emp e ON e.dept = d.id => F get 0; F get 1; F join [=(c4,c0)] 0 1; F keep 0,3 2; F join [=(c4,c0)] 1 0 / scan 1 1 | scan 0 0 | hash 4 | cut 3: 0 3 => K06 line 6
SELECT d.id, e.id FROM dept d JOIN emp e ON e.dept = d.id => F get 0; F get 1; F join [=(c4,c0)] 0 1; F keep 0,3 2; F join [=(c4,c0)] 1 0; S 2 4 J1 0 2 4 / scan 1 1 | scan 0 0 | hash 4 | cut 3: 0 3 => accepted ;1,10,;1,11,;3,12,
SELECT d.id, e.id FROM dept d JOIN emp e ON e.dept = d.id => F get 0; F get 1; F join [=(c4,c0)] 0 1; F keep 0,3 2; F join [=(c4,c0)] 1 0; S 2 4 J1 0 2 4 / scan 1 1 | scan 0 0 | hash 5 | cut 3: 0 3 => K06 line 7
SELECT d.id FROM dept d JOIN emp e ON e.dept = d.id WHERE d.boss = 10 => F get 0; F get 1; F join [=(c4,c0)] 0 1; F select [=(c2,i10)] 2; F keep 0 3; F select [=(c2,i10)] 0; A 3 S2 0 3,2 5 join [=(c4,c0)] 5 1 / scan 0 0 | filter 5 | scan 1 1 | hash 6 | cut 4: 0 => accepted ;1,;1,
SELECT d.id FROM dept d JOIN emp e ON e.dept = d.id WHERE d.boss = 10 => F get 0; F get 1; F join [=(c4,c0)] 0 1; F select [=(c2,i10)] 2; F keep 0 3; F select [=(c2,i12)] 0; A 3 S2 0 3,2 5 join [=(c4,c0)] 5 1 / scan 0 0 | filter 5 | scan 1 1 | hash 6 | cut 4: 0 => K03 line 6
SELECT dept FROM emp GROUP BY dept => F get 0; F group 1 0; F keep 1 1; F keep 1 0; A 1 G1 0 1 3 distinct 3 / scan 0 0 | cut 3: 1 | distinct 4 | cut 2: 1 => accepted ;1,;3,;-,
SELECT dept FROM emp GROUP BY dept HAVING dept > 1 => F get 0; F group 1 0; F select [>(c1,i1)] 1; F keep 1 2 / scan 0 0 | group 1 | filter 2 | cut 3: 1 => accepted ;3,
SELECT dept FROM emp GROUP BY dept HAVING dept > 1 => F get 0; F group 1 0; F select [>(c1,i1)] 1; F keep 1 2; F select [>(c1,i1)] 0; A 2 G2 0 2,1 4 group 1 4 / scan 0 0 | filter 4 | group 5 | cut 3: 1 => accepted ;3,
SELECT dept FROM emp GROUP BY dept HAVING dept > 1 => F get 0; F group 1 0; F select [>(c1,i1)] 1; F keep 1 2; F select [>(c1,i2)] 0; A 2 G2 0 2,1 4 group 1 4 / scan 0 0 | filter 4 | group 5 | cut 3: 1 => K03 line 5
SELECT DISTINCT dept FROM emp GROUP BY dept => F get 0; F group 1 0; F keep 1 1; F distinct 2; F distinct 1; G 2 2; F group 1 1 / scan 0 0 | group 1 | cut 2: 1 | distinct 3 => accepted ;1,;3,;-,
SELECT id FROM emp => F get 0; F keep 0 0; F get 0; G 0 2; F keep 0 2; G 1 4 / scan 2 0 | cut 4: 0 => accepted ;10,;11,;12,;13,
SELECT id FROM emp => F get 0; F keep 0 0; F get 0; F keep 0 2; G 1 3; G 0 2 / scan 2 0 | cut 3: 0 => K02 line 4
SELECT d.id FROM dept d, emp e => F get 0; F get 1; F join [] 0 1; F keep 0 2; F semi [=(c4,c0)] 0 1; F select [=(c2,i10)] 4; F select [=(c2,i10)] 0; A 5 S5 0 5,4 6 semi [=(c4,c0)] 6 1 / scan 0 0 | scan 1 1 | loop 2 | cut 3: 0 => accepted ;1,;1,;1,;1,;2,;2,;2,;2,;3,;3,;3,;3,
SELECT d.id FROM dept d, emp e => F get 0; F get 1; F join [] 0 1; F keep 0 2; F anti [=(c4,c0)] [] 0 1; F select [=(c2,i10)] 4; F select [=(c2,i10)] 0; A 5 S5 0 5,4 6 semi [=(c4,c0)] 6 1 / scan 0 0 | scan 1 1 | loop 2 | cut 3: 0 => K03 line 7";

/// Employees of a department with a pay of more than nothing: no row that is padded is one of them, so the join may be an inner one, and take emp as its left side. A
/// row may be padded for which no pay is known, and then stays.
const OUTER_JOINS: &str =
    "SELECT d.id, e.id FROM dept d LEFT JOIN emp e ON e.dept = d.id WHERE e.pay > 0 => F get 0; F get 1; F left [=(c4,c0)] 0 1; F select [>(c5,i0)] 2; F keep 0,3 3; F join [=(c4,c0)] 0 1; A 3 O1 0 3,2 5 select [>(c5,i0)] 5 / scan 0 0 | scan 1 1 | hash 5 | filter 6 | cut 4: 0 3 => accepted ;1,10,;3,12,
SELECT d.id, e.id FROM dept d LEFT JOIN emp e ON e.dept = d.id WHERE e.pay > 0 => F get 0; F get 1; F left [=(c4,c0)] 0 1; F select [>(c5,i0)] 2; F keep 0,3 3; F join [=(c4,c0)] 0 1; A 3 O1 0 3,2 5 select [>(c5,i0)] 5; A 5 J1 0 5 - join [=(c4,c0)] 1 0 / scan 1 1 | scan 0 0 | hash 7 | filter 6 | cut 4: 0 3 => accepted ;1,10,;3,12,
SELECT d.id, e.id FROM dept d LEFT JOIN emp e ON e.dept = d.id WHERE e.pay > 0 => F get 0; F get 1; F left [=(c4,c0)] 0 1; F select [>(c5,i0)] 2; F keep 0,3 3; F join [] 0 1; A 3 O1 0 3,2 5 select [>(c5,i0)] 5 / scan 0 0 | scan 1 1 | hash 5 | filter 6 | cut 4: 0 3 => K03 line 6
SELECT d.id, e.id FROM dept d LEFT JOIN emp e ON e.dept = d.id WHERE e.pay > 0 => F get 0; F get 1; F left [=(c4,c0)] 0 1; F select [>(c5,i0)] 2; F keep 0,3 3; F join [=(c4,c0)] 0 1; A 3 O1 0 3,5 5 select [>(c5,i0)] 5 / scan 0 0 | scan 1 1 | hash 5 | filter 6 | cut 4: 0 3 => K02 line 6
SELECT d.id, e.id FROM dept d LEFT JOIN emp e ON e.dept = d.id WHERE e.pay IS NULL => F get 0; F get 1; F left [=(c4,c0)] 0 1; F select [null(c5)] 2; F keep 0,3 3; F join [=(c4,c0)] 0 1; A 3 O1 0 3,2 5 select [null(c5)] 5 / scan 0 0 | scan 1 1 | hash 5 | filter 6 | cut 4: 0 3 => K05 O1 line 6
SELECT d.id, e.id FROM dept d LEFT JOIN emp e ON e.dept = d.id WHERE e.pay IS NULL => F get 0; F get 1; F left [=(c4,c0)] 0 1; F select [null(c5)] 2; F keep 0,3 3 / scan 0 0 | scan 1 1 | hash 2 | filter 3 | cut 4: 0 3 => accepted ;1,11,;2,-,
SELECT d.id, e.id FROM dept d LEFT JOIN emp e ON e.dept = d.id WHERE d.boss = 10 => F get 0; F get 1; F left [=(c4,c0)] 0 1; F select [=(c2,i10)] 2; F keep 0,3 3; F join [=(c4,c0)] 0 1; A 3 O1 0 3,2 5 select [=(c2,i10)] 5 / scan 0 0 | scan 1 1 | hash 5 | filter 6 | cut 4: 0 3 => K05 O1 line 6
SELECT d.id, e.id FROM dept d LEFT JOIN emp e ON e.dept = d.id WHERE d.boss = 10 => F get 0; F get 1; F left [=(c4,c0)] 0 1; F select [=(c2,i10)] 2; F keep 0,3 3; F select [=(c2,i10)] 0; A 3 O2 0 3,2 5 left [=(c4,c0)] 5 1 / scan 0 0 | filter 5 | scan 1 1 | hash 6 | cut 4: 0 3 => accepted ;1,10,;1,11,
SELECT d.id, e.id FROM dept d LEFT JOIN emp e ON e.dept = d.id WHERE e.pay > 0 => F get 0; F get 1; F left [=(c4,c0)] 0 1; F select [>(c5,i0)] 2; F keep 0,3 3; F select [>(c5,i0)] 0; A 3 O2 0 3,2 5 left [=(c4,c0)] 5 1 / scan 0 0 | filter 5 | scan 1 1 | hash 6 | cut 4: 0 3 => K02 line 6
SELECT d.id, e.id FROM dept d LEFT JOIN emp e ON e.dept = d.id AND e.pay > 0 => F get 0; F get 1; F left [=(c4,c0);>(c5,i0)] 0 1; F keep 0,3 2; F select [>(c5,i0)] 1; A 2 O3 0 2 4 left [=(c4,c0)] 0 4 / scan 0 0 | scan 1 1 | filter 4 | hash 5 | cut 3: 0 3 => accepted ;1,10,;2,-,;3,12,
SELECT d.id, e.id FROM dept d LEFT JOIN emp e ON e.dept = d.id AND d.boss = 10 => F get 0; F get 1; F left [=(c2,i10);=(c4,c0)] 0 1; F keep 0,3 2; F select [=(c2,i10)] 0; A 2 O3 0 2 4 left [=(c4,c0)] 4 1 / scan 0 0 | filter 4 | scan 1 1 | hash 5 | cut 3: 0 3 => K02 line 5";

/// Three tables. An outer join changes places with an inner one where neither condition reads the right side of the other.
const CHANGED_PLACES: &str =
    "SELECT e.id, d.id, x.id FROM emp e JOIN dept d ON d.id = e.dept LEFT JOIN dept x ON x.boss = e.id => F get 0; F get 1; F join [=(c4,c1)] 0 1; F get 2; F left [=(c9,c0)] 2 3; F keep 0,4,7 4; F left [=(c9,c0)] 0 3; A 4 O4 0 4,2 6 join [=(c4,c1)] 6 1 / scan 0 0 | scan 3 2 | hash 6 | scan 1 1 | hash 7 | cut 5: 0 4 7 => accepted ;10,1,1,;11,1,-,;12,3,3,
SELECT e.id, d.id, x.id FROM emp e JOIN dept d ON d.id = e.dept LEFT JOIN dept x ON x.boss = d.boss => F get 0; F get 1; F join [=(c4,c1)] 0 1; F get 2; F left [=(c9,c6)] 2 3; F keep 0,4,7 4; F left [=(c9,c6)] 0 3; A 4 O4 0 4,2 6 join [=(c4,c1)] 6 1 / scan 0 0 | scan 3 2 | hash 6 | scan 1 1 | hash 7 | cut 5: 0 4 7 => K05 O4 line 7
SELECT e.id, d.id, x.id FROM emp e LEFT JOIN dept x ON x.boss = e.id JOIN dept d ON d.id = e.dept => F get 0; F get 1; F left [=(c6,c0)] 0 1; F get 2; F join [=(c7,c1)] 2 3; F keep 0,4,7 4; F join [=(c7,c1)] 0 3; A 4 O5 0 4,2 6 left [=(c6,c0)] 6 1 / scan 0 0 | scan 3 2 | hash 6 | scan 1 1 | hash 7 | cut 5: 0 7 4 => accepted ;10,1,1,;11,1,-,;12,3,3,
SELECT e.id, d.id, x.id FROM emp e LEFT JOIN dept x ON x.boss = e.id JOIN dept d ON d.id = x.id => F get 0; F get 1; F left [=(c6,c0)] 0 1; F get 2; F join [=(c7,c4)] 2 3; F keep 0,4,7 4; F join [=(c7,c4)] 0 3; A 4 O5 0 4,2 6 left [=(c6,c0)] 6 1 / scan 0 0 | scan 3 2 | hash 6 | scan 1 1 | hash 7 | cut 5: 0 7 4 => K05 O5 line 7";

/// Outer joins that go away: a right side that isn't read and has a key, and one that is asked to be padded.
const ELIMINATED: &str =
    "SELECT e.id FROM emp e LEFT JOIN dept d ON d.id = e.dept => F get 0; F get 1; F left [=(c4,c1)] 0 1; F keep 0 2; L 1 1 weak 4; A 3 O6 0 3,2 - keep 0 0 / scan 0 0 | cut 5: 0 => accepted ;10,;11,;12,;13,
SELECT e.id FROM emp e LEFT JOIN dept d ON d.id = e.dept => F get 0; F get 1; F left [=(c4,c1)] 0 1; F keep 0 2; A 3 O6 0 3,2 - keep 0 0 / scan 0 0 | cut 4: 0 => K05 O6 line 4
SELECT e.id, d.boss FROM emp e LEFT JOIN dept d ON d.id = e.dept => F get 0; F get 1; F left [=(c4,c1)] 0 1; F keep 0,6 2; L 1 1 weak 4; A 3 O6 0 3,2 - keep 0,6 2 / scan 0 0 | scan 1 1 | hash 2 | cut 3: 0 6 => K05 O6 line 5
SELECT d.id FROM dept d LEFT JOIN emp e ON e.dept = d.id WHERE e.id IS NULL => F get 0; F get 1; F left [=(c4,c0)] 0 1; F select [null(c3)] 2; F keep 0 3; L 1 1 notnull 3; F anti [=(c4,c0)] [] 0 1; A 4 O7 0 4,3,2 6 keep 0 6 / scan 0 0 | scan 1 1 | hash 6 | cut 7: 0 => accepted ;2,
SELECT d.id FROM dept d LEFT JOIN emp e ON e.dept = d.id WHERE e.pay IS NULL => F get 0; F get 1; F left [=(c4,c0)] 0 1; F select [null(c5)] 2; F keep 0 3; F anti [=(c4,c0)] [] 0 1; A 4 O7 0 4,3,2 5 keep 0 5 / scan 0 0 | scan 1 1 | hash 5 | cut 6: 0 => K05 O7 line 6
SELECT d.id FROM dept d LEFT JOIN emp e ON e.dept = d.id WHERE e.dept IS NULL => F get 0; F get 1; F left [=(c4,c0)] 0 1; F select [null(c4)] 2; F keep 0 3; F anti [=(c4,c0)] [] 0 1; A 4 O7 0 4,3,2 5 keep 0 5 / scan 0 0 | scan 1 1 | hash 5 | cut 6: 0 => accepted ;2,";

/// Who has no employees: the projection goes, and then the selection is an antijoin. As it stands the subquery reads the department, so it is none to be
/// asked once; and an antijoin has no conditions with a subquery.
const NOT_EXISTS: &str =
    "SELECT d.id FROM dept d WHERE NOT EXISTS (SELECT * FROM emp e WHERE e.dept = d.id) => F get 0; F get 1; F select [=(c4,c0)] 1; F keep 3,4,5,6 2; F select [not(exists(3))] 0; F keep 0 4; A 4 U6 3 4,3 - select [not(exists(2))] 0; A 4 U8 0 6,2 - anti [=(c4,c0)] [] 0 1 / scan 0 0 | scan 1 1 | hash 7 | cut 5: 0 => accepted ;2,
SELECT d.id FROM dept d WHERE NOT EXISTS (SELECT * FROM emp e WHERE e.dept = d.id) => F get 0; F get 1; F select [=(c4,c0)] 1; F keep 3,4,5,6 2; F select [not(exists(3))] 0; F keep 0 4; A 4 U6 3 4,3 - select [not(exists(2))] 0; A 4 U8 0 6,2 - semi [=(c4,c0)] 0 1 / scan 0 0 | scan 1 1 | hash 7 | cut 5: 0 => K03 line 7
SELECT d.id FROM dept d WHERE NOT EXISTS (SELECT * FROM emp e WHERE e.dept = d.id) => F get 0; F get 1; F select [=(c4,c0)] 1; F keep 3,4,5,6 2; F select [not(exists(3))] 0; F keep 0 4; A 4 U6 3 4,3 - select [not(exists(2))] 0; A 4 U8 0 6,2 - anti [] [=(c4,c0)] 0 1 / scan 0 0 | scan 1 1 | hash 7 | cut 5: 0 => K03 line 7
SELECT d.id FROM dept d WHERE NOT EXISTS (SELECT * FROM emp e WHERE e.dept = d.id) => F get 0; F get 1; F select [=(c4,c0)] 1; F keep 3,4,5,6 2; F select [not(exists(3))] 0; F keep 0 4; A 4 U6 3 4,3 - select [not(exists(2))] 0; A 4 U8 1 6,2 - anti [=(c4,c0)] [] 0 1 / scan 0 0 | scan 1 1 | hash 7 | cut 5: 0 => K02 line 7
SELECT d.id FROM dept d WHERE NOT EXISTS (SELECT * FROM emp e WHERE e.dept = d.id) => F get 0; F get 1; F select [=(c4,c0)] 1; F keep 3,4,5,6 2; F select [not(exists(3))] 0; F keep 0 4; A 4 U6 3 4,3 - select [not(exists(2))] 0; A 4 U8 0 6,3 - anti [=(c4,c0)] [] 0 1 / scan 0 0 | scan 1 1 | hash 7 | cut 5: 0 => K02 line 7
SELECT d.id FROM dept d WHERE NOT EXISTS (SELECT * FROM emp e WHERE e.dept = d.id) => F get 0; F get 1; F select [=(c4,c0)] 1; F keep 3,4,5,6 2; F select [not(exists(3))] 0; F keep 0 4; A 4 U6 3 4,3 - select [not(exists(2))] 0; A 4 U7 0 6,2 - semi [=(c4,c0)] 0 1 / scan 0 0 | scan 1 1 | hash 7 | cut 5: 0 => K02 line 7
SELECT d.id FROM dept d WHERE NOT EXISTS (SELECT * FROM emp e WHERE e.dept = d.id) => F get 0; F get 1; F select [=(c4,c0)] 1; F keep 3,4,5,6 2; F select [not(exists(3))] 0; F keep 0 4; A 4 U6 3 4,3 - select [not(exists(2))] 0; A 4 U8 0 7,2 - anti [=(c4,c0)] [] 0 1 / scan 0 0 | scan 1 1 | hash 7 | cut 5: 0 => K01 line 7
SELECT d.id FROM dept d WHERE NOT EXISTS (SELECT * FROM emp e WHERE e.dept = d.id) => F get 0; F get 1; F select [=(c4,c0)] 1; F keep 3,4,5,6 2; F select [not(exists(3))] 0; F keep 0 4; A 4 U6 3 4,3 - select [not(exists(2))] 0; A 5 U8 0 6,2 - anti [=(c4,c0)] [] 0 1 / scan 0 0 | scan 1 1 | hash 7 | cut 5: 0 => K04 line 7
SELECT d.id FROM dept d WHERE NOT EXISTS (SELECT * FROM emp e WHERE e.dept = d.id) => F get 0; F get 1; F select [=(c4,c0)] 1; F keep 3,4,5,6 2; F select [not(exists(3))] 0; F keep 0 4; A 4 U6 2 4,3 - select [not(exists(2))] 0 / scan 0 0 | scan 1 1 | filter 2 | subqueries 6 1 | cut 5: 0 => K02 line 6
SELECT d.id FROM dept d WHERE NOT EXISTS (SELECT * FROM emp e WHERE e.dept = d.id) => F get 0; F get 1; F select [=(c4,c0)] 1; F keep 3,4,5,6 2; F select [not(exists(3))] 0; F keep 0 4; A 4 U6 3 4,3 - select [not(exists(2))] 0 / scan 0 0 | scan 1 1 | filter 2 | subqueries 6 1 | cut 5: 0 => accepted ;2,
SELECT d.id FROM dept d WHERE NOT EXISTS (SELECT * FROM emp e WHERE e.dept = d.id) => F get 0; F get 1; F select [=(c4,c0)] 1; F keep 3,4,5,6 2; F select [not(exists(3))] 0; F keep 0 4; A 4 U8 0 4,2 - anti [=(c4,c0)] [] 0 1 / scan 0 0 | scan 1 1 | hash 6 | cut 5: 0 => K02 line 6
SELECT d.id FROM dept d WHERE NOT EXISTS (SELECT * FROM emp e WHERE e.dept = d.id) => F get 0; F get 1; F select [=(c4,c0)] 1; F keep 3,4,5,6 2; F select [not(exists(3))] 0; F keep 0 4; A 4 U2 0 4 - anti [] [] 0 3 / scan 0 0 | scan 1 1 | filter 2 | cut 3: 3 4 5 6 | anti 6 | cut 5: 0 => K05 U2 line 6
SELECT d.id FROM dept d WHERE NOT EXISTS (SELECT * FROM emp e WHERE e.dept = 2) => F get 0; F get 1; F select [=(c4,i2)] 1; F keep 3,4,5,6 2; F select [not(exists(3))] 0; F keep 0 4; A 4 U2 0 4 - anti [] [] 0 3 / scan 0 0 | scan 1 1 | filter 2 | cut 3: 3 4 5 6 | anti 6 | cut 5: 0 => accepted ;1,;2,;3,
SELECT d.id FROM dept d WHERE NOT EXISTS (SELECT * FROM emp e WHERE EXISTS (SELECT * FROM dept x)) => F get 0; F get 1; F get 2; F keep 7,8,9 2; F select [exists(3)] 1; F keep 3,4,5,6 4; F select [not(exists(5))] 0; F keep 0 6; A 6 U6 5 6,5 - select [not(exists(4))] 0; A 6 U8 0 8,4 - anti [] [] 0 1 / scan 0 0 | scan 1 1 | hash 9 | cut 7: 0 => K05 U8 line 9";

/// The same with EXISTS, and of a subquery that reads nothing.
const EXISTS: &str =
    "SELECT d.id FROM dept d WHERE EXISTS (SELECT * FROM emp e WHERE e.dept = d.id) => F get 0; F get 1; F select [=(c4,c0)] 1; F keep 3,4,5,6 2; F select [exists(3)] 0; F keep 0 4; A 4 U6 3 4,3 - select [exists(2)] 0; A 4 U7 0 6,2 - semi [=(c4,c0)] 0 1 / scan 0 0 | scan 1 1 | hash 7 | cut 5: 0 => accepted ;1,;3,
SELECT d.id FROM dept d WHERE EXISTS (SELECT * FROM emp e WHERE e.dept = d.id) => F get 0; F get 1; F select [=(c4,c0)] 1; F keep 3,4,5,6 2; F select [exists(3)] 0; F keep 0 4; A 4 U6 3 4,3 - select [exists(2)] 0; A 4 U7 0 6,2 - semi [] 0 1 / scan 0 0 | scan 1 1 | hash 7 | cut 5: 0 => K03 line 7
SELECT d.id FROM dept d WHERE EXISTS (SELECT * FROM emp e WHERE e.dept = d.id) => F get 0; F get 1; F select [=(c4,c0)] 1; F keep 3,4,5,6 2; F select [exists(3)] 0; F keep 0 4; A 4 U6 3 4,3 - select [exists(2)] 0; A 4 U7 0 6 - semi [=(c4,c0)] 0 1 / scan 0 0 | scan 1 1 | hash 7 | cut 5: 0 => K02 line 7
SELECT d.id FROM dept d WHERE EXISTS (SELECT * FROM emp e WHERE EXISTS (SELECT * FROM dept x)) => F get 0; F get 1; F get 2; F keep 7,8,9 2; F select [exists(3)] 1; F keep 3,4,5,6 4; F select [exists(5)] 0; F keep 0 6; A 6 U6 5 6,5 - select [exists(4)] 0; A 6 U7 0 8,4 - semi [] 0 1 / scan 0 0 | scan 1 1 | hash 9 | cut 7: 0 => K05 U7 line 9
SELECT d.id FROM dept d WHERE EXISTS (SELECT * FROM emp e WHERE e.dept = d.id) => F get 0; F get 1; F select [=(c4,c0)] 1; F keep 3,4,5,6 2; F select [exists(3)] 0; F keep 0 4; A 4 U1 0 4 - semi [] 0 3 / scan 0 0 | scan 1 1 | filter 2 | cut 3: 3 4 5 6 | semi 6 | cut 5: 0 => K05 U1 line 6
SELECT d.id FROM dept d WHERE EXISTS (SELECT e.id FROM emp e) => F get 0; F get 1; F keep 3 1; F select [exists(2)] 0; F keep 0 3; A 3 U1 0 3 - semi [] 0 2 / scan 0 0 | scan 1 1 | cut 2: 3 | semi 5 | cut 4: 0 => accepted ;1,;2,;3,
SELECT d.id FROM dept d WHERE EXISTS (SELECT e.id FROM emp e) => F get 0; F get 1; F keep 3 1; F select [exists(2)] 0; F keep 0 3; A 3 U2 0 3 - semi [] 0 2 / scan 0 0 | scan 1 1 | cut 2: 3 | semi 5 | cut 4: 0 => K02 line 5
SELECT d.id FROM dept d WHERE EXISTS (SELECT e.id FROM emp e) => F get 0; F get 1; F keep 3 1; F select [exists(2)] 0; F keep 0 3; A 3 U1 0 3 - semi [] 0 1 / scan 0 0 | scan 1 1 | cut 2: 3 | semi 5 | cut 4: 0 => K03 line 5";

/// IN, which asks for an equality besides. A projection goes that keeps the column of the IN; a column of outside is none of it.
const MEMBERS_OF: &str =
    "SELECT d.id FROM dept d WHERE d.boss IN (SELECT e.id FROM emp e) => F get 0; F get 1; F keep 3 1; F select [in(c2,2,c3)] 0; F keep 0 3; A 3 U3 0 3 - semi [=(c2,c3)] 0 2 / scan 0 0 | scan 1 1 | cut 2: 3 | hash 5 | cut 4: 0 => accepted ;1,;3,
SELECT d.id FROM dept d WHERE d.boss IN (SELECT e.id FROM emp e) => F get 0; F get 1; F keep 3 1; F select [in(c2,2,c3)] 0; F keep 0 3; A 3 U3 0 3 - semi [] 0 2 / scan 0 0 | scan 1 1 | cut 2: 3 | hash 5 | cut 4: 0 => K03 line 5
SELECT d.id FROM dept d WHERE d.boss IN (SELECT e.id FROM emp e) => F get 0; F get 1; F keep 3 1; F select [in(c2,2,c3)] 0; F keep 0 3; A 3 U1 0 3 - semi [=(c2,c3)] 0 2 / scan 0 0 | scan 1 1 | cut 2: 3 | hash 5 | cut 4: 0 => K02 line 5
SELECT d.id FROM dept d WHERE d.boss IN (SELECT e.id FROM emp e WHERE e.dept = d.id) => F get 0; F get 1; F select [=(c4,c0)] 1; F keep 3 2; F select [in(c2,3,c3)] 0; F keep 0 4; A 4 U3 0 4 - semi [=(c2,c3)] 0 3 / scan 0 0 | scan 1 1 | filter 2 | cut 3: 3 | hash 6 | cut 5: 0 => K05 U3 line 6
SELECT d.id FROM dept d WHERE d.boss IN (SELECT e.id FROM emp e WHERE e.dept = d.id) => F get 0; F get 1; F select [=(c4,c0)] 1; F keep 3 2; F select [in(c2,3,c3)] 0; F keep 0 4; A 4 U6 3 4,3 - select [in(c2,2,c3)] 0; A 4 U9 0 6,2 - semi [=(c2,c3);=(c4,c0)] 0 1 / scan 0 0 | scan 1 1 | hash 7 | cut 5: 0 => accepted ;1,;3,
SELECT d.id FROM dept d WHERE d.boss IN (SELECT e.id FROM emp e WHERE e.dept = d.id) => F get 0; F get 1; F select [=(c4,c0)] 1; F keep 3 2; F select [in(c2,3,c3)] 0; F keep 0 4; A 4 U6 3 4,3 - select [in(c2,2,c3)] 0; A 4 U9 0 6,2 - semi [=(c4,c0)] 0 1 / scan 0 0 | scan 1 1 | hash 7 | cut 5: 0 => K03 line 7
SELECT d.id FROM dept d WHERE d.boss IN (SELECT e.id FROM emp e WHERE e.dept = d.id) => F get 0; F get 1; F select [=(c4,c0)] 1; F keep 3 2; F select [in(c2,3,c3)] 0; F keep 0 4; A 4 U6 3 4,3 - select [in(c2,2,c3)] 0; A 4 U9 0 6,3 - semi [=(c2,c3);=(c4,c0)] 0 1 / scan 0 0 | scan 1 1 | hash 7 | cut 5: 0 => K02 line 7
SELECT d.id FROM dept d WHERE 10 IN (SELECT d.boss FROM emp e) => F get 0; F get 1; F keep - 1; F select [in(i10,2,c2)] 0; F keep 0 3 / scan 0 0 | scan 1 1 | cut 2: | subqueries 3 1 | cut 4: 0 => accepted ;1,
SELECT d.id FROM dept d WHERE 10 IN (SELECT d.boss FROM emp e) => F get 0; F get 1; F keep - 1; F select [in(i10,2,c2)] 0; F keep 0 3; A 3 U6 2 3,2 - select [in(i10,1,c2)] 0 / scan 0 0 | scan 1 1 | subqueries 5 1 | cut 4: 0 => K05 U6 line 5
SELECT d.id FROM dept d WHERE 10 IN (SELECT d.boss FROM emp e) => F get 0; F get 1; F keep - 1; F select [in(i10,2,c2)] 0; F keep 0 3; A 3 U3 0 3 - semi [=(i10,c2)] 0 2 / scan 0 0 | scan 1 1 | cut 2: | hash 5 | cut 4: 0 => K05 U3 line 5
SELECT d.id FROM dept d, emp e => F get 0; F get 1; F join [] 0 1; F keep 0 2; F keep 3 1; F select [in(c2,4,c4)] 0; A 5 U6 4 5,4 - select [in(c2,1,c4)] 0 / scan 0 0 | scan 1 1 | loop 2 | cut 3: 0 => K05 U6 line 6
SELECT d.id FROM dept d, emp e => F get 0; F get 1; F join [] 0 1; F keep 0 2; F keep 3 1; F select [exists(4)] 0; A 5 U6 4 5,4 - select [exists(1)] 0 / scan 0 0 | scan 1 1 | loop 2 | cut 3: 0 => accepted ;1,;1,;1,;1,;2,;2,;2,;2,;3,;3,;3,;3,";

/// NOT IN, whose equality is null-aware: among an employee's departments is a Null, so no department is surely none of them. It is an ordinary one where both
/// columns are known to have no Null.
const NO_MEMBERS_OF: &str =
    "SELECT d.id FROM dept d WHERE d.id NOT IN (SELECT e.dept FROM emp e) => F get 0; F get 1; F keep 4 1; F select [not(in(c0,2,c4))] 0; F keep 0 3; A 3 U4 0 3 - anti [] [=(c0,c4)] 0 2 / scan 0 0 | scan 1 1 | cut 2: 4 | anti 5 | cut 4: 0 => accepted
SELECT d.id FROM dept d WHERE d.id NOT IN (SELECT e.dept FROM emp e) => F get 0; F get 1; F keep 4 1; F select [not(in(c0,2,c4))] 0; F keep 0 3; A 3 U4 0 3 - anti [=(c0,c4)] [] 0 2 / scan 0 0 | scan 1 1 | cut 2: 4 | anti 5 | cut 4: 0 => K03 line 5
SELECT d.id FROM dept d WHERE d.id NOT IN (SELECT e.dept FROM emp e) => F get 0; F get 1; F keep 4 1; F select [not(in(c0,2,c4))] 0; F keep 0 3; A 3 U2 0 3 - anti [] [=(c0,c4)] 0 2 / scan 0 0 | scan 1 1 | cut 2: 4 | anti 5 | cut 4: 0 => K02 line 5
SELECT d.id FROM dept d WHERE d.boss NOT IN (SELECT e.id FROM emp e WHERE e.dept = d.id) => F get 0; F get 1; F select [=(c4,c0)] 1; F keep 3 2; F select [not(in(c2,3,c3))] 0; F keep 0 4; A 4 U4 0 4 - anti [] [=(c2,c3)] 0 3 / scan 0 0 | scan 1 1 | filter 2 | cut 3: 3 | anti 6 | cut 5: 0 => K05 U4 line 6
SELECT d.id FROM dept d WHERE d.boss NOT IN (SELECT e.id FROM emp e WHERE e.dept = d.id) => F get 0; F get 1; F select [=(c4,c0)] 1; F keep 3 2; F select [not(in(c2,3,c3))] 0; F keep 0 4; A 4 U6 3 4,3 - select [not(in(c2,2,c3))] 0; A 4 U10 0 6,2 - anti [=(c4,c0)] [=(c2,c3)] 0 1 / scan 0 0 | scan 1 1 | hash 7 | cut 5: 0 => accepted ;2,
SELECT d.id FROM dept d WHERE d.boss NOT IN (SELECT e.id FROM emp e WHERE e.dept = d.id) => F get 0; F get 1; F select [=(c4,c0)] 1; F keep 3 2; F select [not(in(c2,3,c3))] 0; F keep 0 4; A 4 U6 3 4,3 - select [not(in(c2,2,c3))] 0; A 4 U10 0 6,2 - anti [=(c2,c3);=(c4,c0)] [] 0 1 / scan 0 0 | scan 1 1 | hash 7 | cut 5: 0 => K03 line 7
SELECT d.id FROM dept d WHERE d.boss NOT IN (SELECT e.id FROM emp e WHERE e.dept = d.id) => F get 0; F get 1; F select [=(c4,c0)] 1; F keep 3 2; F select [not(in(c2,3,c3))] 0; F keep 0 4; A 4 U6 3 4,3 - select [not(in(c2,2,c3))] 0; A 4 U9 0 6,2 - anti [=(c4,c0)] [=(c2,c3)] 0 1 / scan 0 0 | scan 1 1 | hash 7 | cut 5: 0 => K02 line 7
SELECT d.id FROM dept d WHERE d.id NOT IN (SELECT e.id FROM emp e) => F get 0; F get 1; F keep 3 1; F select [not(in(c0,2,c3))] 0; F keep 0 3; A 3 U4 0 3 - anti [] [=(c0,c3)] 0 2; L 0 0 notnull 0; L 1 1 notnull 3; L 2 2 notnull 3; A 3 U5 0 5 - anti [=(c0,c3)] [] 0 2 / scan 0 0 | scan 1 1 | cut 2: 3 | hash 9 | cut 4: 0 => accepted ;1,;2,;3,
SELECT d.id FROM dept d WHERE d.id NOT IN (SELECT e.id FROM emp e) => F get 0; F get 1; F keep 3 1; F select [not(in(c0,2,c3))] 0; F keep 0 3; A 3 U4 0 3 - anti [] [=(c0,c3)] 0 2; L 0 0 notnull 0; L 1 1 notnull 3; L 2 2 notnull 3; A 3 U5 0 5 - anti [] [] 0 2 / scan 0 0 | scan 1 1 | cut 2: 3 | anti 9 | cut 4: 0 => K03 line 9
SELECT d.id FROM dept d WHERE d.id NOT IN (SELECT e.id FROM emp e) => F get 0; F get 1; F keep 3 1; F select [not(in(c0,2,c3))] 0; F keep 0 3; A 3 U4 0 3 - anti [] [=(c0,c3)] 0 2; L 1 1 notnull 3; L 2 2 notnull 3; A 3 U5 0 5 - anti [=(c0,c3)] [] 0 2 / scan 0 0 | scan 1 1 | cut 2: 3 | hash 8 | cut 4: 0 => K02 line 8
SELECT d.id FROM dept d WHERE d.id NOT IN (SELECT e.dept FROM emp e) => F get 0; F get 1; F keep 4 1; F select [not(in(c0,2,c4))] 0; F keep 0 3; A 3 U4 0 3 - anti [] [=(c0,c4)] 0 2; L 0 0 notnull 0; A 3 U5 0 5 - anti [=(c0,c4)] [] 0 2 / scan 0 0 | scan 1 1 | cut 2: 4 | hash 7 | cut 4: 0 => K02 line 7";

/// A semijoin is made before a join whose right side it doesn't read; by a key of its right side it is a join.
const SEMIJOINS: &str =
    "SELECT d.id, e.id FROM dept d JOIN emp e ON e.dept = d.id WHERE EXISTS (SELECT * FROM emp x WHERE x.id = d.boss) => F get 0; F get 1; F join [=(c4,c0)] 0 1; F get 2; F select [=(c7,c2)] 3; F keep 7,8,9,10 4; F select [exists(5)] 2; F keep 0,3 6; A 6 U6 5 6,5 - select [exists(4)] 2; A 6 U7 0 8,4 - semi [=(c7,c2)] 2 3; F semi [=(c7,c2)] 0 3; A 6 U11 0 9,2 10 join [=(c4,c0)] 10 1 / scan 0 0 | scan 3 2 | hash 10 | scan 1 1 | hash 11 | cut 7: 0 3 => accepted ;1,10,;1,11,;3,12,
SELECT d.id, e.id FROM dept d JOIN emp e ON e.dept = d.id WHERE EXISTS (SELECT * FROM emp x WHERE x.id = d.boss) => F get 0; F get 1; F join [=(c4,c0)] 0 1; F get 2; F select [=(c7,c2)] 3; F keep 7,8,9,10 4; F select [exists(5)] 2; F keep 0,3 6; A 6 U6 5 6,5 - select [exists(4)] 2; A 6 U7 0 8,4 - semi [=(c7,c2)] 2 3; F semi [=(c7,c2)] 0 3; A 6 U11 0 9,2 10 join [] 10 1 / scan 0 0 | scan 3 2 | hash 10 | scan 1 1 | hash 11 | cut 7: 0 3 => K03 line 11
SELECT d.id, e.id FROM dept d JOIN emp e ON e.dept = d.id WHERE EXISTS (SELECT * FROM emp x WHERE x.id = d.boss) => F get 0; F get 1; F join [=(c4,c0)] 0 1; F get 2; F select [=(c7,c2)] 3; F keep 7,8,9,10 4; F select [exists(5)] 2; F keep 0,3 6; A 6 U6 5 6,5 - select [exists(4)] 2; A 6 U7 0 8,4 - semi [=(c7,c2)] 2 3; F semi [=(c7,c2)] 0 3; A 6 U11 0 8,2 10 join [=(c4,c0)] 10 1 / scan 0 0 | scan 3 2 | hash 10 | scan 1 1 | hash 11 | cut 7: 0 3 => K02 line 11
SELECT d.id, e.id FROM dept d JOIN emp e ON e.dept = d.id WHERE EXISTS (SELECT * FROM emp x WHERE x.id = e.badge) => F get 0; F get 1; F join [=(c4,c0)] 0 1; F get 2; F select [=(c7,c6)] 3; F keep 7,8,9,10 4; F select [exists(5)] 2; F keep 0,3 6; A 6 U6 5 6,5 - select [exists(4)] 2; A 6 U7 0 8,4 - semi [=(c7,c6)] 2 3; F semi [=(c7,c6)] 0 3; A 6 U11 0 9,2 10 join [=(c4,c0)] 10 1 / scan 0 0 | scan 3 2 | hash 10 | scan 1 1 | hash 11 | cut 7: 0 3 => K05 U11 line 11
SELECT d.id FROM dept d WHERE EXISTS (SELECT * FROM emp x WHERE x.id = d.boss) => F get 0; F get 1; F select [=(c3,c2)] 1; F keep 3,4,5,6 2; F select [exists(3)] 0; F keep 0 4; A 4 U6 3 4,3 - select [exists(2)] 0; A 4 U7 0 6,2 - semi [=(c3,c2)] 0 1; L 1 1 weak 3; F join [=(c3,c2)] 0 1; A 4 U12 0 7 9 keep 0,1,2 9 / scan 0 0 | scan 1 1 | hash 9 | cut 10: 0 1 2 | cut 5: 0 => accepted ;1,;3,
SELECT d.id FROM dept d WHERE EXISTS (SELECT * FROM emp x WHERE x.id = d.boss) => F get 0; F get 1; F select [=(c3,c2)] 1; F keep 3,4,5,6 2; F select [exists(3)] 0; F keep 0 4; A 4 U6 3 4,3 - select [exists(2)] 0; A 4 U7 0 6,2 - semi [=(c3,c2)] 0 1; L 1 1 weak 3; F join [=(c3,c2)] 0 1; A 4 U12 0 7 9 keep 0,1,2 0 / scan 0 0 | scan 1 1 | hash 9 | cut 10: 0 1 2 | cut 5: 0 => K03 line 10
SELECT d.id FROM dept d WHERE EXISTS (SELECT * FROM emp x WHERE x.id = d.boss) => F get 0; F get 1; F select [=(c3,c2)] 1; F keep 3,4,5,6 2; F select [exists(3)] 0; F keep 0 4; A 4 U6 3 4,3 - select [exists(2)] 0; A 4 U7 0 6,2 - semi [=(c3,c2)] 0 1; L 1 1 weak 3; F join [=(c3,c2)] 0 1; A 4 U12 0 6 9 keep 0,1,2 9 / scan 0 0 | scan 1 1 | hash 9 | cut 10: 0 1 2 | cut 5: 0 => K02 line 10
SELECT d.id FROM dept d WHERE EXISTS (SELECT * FROM emp x WHERE x.id = d.boss) => F get 0; F get 1; F select [=(c3,c2)] 1; F keep 3,4,5,6 2; F select [exists(3)] 0; F keep 0 4; A 4 U6 3 4,3 - select [exists(2)] 0; A 4 U7 0 6,2 - semi [=(c3,c2)] 0 1; F join [=(c3,c2)] 0 1; A 4 U12 0 7 8 keep 0,1,2 8 / scan 0 0 | scan 1 1 | hash 8 | cut 9: 0 1 2 | cut 5: 0 => K05 U12 line 9
SELECT d.id FROM dept d WHERE EXISTS (SELECT * FROM emp e WHERE e.dept = d.id) => F get 0; F get 1; F select [=(c4,c0)] 1; F keep 3,4,5,6 2; F select [exists(3)] 0; F keep 0 4; A 4 U6 3 4,3 - select [exists(2)] 0; A 4 U7 0 6,2 - semi [=(c4,c0)] 0 1; L 1 1 weak 3; F join [=(c4,c0)] 0 1; A 4 U12 0 7 9 keep 0,1,2 9 / scan 0 0 | scan 1 1 | hash 9 | cut 10: 0 1 2 | cut 5: 0 => K05 U12 line 10";

#[test]
fn derivations_are_judged(rt: HostRuntime) {
    let company = Tables {
        schema: COMPANY,
        first: DEPT,
        second: EMP,
    };
    assert_eq!(rt;
        query_differences(
            rt.alloc(),
            company,
            &[FACTS, MEMBERS, OUTER_JOINS, CHANGED_PLACES, ELIMINATED],
            &Derivations
        )
        .as_deref(),
        Ok("")
    );
}

#[test]
fn derivations_of_subqueries_are_judged(rt: HostRuntime) {
    let company = Tables {
        schema: COMPANY,
        first: DEPT,
        second: EMP,
    };
    assert_eq!(rt;
        query_differences(
            rt.alloc(),
            company,
            &[NOT_EXISTS, EXISTS, MEMBERS_OF, NO_MEMBERS_OF, SEMIJOINS],
            &Derivations
        )
        .as_deref(),
        Ok("")
    );
}
