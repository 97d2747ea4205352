//! What is estimated of certificates' plans over the tables of `examples/hr`, and how the plans are explained. Each line has a query's
//! text, that of a certificate whose lines are over the query's table instances, with `/` for a line's end, and what is wanted. The
//! statistics are those of the tables: 3 departments, 4 employees, an index of 4 keys.

use algebra::{Aggregation, Expr};
use certificate::Certificate;
use certificate_read::read;
use costs::{Cardinalities, Estimate, Inputs, cost, estimates, node_cost};
use derivation::Line;
use explain::{dot_plan, explain_plan};
use fixtures::{
    COMPANY, DEPT, EMP, QueryReporting, Tables, push_lines, query_differences, with_line_ends,
};
use frame::frame_of;
use logs::Log;
use physical::Plan;
use query::{BoundQuery, Query};
use statistics::Statistics;
use std::alloc::{AllocError, Global};
use std::fmt::Write;
use store::Database;

const TABLES: Tables<'static> = Tables {
    schema: COMPANY,
    first: DEPT,
    second: EMP,
};

/// Of inputs that no case has.
const INPUTS: Inputs = Inputs {
    first: Estimate {
        rows: 7,
        cost: 1000,
    },
    second: Estimate { rows: 5, cost: 100 },
    later: 100,
};

/// The aggregates of the query's frame.
fn own_aggregates(alloc: Global, query: &Query) -> Result<Vec<Aggregation>, AllocError> {
    let frame = frame_of(alloc, query)?;
    let mut own = Vec::new(alloc);
    for expr in frame.as_slice() {
        if let Expr::Group(_, added, _) = expr {
            own.extend_from_slice(added.as_slice())?;
        }
    }
    Ok(own)
}

/// Adds the lines that may stand, up to the first that may not.
fn push_all(alloc: Global, log: &mut Log<'_>, lines: &[Line]) -> Result<(), AllocError> {
    for line in lines {
        let copy = line.copy(alloc)?;
        if log.push(alloc, copy).is_err() {
            return Ok(());
        }
    }
    Ok(())
}

/// What is reported of a plan over a log.
#[derive(Clone, Copy)]
enum What {
    Text,
    Graph,
    Numbers,
}

/// Adds the rows of six classes, 0 of one that isn't there, what the plan costs, the rows and the cost of each node, and what the root would
/// cost over other inputs.
fn push_numbers(
    alloc: Global,
    reported: &mut String,
    statistics: &Statistics,
    log: &Log<'_>,
    plan: &Plan,
) -> Result<(), AllocError> {
    let rows = Cardinalities::of(alloc, statistics, log)?;
    reported.push_str("classes")?;
    for class in 0..6 {
        write!(reported, " {}", rows.rows(class))?;
    }
    write!(
        reported,
        ", cost {}, nodes",
        cost(statistics, log, &rows, plan)
    )?;
    let all = estimates(alloc, statistics, log, &rows, plan)?;
    for estimate in all.as_slice() {
        write!(reported, " {}:{}", estimate.rows, estimate.cost)?;
    }
    let root = node_cost(statistics, log.instances(), &plan.node, 2, INPUTS);
    write!(reported, ", root over others {root}")
}

/// Adds a text of some bytes, with `/` for a line's end.
fn push_text(reported: &mut String, bytes: &[u8]) -> Result<(), AllocError> {
    push_lines(reported, str::from_utf8(bytes).unwrap_or("no text"), "/")
}

fn push_plan(
    alloc: Global,
    reported: &mut String,
    what: What,
    statistics: &Statistics,
    log: &Log<'_>,
    own: &[Aggregation],
    plan: &Plan,
) -> Result<(), AllocError> {
    match what {
        What::Text => {
            let text = explain_plan(alloc, statistics, log, own, &[], plan)?;
            push_text(reported, text.as_slice())
        }
        What::Graph => {
            let text = dot_plan(alloc, statistics, log, own, plan)?;
            push_text(reported, text.as_slice())
        }
        What::Numbers => push_numbers(alloc, reported, statistics, log, plan),
    }
}

/// Reports of a certificate's plan over its lines.
#[derive(Clone, Copy)]
struct OfPlan {
    what: What,
}

impl OfPlan {
    fn push(
        self,
        alloc: Global,
        reported: &mut String,
        statistics: &Statistics,
        query: &Query,
        certificate: &Certificate,
    ) -> Result<(), AllocError> {
        let own = own_aggregates(alloc, query)?;
        let mut log = Log::new(alloc, query.tables.as_slice(), own.as_slice());
        push_all(alloc, &mut log, certificate.lines.as_slice())?;
        push_plan(
            alloc,
            reported,
            self.what,
            statistics,
            &log,
            own.as_slice(),
            &certificate.plan,
        )
    }
}

impl QueryReporting for OfPlan {
    fn report(
        &self,
        alloc: Global,
        database: &Database<'_>,
        query: &BoundQuery,
        text: &str,
        reported: &mut String,
    ) -> Result<(), AllocError> {
        let statistics = Statistics::of(alloc, database, &[])?;
        let text = with_line_ends(alloc, text)?;
        match read(alloc, text.as_slice()) {
            Ok(certificate) => {
                self.push(alloc, reported, &statistics, query.query(), &certificate)
            }
            Err(_) => reported.push_str("no certificate"),
        }
    }
}

#[test]
fn plans_are_explained(rt: HostRuntime) {
    const CASES: &str =
        "SELECT d.id, e.id FROM dept d LEFT JOIN emp e ON e.dept = d.id WHERE e.pay > 0 => SQLPLAN 1/lines 5/F get 0/F get 1/F left [=(c4,c0)] 0 1/F select [>(c5,i0)] 2/F keep 0,3 3/plan 5/cut 4 0,3/filter 3 [>(c5,i0)]/hash 2 left [=(c4,c0)]/scan 0 0/scan 1 1/end/ => cut d.id,e.id rows=2 cost=285/  filter e.pay > 0 rows=2 cost=284/    hash left e.dept = d.id rows=3 cost=281/      scan dept d rows=3 cost=130/      scan emp e rows=4 cost=140/
SELECT d.id FROM dept d, emp e => SQLPLAN 1/lines 4/F get 0/F get 1/F semi [=(c4,c0)] 0 1/F anti [] [=(c4,c0)] 2 1/plan 5/loop 3 anti [] [=(c4,c0)]/hash 2 semi [=(c4,c0)]/scan 0 0/scan 1 1/scan 1 1/end/ => loop anti sure true maybe e.dept = d.id rows=1 cost=561/  hash semi e.dept = d.id rows=2 cost=281/    scan dept d rows=3 cost=130/    scan emp e rows=4 cost=140/  scan emp e rows=4 cost=140/
SELECT d.name, COUNT(*), SUM(e.pay) FROM dept d, emp e GROUP BY d.name => SQLPLAN 1/lines 6/F get 0/F get 1/F join [=(c4,c0)] 0 1/F group 1 7=count,8=sum:5 2/F keep 1,7 3/F distinct 4/plan 6/sort 7d,1a/hdistinct 5/cut 4 1,7/hgroup 3 1 7=count,8=sum:5/iloop 2 1 inner 1 0 [=(c4,c0)]/scan 0 0/end/ => sort COUNT(*) DESC,d.name ASC rows=1 cost=768/  hdistinct rows=1 cost=767/    cut d.name,COUNT(*) rows=1 cost=765/      hgroup d.name COUNT(*),SUM(e.pay) rows=1 cost=764/        iloop inner emp e (e.dept,e.id) e.dept = d.id rows=2 cost=760/          scan dept d rows=3 cost=130/
SELECT d.id FROM dept d, emp e => SQLPLAN 1/lines 8/F get 0/F get 1/F select [=(c4,i1)] 1/F semi [=(c4,c0)] 0 2/F select [exists(2)] 0/F join [=(c4,c0)] 4 2/F group 0 - 5/F distinct 6/plan 7/sdistinct 7/sgroup 6 0 -/merge 5 0 4 [=(c4,c0)]/filtersub 4 [exists(2)] 1/scan 0 0/iscan 2 1 1 0 [=(c4,i1)]/iscan 2 1 1 0 [=(c4,i1)]/end/ => sdistinct rows=1 cost=578/  sgroup d.id - rows=1 cost=577/    merge d.id = e.dept e.dept = d.id rows=1 cost=576/      filtersub EXISTS #2 rows=2 cost=463/        scan dept d rows=3 cost=130/        iscan emp e (e.dept,e.id) e.dept = 1 rows=1 cost=110/      iscan emp e (e.dept,e.id) e.dept = 1 rows=1 cost=110/";
    assert_eq!(rt;
        query_differences(rt.alloc(), TABLES, &[CASES], &OfPlan { what: What::Text }).as_deref(),
        Ok("")
    );
}

#[test]
fn plans_are_drawn(rt: HostRuntime) {
    const CASES: &str =
        r#"SELECT d.id, e.id FROM dept d LEFT JOIN emp e ON e.dept = d.id WHERE e.pay > 0 => SQLPLAN 1/lines 5/F get 0/F get 1/F left [=(c4,c0)] 0 1/F select [>(c5,i0)] 2/F keep 0,3 3/plan 5/cut 4 0,3/filter 3 [>(c5,i0)]/hash 2 left [=(c4,c0)]/scan 0 0/scan 1 1/end/ => digraph plan {/  node [shape=box fontname="sans-serif"];/  n0 [label="cut d.id,e.id rows=2 cost=285"];/  n0 -> n1;/  n1 [label="filter e.pay > 0 rows=2 cost=284"];/  n1 -> n2;/  n2 [label="hash left e.dept = d.id rows=3 cost=281"];/  n2 -> n3;/  n3 [label="scan dept d rows=3 cost=130"];/  n2 -> n4;/  n4 [label="scan emp e rows=4 cost=140"];/}/"#;
    assert_eq!(rt;
        query_differences(rt.alloc(), TABLES, &[CASES], &OfPlan { what: What::Graph }).as_deref(),
        Ok("")
    );
}

#[test]
fn plans_are_estimated(rt: HostRuntime) {
    // In the second case the classes 0 and 2 are the same; the last has a sort, which gives the rows of its input.
    const CASES: &str =
        "SELECT d.id, e.id FROM dept d LEFT JOIN emp e ON e.dept = d.id WHERE e.pay > 0 => SQLPLAN 1/lines 5/F get 0/F get 1/F left [=(c4,c0)] 0 1/F select [>(c5,i0)] 2/F keep 0,3 3/plan 5/cut 4 0,3/filter 3 [>(c5,i0)]/hash 2 left [=(c4,c0)]/scan 0 0/scan 1 1/end/ => classes 3 4 3 2 2 0, cost 285, nodes 2:285 2:284 3:281 3:130 4:140, root over others 1001
SELECT d.id FROM dept d, emp e => SQLPLAN 1/lines 5/F get 0/F get 1/F get 0/G 0 2/F join [] 2 1/plan 3/loop 4 inner []/scan 2 0/scan 1 1/end/ => classes 3 4 3 0 12 0, cost 550, nodes 12:550 3:130 4:140, root over others 1700
SELECT d.id FROM dept d, emp e => SQLPLAN 1/lines 1/F get 0/plan 2/sort 1d/scan 0 0/end/ => classes 3 0 0 0 0 0, cost 136, nodes 3:136 3:130, root over others 1021";
    assert_eq!(rt;
        query_differences(
            rt.alloc(),
            TABLES,
            &[CASES],
            &OfPlan {
                what: What::Numbers
            }
        )
        .as_deref(),
        Ok("")
    );
}
