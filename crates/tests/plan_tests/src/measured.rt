//! What is measured of the plans of queries over the tables of `examples/hr`, behind their answers. Each line is one of `answers.rt`, with the
//! lines of the report behind those of the answer. The clock is put forward by each look at it.

use crate::answers::Answers;
use crate::commands::Way;
use fixtures::differences;
use pipeline::ReportForm;

/// Answers with what was measured of their plans: a join with a filter, a subquery at each row, and groups.
const MEASURED: &str =
    r"SELECT d.id, e.id FROM dept d JOIN emp e ON e.dept = d.id WHERE e.pay > 450 => id,id;1,10;cut d.id,e.id rows=3 cost=281 actual=1 time=1us;  hash inner e.dept = d.id AND e.pay > 450 rows=3 cost=280 actual=1 time=1us;    scan emp e rows=4 cost=140 actual=4 time=1us;    scan dept d rows=3 cost=130 actual=3 time=1us
SELECT d.id FROM dept d WHERE EXISTS (SELECT e.id FROM emp e WHERE e.dept = d.id) OR d.boss = 12 => id;1;3;cut d.id rows=3 cost=566 actual=2 time=1us;  filtersub (EXISTS #2 OR d.boss = 12) rows=3 cost=565 actual=2 time=1us;    scan dept d rows=3 cost=130 actual=3 time=1us;    filter e.dept = d.id rows=2 cost=144;      scan emp e rows=4 cost=140
SELECT dept, COUNT(*) FROM emp GROUP BY dept ORDER BY dept => dept,count;\N,1;1,2;3,1;sort emp.dept ASC rows=1 cost=149 actual=3 time=1us;  hgroup emp.dept COUNT(*) rows=1 cost=148 actual=3 time=1us;    scan emp emp rows=4 cost=140 actual=4 time=1us";

const MEASURED_IN_JSON: &str =
    r#"SELECT d.id FROM dept d WHERE EXISTS (SELECT e.id FROM emp e WHERE e.dept = d.id) OR d.boss = 12 => id;1;3;[;{"depth":0,"node":"cut d.id","estimated_rows":3,"cost":566,"rows":2,"microseconds":1},;{"depth":1,"node":"filtersub (EXISTS #2 OR d.boss = 12)","estimated_rows":3,"cost":565,"rows":2,"microseconds":1},;{"depth":2,"node":"scan dept d","estimated_rows":3,"cost":130,"rows":3,"microseconds":1},;{"depth":2,"node":"filter e.dept = d.id","estimated_rows":2,"cost":144,"rows":null,"microseconds":null},;{"depth":3,"node":"scan emp e","estimated_rows":4,"cost":140,"rows":null,"microseconds":null};]"#;

/// The rows of each node are counted, but for those of a subquery that is asked at each row.
#[test]
fn plans_are_measured(rt: HostRuntime) {
    let text = Answers {
        way: Way::MeasuredPlan(ReportForm::Text),
    };
    assert_eq!(rt;
        differences(rt.alloc(), &[MEASURED], &text).as_deref(),
        Ok("")
    );
    let json = Answers {
        way: Way::MeasuredPlan(ReportForm::Json),
    };
    assert_eq!(rt;
        differences(rt.alloc(), &[MEASURED_IN_JSON], &json).as_deref(),
        Ok("")
    );
}
