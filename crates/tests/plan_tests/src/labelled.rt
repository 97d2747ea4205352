//! Plans with labels that are handed in with a query over the tables of `examples/hr`. Each line has the query's text, the certificate's and the labels' with
//! `/` for a line's end, and whether they are accepted.

use fixtures::{COMPANY, Reporting, differences, with_line_ends};
use pipeline::{check_least, fault_line};
use std::alloc::{AllocError, Global};

/// Reports what `check_least` says of a query and of a text with labels by statistics.
#[derive(Clone, Copy)]
struct HandedIn<'a>(&'a str);

impl Reporting for HandedIn<'_> {
    fn report(&self, alloc: Global, text: &str, reported: &mut String) -> Result<(), AllocError> {
        let (query, labelled) = text.split_once(" => ").unwrap_or((text, ""));
        let labelled = with_line_ends(alloc, labelled)?;
        let outcome = check_least(
            alloc,
            COMPANY.as_bytes(),
            query.as_bytes(),
            self.0.as_bytes(),
            labelled.as_slice(),
        );
        match outcome {
            Ok(()) => reported.push_str("accepted"),
            Err(refusal) => reported.push_str(fault_line(alloc, &refusal, None)?.as_str()),
        }
    }
}

/// Labels are accepted that are what the cheapest plans cost. They aren't where one says more than a plan costs, or less than the plan's own, where one is
/// missing that others are made of, or stands twice, where all say 0, and where the plan is a dearer one with its own cost at its goal. A fault of the
/// certificate comes before, and a fault of the text before that.
#[test]
fn labels_are_checked(rt: HostRuntime) {
    const STATISTICS: &str =
        r#"{"tables":{"dept":{"rows":3,"pages":1,"indexes":[]},"emp":{"rows":4,"pages":1,"indexes":[{"keys":4,"pages":1}]}}}"#;
    const CASES: &str =
        r"SELECT id FROM emp ORDER BY id => SQLPLAN 1/lines 2/F get 0/F keep 0 0/plan 3/sort 0a/cut 1 0/scan 0 0/end/labels 4/1 0a 153/1 - 141/0 0a 152/0 - 140/end/ => accepted
SELECT id FROM emp ORDER BY id => SQLPLAN 1/lines 2/F get 0/F keep 0 0/plan 3/cut 1 0/sort 0a/scan 0 0/end/labels 4/1 0a 153/1 - 141/0 0a 152/0 - 140/end/ => accepted
SELECT id FROM emp ORDER BY id => SQLPLAN 1/lines 2/F get 0/F keep 0 0/plan 3/sort 0a/cut 1 0/scan 0 0/end/labels 4/0 - 140/1 0a 153/1 - 141/0 0a 152/end/ => accepted
SELECT id FROM emp ORDER BY id => SQLPLAN 1/lines 2/F get 0/F keep 0 0/plan 3/sort 0a/cut 1 0/scan 0 0/end/labels 4/1 0a 153/1 - 141/0 0a 153/0 - 140/end/ => refused L01
SELECT id FROM emp ORDER BY id => SQLPLAN 1/lines 2/F get 0/F keep 0 0/plan 3/sort 0a/cut 1 0/scan 0 0/end/labels 4/1 0a 152/1 - 141/0 0a 152/0 - 140/end/ => refused L01
SELECT id FROM emp ORDER BY id => SQLPLAN 1/lines 2/F get 0/F keep 0 0/plan 3/sort 0a/cut 1 0/scan 0 0/end/labels 3/1 0a 153/1 - 141/0 - 140/end/ => refused L01
SELECT id FROM emp ORDER BY id => SQLPLAN 1/lines 2/F get 0/F keep 0 0/plan 3/sort 0a/cut 1 0/scan 0 0/end/labels 0/end/ => refused L01
SELECT id FROM emp ORDER BY id => SQLPLAN 1/lines 2/F get 0/F keep 0 0/plan 3/sort 0a/cut 1 0/scan 0 0/end/labels 5/1 0a 153/1 - 141/0 0a 152/0 - 140/0 - 140/end/ => refused L01
SELECT id FROM emp ORDER BY id => SQLPLAN 1/lines 2/F get 0/F keep 0 0/plan 3/sort 0a/cut 1 0/scan 0 0/end/labels 4/1 0a 0/1 - 0/0 0a 0/0 - 0/end/ => refused L01
SELECT id FROM emp ORDER BY id => SQLPLAN 1/lines 2/F get 0/F keep 0 0/plan 4/sort 0a/cut 1 0/sort 0a/scan 0 0/end/labels 4/1 0a 165/1 - 141/0 0a 152/0 - 140/end/ => refused L01
SELECT id FROM emp ORDER BY id => SQLPLAN 1/lines 2/F get 0/F keep 0 0/plan 2/cut 1 0/scan 0 0/end/labels 4/1 0a 153/1 - 141/0 0a 152/0 - 140/end/ => refused K08 line 2
SELECT id FROM emp ORDER BY id => SQLPLAN 1/lines 2/F get 0/F keep 0 0/plan 3/sort 0a/cut 1 0/scan 0 0/end/labels 4/1 0a 153/1 - 141/0 0a 152/end/ => refused C02 line 14
SELECT id FROM emp ORDER BY id => SQLPLAN 1/lines 2/F get 0/F keep 0 0/plan 3/sort 0a/cut 1 0/scan 0 0/end/ => refused C04 line 10
SELECT nothing FROM emp => SQLPLAN 3 => refused B02 at 7";
    // Of more rows, by which the same plan costs more; and of another schema.
    const OTHERS: &str =
        r#"{"tables":{"dept":{"rows":3,"pages":1,"indexes":[]},"emp":{"rows":5,"pages":1,"indexes":[{"keys":4,"pages":1}]}}}"#;
    const OTHER_CASES: &str =
        r"SELECT id FROM emp ORDER BY id => SQLPLAN 1/lines 2/F get 0/F keep 0 0/plan 3/sort 0a/cut 1 0/scan 0 0/end/labels 4/1 0a 153/1 - 141/0 0a 152/0 - 140/end/ => refused L01";
    const FEWER: &str = r#"{"tables":{"dept":{"rows":3,"pages":1,"indexes":[]}}}"#;
    const FEWER_CASES: &str = r"SELECT id FROM emp ORDER BY id => SQLPLAN 3 => refused N02";
    for (statistics, cases) in [
        (STATISTICS, CASES),
        (OTHERS, OTHER_CASES),
        (FEWER, FEWER_CASES),
    ] {
        assert_eq!(rt;
            differences(rt.alloc(), &[cases], &HandedIn(statistics)).as_deref(),
            Ok("")
        );
    }
}
