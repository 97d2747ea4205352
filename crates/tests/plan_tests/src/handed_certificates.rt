//! Certificates that are handed in with a query over the tables of `examples/hr`. Each line has the query's text, the certificate's with `/`
//! for a line's end, and whether it is accepted and what it answers, with `;` between the lines.

use crate::commands::{Files, Way, push_acceptance, push_answer};
use fixtures::{COMPANY, DEPT, EMP, Reporting, differences, with_line_ends};
use std::alloc::{AllocError, Global};

/// Reports what `check` and `run` say of a query and a certificate.
struct HandedIn;

impl Reporting for HandedIn {
    fn report(&self, alloc: Global, text: &str, reported: &mut String) -> Result<(), AllocError> {
        let (query, certificate) = text.split_once(" => ").unwrap_or((text, ""));
        let certificate = with_line_ends(alloc, certificate)?;
        let files = Files {
            schema: COMPANY.as_bytes(),
            text: query.as_bytes(),
            dept: DEPT.as_bytes(),
            emp: EMP.as_bytes(),
        };
        push_acceptance(alloc, reported, files, certificate.as_slice())?;
        reported.push_str(";")?;
        push_answer(
            alloc,
            reported,
            Way::Certificate(certificate.as_slice()),
            files,
        )
    }
}

#[test]
fn certificates_are_checked_and_run(rt: HostRuntime) {
    const CASES: &str =
        r"SELECT DISTINCT badge FROM emp => SQLPLAN 1/lines 3/F get 0/F keep 3 0/F distinct 1/plan 3/hdistinct 2/cut 1 3/scan 0 0/end/ => accepted;badge;7;\N;9
SELECT DISTINCT badge FROM emp => SQLPLAN 1/lines 4/F get 0/F keep 3 0/F distinct 1/S 2 1 D1 0 2 -/plan 2/cut 1 3/scan 0 0/end/ => refused K05 D1 line 3;refused K05 D1 line 3
SELECT DISTINCT badge FROM emp => SQLPLAN 1/lines 3/F get => refused C04 line 3;refused C04 line 3
SELECT DISTINCT badge FROM emp => SQLPLAN 1/lines 03/F get 0/F keep 3 0/F distinct 1/plan 3/hdistinct 2/cut 1 3/scan 0 0/end/ => refused C02 line 2;refused C02 line 2
SELECT DISTINCT badge FROM emp => SQLPLAN 1/lines 3/F get 0/F keep 3 5/F distinct 1/plan 3/hdistinct 2/cut 1 3/scan 0 0/end/ => refused K01 line 1;refused K01 line 1
SELECT DISTINCT badge FROM emp => SQLPLAN 1/lines 3/F get 0/F keep 2,3 0/F distinct 1/plan 3/hdistinct 2/cut 1 3/scan 0 0/end/ => refused K03 line 1;refused K03 line 1
SELECT DISTINCT badge FROM emp => SQLPLAN 1/lines 3/F get 0/F keep 3 0/F distinct 1/plan 3/sdistinct 2/cut 1 3/scan 0 0/end/ => refused K07 line 3;refused K07 line 3
SELECT DISTINCT badge FROM emp => SQLPLAN 1/lines 3/F get 0/F keep 3 0/F distinct 1/plan 3/hdistinct 2/cut 1 2/scan 0 0/end/ => refused K06 line 4;refused K06 line 4
SELECT DISTINCT badge FROM emp ORDER BY badge => SQLPLAN 1/lines 3/F get 0/F keep 3 0/F distinct 1/plan 3/hdistinct 2/cut 1 3/scan 0 0/end/ => refused K08 line 3;refused K08 line 3
SELECT DISTINCT badge FROM emp ORDER BY badge => SQLPLAN 1/lines 3/F get 0/F keep 3 0/F distinct 1/plan 4/sort 3a/hdistinct 2/cut 1 3/scan 0 0/end/ => accepted;badge;\N;7;9
SELECT DISTINCT id FROM emp => SQLPLAN 1/lines 8/F get 0/F keep 0 0/F distinct 1/L 0 0 notnull 0/L 0 0 weak 0/L 0 0 strong 0/L 1 1 strong 0/S 2 1 D1 0 2 -/plan 2/cut 1 0/scan 0 0/end/ => accepted;id;10;11;12;13
SELECT DISTINCT id FROM emp => SQLPLAN 1/lines 7/F get 0/F keep 0 0/F distinct 1/L 0 0 notnull 0/L 0 0 weak 0/L 1 1 strong 0/S 2 1 D1 0 2 -/plan 2/cut 1 0/scan 0 0/end/ => refused K05 L line 5;refused K05 L line 5
SELECT d.id FROM dept d WHERE NOT EXISTS (SELECT * FROM emp e WHERE e.dept = d.id) => SQLPLAN 1/lines 8/F get 0/F get 1/F select [=(c4,c0)] 1/F keep 3,4,5,6 2/F select [not(exists(3))] 0/F keep 0 4/A 4 U6 3 4,3 - select [not(exists(2))] 0/A 4 U8 0 6,2 - anti [=(c4,c0)] [] 0 1/plan 4/cut 5 0/hash 7 anti [=(c4,c0)] []/scan 0 0/scan 1 1/end/ => accepted;id;2
SELECT d.id FROM dept d WHERE NOT EXISTS (SELECT * FROM emp e WHERE e.dept = d.id) => SQLPLAN 1/lines 8/F get 0/F get 1/F select [=(c4,c0)] 1/F keep 3,4,5,6 2/F select [not(exists(3))] 0/F keep 0 4/A 4 U6 3 4,3 - select [not(exists(2))] 0/A 4 U8 1 6,2 - anti [=(c4,c0)] [] 0 1/plan 4/cut 5 0/hash 7 anti [=(c4,c0)] []/scan 0 0/scan 1 1/end/ => refused K02 line 7;refused K02 line 7
SELECT d.id FROM dept d WHERE NOT EXISTS (SELECT * FROM emp e WHERE e.dept = d.id) => SQLPLAN 1/lines 8/F get 0/F get 1/F select [=(c4,c0)] 1/F keep 3,4,5,6 2/F select [not(exists(3))] 0/F keep 0 4/A 4 U6 3 4,3 - select [not(exists(2))] 0/A 4 U8 0 6,2 - anti [=(c4,c0)] 0 1/plan 4/cut 5 0/hash 7 anti [=(c4,c0)] []/scan 0 0/scan 1 1/end/ => refused C02 line 10;refused C02 line 10
SELECT d.id FROM dept d WHERE NOT EXISTS (SELECT * FROM emp e WHERE e.dept = d.id) => SQLPLAN 1/lines 7/F get 0/F get 1/F select [=(c4,c0)] 1/F keep 3,4,5,6 2/F select [not(exists(3))] 0/F keep 0 4/A 4 U2 0 4 - anti [] [] 0 3/plan 6/cut 5 0/loop 6 anti [] []/scan 0 0/cut 3 3,4,5,6/filter 2 [=(c4,c0)]/scan 1 1/end/ => refused K05 U2 line 6;refused K05 U2 line 6
SELECT d.id FROM dept d WHERE NOT EXISTS (SELECT * FROM emp e WHERE e.dept = d.id) => SQLPLAN 1/lines 7/F get 0/F get 1/F select [=(c4,c0)] 1/F keep 3,4,5,6 2/F select [not(exists(3))] 0/F keep 0 4/A 4 U13 0 4 - anti [] [] 0 3/plan 2/cut 5 0/scan 0 0/end/ => refused C02 line 9;refused C02 line 9
SELECT DISTINCT badg FROM emp => SQLPLAN 3 => refused B02 at 16;refused B02 at 16";
    assert_eq!(rt;
        differences(rt.alloc(), &[CASES], &HandedIn).as_deref(),
        Ok("")
    );
}
