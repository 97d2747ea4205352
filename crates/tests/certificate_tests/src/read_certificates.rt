//! Texts that are certificates, and the lines for which others are refused.

use certificate_read::read;
use fixtures::{Reporting, differences, push_number, with_line_ends};
use std::alloc::{AllocError, Global};
use values::Fault;

/// Reports that a text is read, or the code and the line of its first fault.
struct ReadWhole;

impl Reporting for ReadWhole {
    fn report(&self, alloc: Global, text: &str, reported: &mut String) -> Result<(), AllocError> {
        let bytes = with_line_ends(alloc, text)?;
        match read(alloc, bytes.as_slice()) {
            Ok(_) => reported.push_str("read"),
            Err(Fault::Memory) => reported.push_str("memory"),
            Err(Fault::Refused(refusal)) => {
                reported.push_str(refusal.reason.code())?;
                push_number(reported, " ", refusal.line)
            }
        }
    }
}

#[test]
fn certificates_are_read(rt: HostRuntime) {
    const CASES: &str =
        "SQLPLAN 1/lines 3/F get 0/F keep 3 0/F distinct 1/plan 3/hdistinct 2/cut 1 3/scan 0 0/end/ => read
SQLPLAN 1/lines 4/F get 0/F keep 3 0/F distinct 1/S 2 1 D1 0 2 -/plan 2/cut 1 3/scan 0 0/end/ => read
SQLPLAN 1/lines 1/A 4 U6 3 4,3 - select [not(exists(2))] 0/plan 1/scan 0 0/end/ => read
SQLPLAN 1/lines 1/A 4 U13 3 4,3 - select [not(exists(2))] 0/plan 1/scan 0 0/end/ => C02 3
SQLPLAN 1/lines 1/A 4 S5 3 4,3 - select [not(exists(2))] 0/plan 1/scan 0 0/end/ => read
SQLPLAN 1/lines 0/plan 1/scan 0 0/end/ => read
SQLPLAN 1/lines 5/F select [<>(c1,t6f7073);=(c4,c0)] 1/F join [] 0 1/F left [=(c4,c0)] 0 1/F semi [=(c4,c0)] 0 1/F anti [=(c4,c0)] [] 0 1/plan 1/scan 0 0/end/ => read
SQLPLAN 1/lines 4/F group - 7=count,8=max:5 2/G 3 5/L 0 4 notnull 0/L 0 4 strong -/plan 1/scan 0 0/end/ => read
SQLPLAN 1/lines 0/plan 3/filtersub 5 [<>(c1,t6f7073)] 1/scan 3 1/iscan 5 3 1 0 [in(n,3,c2)]/end/ => read
SQLPLAN 1/lines 0/plan 4/loop 5 left []/hash 5 anti [=(c4,c0)] []/scan 3 1/scan 3 1/end/ => C02 5
SQLPLAN 1/lines 0/plan 5/loop 5 left []/hash 5 anti [=(c4,c0)] []/scan 3 1/scan 3 1/scan 0 0/end/ => read
SQLPLAN 1/lines 0/plan 3/merge 2 0 4 [=(c4,c0)]/sort 0a,3d/scan 0 0/end/ => C02 5
SQLPLAN 1/lines 0/plan 4/merge 2 0 4 [=(c4,c0)]/sort 0a,3d/scan 0 0/scan 0 0/end/ => read
SQLPLAN 1/lines 0/plan 3/sgroup 5 1 -/sdistinct 5/iloop 5 3 semi 1 0 [=(c4,c0)]/end/ => C02 6
SQLPLAN 1/lines 0/plan 4/sgroup 5 1 -/sdistinct 5/iloop 5 3 semi 1 0 [=(c4,c0)]/scan 0 0/end/ => read
SQLPLAN 1/lines 1/F select [and(=(c0,i1),=(c1,i2));null(c3)] 0/plan 1/scan 0 0/end/ => C02 3
SQLPLAN 1/lines 1/F select [not(and(=(c0,i-1),=(c1,i2)));or(null(c3),null(n),null(t))] 0/plan 1/scan 0 0/end/ => read";
    assert_eq!(rt;
        differences(rt.alloc(), &[CASES], &ReadWhole).as_deref(),
        Ok("")
    );
}

#[test]
fn the_first_faulty_line_is_told(rt: HostRuntime) {
    const CASES: &str = "SQLPLAN 3/lines 3/ => C01 1
SQLPLAN 1 => C04 1
SQLPLAN 3 => C04 1
SQLPLAN 1/ => C04 2
SQLPLAN 1/lines 03/ => C02 2
SQLPLAN 1/lines 200001/ => C05 2
SQLPLAN 1/lines 4294967296/ => C05 2
SQLPLAN 1/lines 99999999999999999999999999/ => C05 2
SQLPLAN 1/lines  3/ => C02 2
SQLPLAN 1/lines 3 / => C02 2
SQLPLAN 1/lines/ => C02 2
SQLPLAN 1/line 3/ => C02 2
SQLPLAN 1/lines 1/F get 4294967296/ => C03 3
SQLPLAN 1/lines 1/F get 4294967296 0/ => C02 3
SQLPLAN 1/lines 1/F get 00/ => C02 3
SQLPLAN 1/lines 1/F get/ => C02 3
SQLPLAN 1/lines 1/F get 0 => C04 3
SQLPLAN 1/lines 1/F  get 0/ => C02 3
SQLPLAN 1/lines 1/f get 0/ => C02 3
SQLPLAN 1/lines 1// => C02 3
SQLPLAN 1/lines 1/F get 0/plan 0/ => C02 4
SQLPLAN 1/lines 1/F get 0/plan 200001/ => C05 4
SQLPLAN 1/lines 1/F get 0/plan 1/scan 0 0/end/x => C02 7
SQLPLAN 1/lines 1/F get 0/plan 1/scan 0 0/end// => C02 7
SQLPLAN 1/lines 1/F get 0/plan 1/scan 0 0/end => C04 6
SQLPLAN 1/lines 1/F get 0/plan 1/scan 0 0/ends/ => C02 6
SQLPLAN 1/lines 1/F get 0/plan 2/scan 0 0/end/ => C02 5
SQLPLAN 1/lines 1/F get 0/plan 1/sort 0a/scan 0 0/end/ => C02 5
SQLPLAN 1/lines 1/F get 0/plan 1/sort 4294967296a/ => C03 5
SQLPLAN 1/lines 1/F get 0/plan 1/sort 0b/ => C02 5
SQLPLAN 1/lines 1/F get 0/plan 2/filtersub 0 [null(c0)] 4294967295/ => C02 5
SQLPLAN 1/lines 1/F get 0/plan 2/filtersub 0 [null(c0)] 4294967296/ => C03 5
SQLPLAN 1/lines 1/F keep 3,1 0/ => C02 3
SQLPLAN 1/lines 1/F keep 4294967296,1 0/ => C02 3
SQLPLAN 1/lines 1/F keep 1,4294967296 0/ => C03 3
SQLPLAN 1/lines 1/F group - 8=count,7=count 0/ => C02 3
SQLPLAN 1/lines 1/F group - 7=count,7=max:1 0/ => C02 3
SQLPLAN 1/lines 1/F group - 7=avg:1 0/ => C02 3
SQLPLAN 1/lines 1/F group - 7=avg:4294967296 0/ => C02 3
SQLPLAN 1/lines 1/F group - 7=sum:4294967296 0/ => C03 3
SQLPLAN 1/lines 1/F select [=(c4,c0);<>(c1,t6f7073)] 1/ => C02 3
SQLPLAN 1/lines 1/F select [=(c4,c0);=(c4,c0)] 1/ => C02 3
SQLPLAN 1/lines 1/F select [=(c4,c4294967296);=(c4,c4294967297)] 1/ => C03 3
SQLPLAN 1/lines 1/F select [=(c4,c4294967297);=(c4,c4294967296)] 1/ => C02 3
SQLPLAN 1/lines 1/F select [=(c4,i9223372036854775807)] 1/ => C04 4
SQLPLAN 1/lines 1/F select [=(c4,i9223372036854775808)] 1/ => C03 3
SQLPLAN 1/lines 1/F select [=(c4,i-9223372036854775808)] 1/ => C04 4
SQLPLAN 1/lines 1/F select [=(c4,i-9223372036854775809)] 1/ => C03 3
SQLPLAN 1/lines 1/F select [=(c4,i-0)] 1/ => C02 3
SQLPLAN 1/lines 1/F select [=(c4,i+1)] 1/ => C02 3
SQLPLAN 1/lines 1/F select [=(c4,t6F)] 1/ => C02 3
SQLPLAN 1/lines 1/F select [=(c4,t6)] 1/ => C02 3
SQLPLAN 1/lines 1/F select [=(c4,tff)] 1/ => C02 3
SQLPLAN 1/lines 1/F select [=(c4,tc3a4)] 1/ => C04 4
SQLPLAN 1/lines 1/F select [or(null(c1))] 1/ => C02 3
SQLPLAN 1/lines 1/F select [or(null(c1),null(c1),null(c1))] 1/ => C04 4
SQLPLAN 1/lines 1/F select null(c1) 1/ => C02 3
SQLPLAN 1/lines 1/F select [null(c1) 1/ => C02 3
SQLPLAN 1/lines 1/F select [null(c1)]] 1/ => C02 3
SQLPLAN 1/lines 1/F select [null(c1);] 1/ => C02 3
SQLPLAN 1/lines 1/F select [;] 1/ => C02 3
SQLPLAN 1/lines 1/F select [] 1/ => C04 4
SQLPLAN 1/lines 1/S 2 1 Z1 0 2 -/ => C02 3
SQLPLAN 1/lines 1/S 2 1 D1 0 2/ => C02 3
SQLPLAN 1/lines 1/L 0 0 null 0/ => C02 3";
    assert_eq!(rt;
        differences(rt.alloc(), &[CASES], &ReadWhole).as_deref(),
        Ok("")
    );
}

#[test]
fn limits_are_told_before_other_faults(rt: HostRuntime) {
    const CASES: &str =
        "SQLPLAN 1/lines 1/F select [not(not(not(not(not(not(not(not(not(not(not(not(not(not(not(not(not(not(not(not(not(not(not(not(not(not(not(not(not(not(not(not(not(not(not(not(not(not(not(not(not(not(not(not(not(not(not(not(not(not(not(not(not(not(not(not(not(not(not(not(not(not(not(not(not(not(not(not(not(not(not(not(not(not(not(not(not(not(not(not(not(not(not(not(not(not(not(not(not(not(not(not(not(not(not(not(not(not(not(not(not(not(not(not(not(not(not(not(not(not(not(not(not(not(not(not(not(not(not(not(not(not(not(not(not(not(not(not(not(not(not(not(not(not(not(not(not(not(not(not(not(not(not(not(not(not(not(not(not(not(not(not(not(not(not(not(not(not(not(not(not(not(not(not(not(not(not(not(not(not(not(not(not(not(not(not(not(not(not(not(not(not(not(not(not(not(not(not(not(not(not(not(not(not(not(not(not(not(not(not(not(not(not(not(not(not(not(not(not(not(not(not(not(not(not(not(not(not(not(not(not(not(not(not(not(not(not(not(not(not(not(not(not(not(not(not(not(not(not(not(not(not(not(not(not(not(not(not(not(not(not(not(not(not(not(null(c0))))))))))))))))))))))))))))))))))))))))))))))))))))))))))))))))))))))))))))))))))))))))))))))))))))))))))))))))))))))))))))))))))))))))))))))))))))))))))))))))))))))))))))))))))))))))))))))))))))))))))))))))))))))))))))))))))))))))))))))))))))))))))))))))] 0/ => C04 4
SQLPLAN 1/lines 1/F select [not(not(not(not(not(not(not(not(not(not(not(not(not(not(not(not(not(not(not(not(not(not(not(not(not(not(not(not(not(not(not(not(not(not(not(not(not(not(not(not(not(not(not(not(not(not(not(not(not(not(not(not(not(not(not(not(not(not(not(not(not(not(not(not(not(not(not(not(not(not(not(not(not(not(not(not(not(not(not(not(not(not(not(not(not(not(not(not(not(not(not(not(not(not(not(not(not(not(not(not(not(not(not(not(not(not(not(not(not(not(not(not(not(not(not(not(not(not(not(not(not(not(not(not(not(not(not(not(not(not(not(not(not(not(not(not(not(not(not(not(not(not(not(not(not(not(not(not(not(not(not(not(not(not(not(not(not(not(not(not(not(not(not(not(not(not(not(not(not(not(not(not(not(not(not(not(not(not(not(not(not(not(not(not(not(not(not(not(not(not(not(not(not(not(not(not(not(not(not(not(not(not(not(not(not(not(not(not(not(not(not(not(not(not(not(not(not(not(not(not(not(not(not(not(not(not(not(not(not(not(not(not(not(not(not(not(not(not(not(not(not(not(not(not(not(not(not(not(not(not(not(not(not(not(not(not(null(c0)))))))))))))))))))))))))))))))))))))))))))))))))))))))))))))))))))))))))))))))))))))))))))))))))))))))))))))))))))))))))))))))))))))))))))))))))))))))))))))))))))))))))))))))))))))))))))))))))))))))))))))))))))))))))))))))))))))))))))))))))))))))))))))))))] 0/ => C05 3
SQLPLAN 1/lines 1/F select [not(not(not(not(not(not(not(not(not(not(not(not(not(not(not(not(not(not(not(not(not(not(not(not(not(not(not(not(not(not(not(not(not(not(not(not(not(not(not(not(not(not(not(not(not(not(not(not(not(not(not(not(not(not(not(not(not(not(not(not(not(not(not(not(not(not(not(not(not(not(not(not(not(not(not(not(not(not(not(not(not(not(not(not(not(not(not(not(not(not(not(not(not(not(not(not(not(not(not(not(not(not(not(not(not(not(not(not(not(not(not(not(not(not(not(not(not(not(not(not(not(not(not(not(not(not(not(not(not(not(not(not(not(not(not(not(not(not(not(not(not(not(not(not(not(not(not(not(not(not(not(not(not(not(not(not(not(not(not(not(not(not(not(not(not(not(not(not(not(not(not(not(not(not(not(not(not(not(not(not(not(not(not(not(not(not(not(not(not(not(not(not(not(not(not(not(not(not(not(not(not(not(not(not(not(not(not(not(not(not(not(not(not(not(not(not(not(not(not(not(not(not(not(not(not(not(not(not(not(not(not(not(not(not(not(not(not(not(not(not(not(not(not(not(not(not(not(not(not(not(not(not(not(not(not(not(x/ => C05 3
SQLPLAN 1/lines 1/F select [null(x);not(not(not(not(not(not(not(not(not(not(not(not(not(not(not(not(not(not(not(not(not(not(not(not(not(not(not(not(not(not(not(not(not(not(not(not(not(not(not(not(not(not(not(not(not(not(not(not(not(not(not(not(not(not(not(not(not(not(not(not(not(not(not(not(not(not(not(not(not(not(not(not(not(not(not(not(not(not(not(not(not(not(not(not(not(not(not(not(not(not(not(not(not(not(not(not(not(not(not(not(not(not(not(not(not(not(not(not(not(not(not(not(not(not(not(not(not(not(not(not(not(not(not(not(not(not(not(not(not(not(not(not(not(not(not(not(not(not(not(not(not(not(not(not(not(not(not(not(not(not(not(not(not(not(not(not(not(not(not(not(not(not(not(not(not(not(not(not(not(not(not(not(not(not(not(not(not(not(not(not(not(not(not(not(not(not(not(not(not(not(not(not(not(not(not(not(not(not(not(not(not(not(not(not(not(not(not(not(not(not(not(not(not(not(not(not(not(not(not(not(not(not(not(not(not(not(not(not(not(not(not(not(not(not(not(not(not(not(not(not(not(not(not(not(not(not(not(not(not(not(not(not(not(not(not(not(null(c0)))))))))))))))))))))))))))))))))))))))))))))))))))))))))))))))))))))))))))))))))))))))))))))))))))))))))))))))))))))))))))))))))))))))))))))))))))))))))))))))))))))))))))))))))))))))))))))))))))))))))))))))))))))))))))))))))))))))))))))))))))))))))))))))))] 0/ => C02 3
SQLPLAN 1/lines 1/F select [null(c4294967296);not(not(not(not(not(not(not(not(not(not(not(not(not(not(not(not(not(not(not(not(not(not(not(not(not(not(not(not(not(not(not(not(not(not(not(not(not(not(not(not(not(not(not(not(not(not(not(not(not(not(not(not(not(not(not(not(not(not(not(not(not(not(not(not(not(not(not(not(not(not(not(not(not(not(not(not(not(not(not(not(not(not(not(not(not(not(not(not(not(not(not(not(not(not(not(not(not(not(not(not(not(not(not(not(not(not(not(not(not(not(not(not(not(not(not(not(not(not(not(not(not(not(not(not(not(not(not(not(not(not(not(not(not(not(not(not(not(not(not(not(not(not(not(not(not(not(not(not(not(not(not(not(not(not(not(not(not(not(not(not(not(not(not(not(not(not(not(not(not(not(not(not(not(not(not(not(not(not(not(not(not(not(not(not(not(not(not(not(not(not(not(not(not(not(not(not(not(not(not(not(not(not(not(not(not(not(not(not(not(not(not(not(not(not(not(not(not(not(not(not(not(not(not(not(not(not(not(not(not(not(not(not(not(not(not(not(not(not(not(not(not(not(not(not(not(not(not(not(not(not(not(not(not(not(not(not(null(c0)))))))))))))))))))))))))))))))))))))))))))))))))))))))))))))))))))))))))))))))))))))))))))))))))))))))))))))))))))))))))))))))))))))))))))))))))))))))))))))))))))))))))))))))))))))))))))))))))))))))))))))))))))))))))))))))))))))))))))))))))))))))))))))))))] 0/ => C05 3
SQLPLAN 1/lines 1/F select [=(c0,c4294967296);not(not(not(not(not(not(not(not(not(not(not(not(not(not(not(not(not(not(not(not(not(not(not(not(not(not(not(not(not(not(not(not(not(not(not(not(not(not(not(not(not(not(not(not(not(not(not(not(not(not(not(not(not(not(not(not(not(not(not(not(not(not(not(not(not(not(not(not(not(not(not(not(not(not(not(not(not(not(not(not(not(not(not(not(not(not(not(not(not(not(not(not(not(not(not(not(not(not(not(not(not(not(not(not(not(not(not(not(not(not(not(not(not(not(not(not(not(not(not(not(not(not(not(not(not(not(not(not(not(not(not(not(not(not(not(not(not(not(not(not(not(not(not(not(not(not(not(not(not(not(not(not(not(not(not(not(not(not(not(not(not(not(not(not(not(not(not(not(not(not(not(not(not(not(not(not(not(not(not(not(not(not(not(not(not(not(not(not(not(not(not(not(not(not(not(not(not(not(not(not(not(not(not(not(not(not(not(not(not(not(not(not(not(not(not(not(not(not(not(not(not(not(not(not(not(not(not(not(not(not(not(not(not(not(not(not(not(not(not(not(not(not(not(not(not(not(not(not(not(not(not(not(not(not(not(not(null(c0)))))))))))))))))))))))))))))))))))))))))))))))))))))))))))))))))))))))))))))))))))))))))))))))))))))))))))))))))))))))))))))))))))))))))))))))))))))))))))))))))))))))))))))))))))))))))))))))))))))))))))))))))))))))))))))))))))))))))))))))))))))))))))))))))] 0/ => C05 3";
    assert_eq!(rt;
        differences(rt.alloc(), &[CASES], &ReadWhole).as_deref(),
        Ok("")
    );
}
