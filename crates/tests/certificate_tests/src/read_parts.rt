//! Parts of a certificate's text, as they are read.

use certificate_text::column_lists::columns;
use certificate_text::numbers::{number, numbers};
use certificate_text::part_fault::{PartFault, PartReason};
use fixtures::{Reporting, differences, push_number};
use std::alloc::{AllocError, Global};
use values::Fault;

fn push_list(reported: &mut String, list: &[u32]) -> Result<(), AllocError> {
    reported.push_str(":")?;
    for number in list {
        push_number(reported, " ", *number as usize)?;
    }
    Ok(())
}

fn push_fault(reported: &mut String, fault: PartFault) -> Result<(), AllocError> {
    reported.push_str(match fault {
        Fault::Memory => "memory",
        Fault::Refused(PartReason::OtherForm) => "other",
        Fault::Refused(PartReason::OverLimit) => "over",
    })
}

/// Reports what a text is as a number, as a list of numbers and as a list of columns.
struct ReadAsEach;

impl Reporting for ReadAsEach {
    fn report(&self, alloc: Global, text: &str, reported: &mut String) -> Result<(), AllocError> {
        match number(text) {
            Ok(Some(read)) => push_number(reported, "", read as usize)?,
            Ok(None) => reported.push_str("past")?,
            Err(reason) => push_fault(reported, Fault::Refused(reason))?,
        }
        reported.push_str(" | ")?;
        match numbers(alloc, text) {
            Ok(Some(read)) => push_list(reported, read.as_slice())?,
            Ok(None) => reported.push_str("past")?,
            Err(fault) => push_fault(reported, fault)?,
        }
        reported.push_str(" | ")?;
        match columns(alloc, text) {
            Ok(Some(read)) => push_list(reported, read.as_slice()),
            Ok(None) => reported.push_str("past"),
            Err(fault) => push_fault(reported, fault),
        }
    }
}

#[test]
fn parts_are_read(rt: HostRuntime) {
    const CASES: &str = "0 => 0 | : 0 | : 0
7 => 7 | : 7 | : 7
4294967295 => 4294967295 | : 4294967295 | : 4294967295
4294967296 => past | past | past
- => other | : | :
007 => other | other | other
+7 => other | other | other
-7 => other | other | other
3,5 => other | : 3 5 | : 3 5
9,10 => other | : 9 10 | : 9 10
5,3 => other | : 5 3 | other
3,3 => other | : 3 3 | other
10,9 => other | : 10 9 | other
3,4294967296 => other | past | past
4294967296,99999999999999999999 => other | past | past
99999999999999999999,4294967296 => other | past | other
4294967296,4294967296 => other | past | other
4294967297,4294967296 => other | past | other
4294967296,x => other | other | other
3, => other | other | other
3,-,5 => other | other | other";
    assert_eq!(rt;
        differences(rt.alloc(), &[CASES], &ReadAsEach).as_deref(),
        Ok("")
    );
}

#[test]
fn an_empty_word_is_no_part(rt: HostRuntime) {
    assert!(rt; number("").is_err());
    assert!(rt; numbers(rt.alloc(), "").is_err());
    assert!(rt; columns(rt.alloc(), "").is_err());
}
