//! Files that are read and files that are refused.

use crate::commands::{Files, Way, push_answer};
use fixtures::{COMPANY, DEPT, EMP, Reporting, differences, spelt};
use std::alloc::{AllocError, Global};
use std::process::Abort;

/// Each with the line of its refusal. The text that is asked is no query, which is reported after the schema.
const SCHEMAS: &str = r#" => refused S01
^ => refused S01
{} => refused S02
{"tables":[{"name":"t","columns":[{"name":"a","kind":"INT","not_null":true},{"name":"a","kind":"INT","not_null":true}],"unique":[],"indexes":[]}]} => refused S03
{"tables":[{"name":"t","columns":[{"name":"a","kind":"INT","not_null":true}],"unique":[["b"]],"indexes":[]}]} => refused S04"#;

/// Files of `emp` with what `SELECT SUM(pay) FROM emp` is answered with.
const EMPS: &str = r" => refused T02 emp row 0
id,dept,pay~ => refused T02 emp row 0
id,dept,pay,badge~10,1,500~ => refused T01 emp row 1
id,dept,pay,badge~\N,1,500,7~ => refused T05 emp row 1
id,dept,pay,badge~\x,1,+5,7~ => refused T04 emp row 1
id,dept,pay,badge~10,1,500,7~11,1,+5,\N~ => refused T03 emp row 2
id,dept,pay,badge~10,1,500,7~11,1,\N,\N~12,3,400,\N~13,\N,500,7~ => refused T06 emp row 4 and 1
id,dept,pay,badge~1,1,9223372036854775807,\N~2,1,9223372036854775807,\N~ => sum;18446744073709551614
id,dept,pay,badge~ => sum;\N";

/// Files of `dept` with what `SELECT name FROM dept WHERE id = 1` is answered with. Before the third a byte order mark stands.
const DEPTS: &str = "id,name,boss~1,\\\\a,10~ => name;\\\\a
id,name,boss\r~1,ops,10\r~ => name;ops
\u{feff}id,name,boss~1,ops,10~ => name;ops
id,name,boss~1,\"a \"\"b\"\", c~d\",10~ => name;\"a \"\"b\"\", c;d\"
\"id\",\"name\",\"boss\"~\"1\",\"\",\"10\"~ => name;\"\"
id,name,boss~1,ops,10 => name;ops
id,name,boss~1,\\a,10~ => refused T04 dept row 1
id,name,boss~1,^,10~ => refused T01 dept row 1";

/// A file of `emp` that is asked of `dept`.
const NO_EMP: &str = " => refused T02 emp row 0";

/// Texts, with what they are answered with over empty files: a text is refused before the tables, and these in the order of
/// the schema.
const FIRST: &str = "SELECT id FROM dept => refused T02 dept row 0
 => refused P04 at 0";

/// What a case gives to a command.
#[derive(Clone, Copy)]
enum Given {
    Schema,
    Dept,
    Emp,
    /// The text, where both tables' files are empty.
    Text,
}

/// Reports what a command answers with what a text spells in one place, and in the others the files of `examples/hr` and a text.
#[derive(Drop)]
struct Replaced<'a> {
    way: Way<'a>,
    given: Given,
    text: &'a str,
}

impl Reporting for Replaced<'_> {
    fn report(&self, alloc: Global, text: &str, reported: &mut String) -> Result<(), AllocError> {
        let bytes = spelt(alloc, text)?;
        let bytes = bytes.as_slice();
        let company = Files {
            schema: COMPANY.as_bytes(),
            text: self.text.as_bytes(),
            dept: DEPT.as_bytes(),
            emp: EMP.as_bytes(),
        };
        let files = match self.given {
            Given::Schema => Files {
                schema: bytes,
                ..company
            },
            Given::Dept => Files {
                dept: bytes,
                ..company
            },
            Given::Emp => Files {
                emp: bytes,
                ..company
            },
            Given::Text => Files {
                text: bytes,
                dept: b"",
                emp: b"",
                ..company
            },
        };
        push_answer(alloc, reported, self.way, files)
    }
}

/// Both commands answer the cases so.
fn are_answered(rt: &impl Abort, alloc: Global, given: Given, cases: &str, text: &str) {
    for way in [Way::Plan, Way::Meaning] {
        assert_eq!(rt;
            differences(alloc, &[cases], &Replaced { way, given, text }).as_deref(),
            Ok("")
        );
    }
}

#[test]
fn files_are_read_or_refused(rt: HostRuntime) {
    const SUM: &str = "SELECT SUM(pay) FROM emp";
    const NAME: &str = "SELECT name FROM dept WHERE id = 1";
    are_answered(&rt, rt.alloc(), Given::Schema, SCHEMAS, "?");
    are_answered(&rt, rt.alloc(), Given::Emp, EMPS, SUM);
    are_answered(&rt, rt.alloc(), Given::Dept, DEPTS, NAME);
    are_answered(&rt, rt.alloc(), Given::Text, FIRST, "");
    are_answered(&rt, rt.alloc(), Given::Emp, NO_EMP, "SELECT id FROM dept");
}
