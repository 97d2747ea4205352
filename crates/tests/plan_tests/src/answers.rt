//! Queries by both commands, over the tables of `examples/hr`. Each line has a text, `=>`, and the lines that it is answered with,
//! with `;` between them, as in `queries` of `plan_words`. The answers are sqlite3's: `tests/run answers` reads both files and asks it.

use crate::commands::{Files, Way, push_answer};
use fixtures::{COMPANY, DEPT, EMP, Reporting, differences, spelt};
use plan_words::queries::QUERIES;
use std::alloc::{AllocError, Global};

/// Bytes and texts that are refused, and one that is spelt otherwise. Before the last a byte order mark stands.
const SPELT: &str = "\tselect\r~NAME from DEPT where Name > 'lab' ;~ => name;ops
SELECT ^ => refused P01 at 7
\u{feff}SELECT id FROM emp => refused P01 at 0";

/// Texts and names that are refused.
const REFUSED: &str = r" => refused P04 at 0
SELECT id FROM emp LIMIT 1 => refused P04 at 25
SELECT boss FROM dept RIGHT JOIN emp ON boss = pay => refused P04 at 22
SELECT id FROM emp WHERE id = 9223372036854775808 => refused P03 at 30
SELECT id FROM emp WHERE (((((((((((((((((((((((((((((((((((((((((((((((((((((((((((((((((id = 1))))))))))))))))))))))))))))))))))))))))))))))))))))))))))))))))) => refused P05 at 89
SELECT 'a => refused P02 at 7
SELECT id ! FROM emp => refused P01 at 10
SELECT id FROM emp, emp => refused B04 at 20
SELECT name, COUNT(*) FROM dept => refused B06 at 7
SELECT id FROM dept, emp => refused B03 at 7
SELECT id FROM emp WHERE id = 'x' => refused B05 at 28
SELECT id FROM emp ORDER BY pay => refused B09 at 28
SELECT id FROM => refused P04 at 14
SELECT id FROM emp WHERE id ! 1 => refused P01 at 28
SELECT id FROM emps => refused B01 at 15
SELECT id, nam FROM dept => refused B02 at 11
SELECT nam FROM dept WHERE bos = 1 => refused B02 at 27
SELECT id FROM dept WHERE name <> 1 => refused B05 at 31
SELECT dept FROM emp GROUP BY dept HAVING pay > 1 => refused B06 at 42
SELECT dept FROM emp GROUP BY dept HAVING EXISTS (SELECT * FROM dept) => refused P04 at 42";

/// Subqueries two deep: where the inner one has a Null, and where it has none.
const NESTED: &str =
    r"SELECT d.id FROM dept d WHERE EXISTS (SELECT e.id FROM emp e WHERE e.dept = d.id AND e.badge NOT IN (SELECT x.badge FROM emp x WHERE x.pay = 400)) => id
SELECT d.id FROM dept d WHERE EXISTS (SELECT e.id FROM emp e WHERE e.dept = d.id AND e.badge NOT IN (SELECT x.badge FROM emp x WHERE x.pay > 500)) => id;1;3";

/// Reports what a command answers over the files of `examples/hr`. The text is spelt.
#[derive(Drop)]
pub struct Answers<'a> {
    pub way: Way<'a>,
}

impl Reporting for Answers<'_> {
    fn report(&self, alloc: Global, text: &str, reported: &mut String) -> Result<(), AllocError> {
        let text = spelt(alloc, text)?;
        let files = Files {
            schema: COMPANY.as_bytes(),
            text: text.as_slice(),
            dept: DEPT.as_bytes(),
            emp: EMP.as_bytes(),
        };
        push_answer(alloc, reported, self.way, files)
    }
}

/// What a command answers otherwise.
fn answer_differences(alloc: Global, way: Way<'_>) -> Result<String, AllocError> {
    let answers = Answers { way };
    let mut all = differences(alloc, &QUERIES, &answers)?;
    all.push_str(differences(alloc, &[SPELT, REFUSED, NESTED], &answers)?.as_str())?;
    Ok(all)
}

/// Both commands answer alike, so the plan gives the rows in the evaluator's order.
#[test]
fn both_commands_answer_as_sql_does(rt: HostRuntime) {
    assert_eq!(rt;
        answer_differences(rt.alloc(), Way::Plan).as_deref(),
        Ok("")
    );
    assert_eq!(rt;
        answer_differences(rt.alloc(), Way::Meaning).as_deref(),
        Ok("")
    );
}
