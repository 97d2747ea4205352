//! Frames of queries of each form.

use algebra::{Aggregation, Columns, Conjuncts, Expr};
use fixtures::{QueryReporting, query_differences};
use frame::frame_of;
use plan_words::tables::TABLES;
use plan_words::texts::push_line;
use query::{BoundQuery, Query, TableInstance};
use std::alloc::{AllocError, Global};
use store::Database;

fn is_copied(alloc: Global, conjuncts: &Conjuncts) -> Result<bool, AllocError> {
    Ok(conjuncts.copy(alloc)?.same(conjuncts))
}

/// Whether a copy of what the line holds is the same, and the line itself is.
fn has_copies(alloc: Global, line: &Expr) -> Result<bool, AllocError> {
    let same = match line {
        Expr::Select(conjuncts, _) => is_copied(alloc, conjuncts)?,
        Expr::Join(conjuncts, _, _) => is_copied(alloc, conjuncts)?,
        Expr::LeftJoin(conjuncts, _, _) => is_copied(alloc, conjuncts)?,
        Expr::Keep(columns, _) => columns.copy(alloc)?.same(columns),
        Expr::Group(_, added, _) => added.copy(alloc)?.same(added),
        _ => true,
    };
    Ok(same && line.same(line))
}

/// The aggregates of all groups.
fn aggregates(alloc: Global, frame: &[Expr]) -> Result<Vec<Aggregation>, AllocError> {
    let mut all = Vec::new(alloc);
    for line in frame {
        if let Expr::Group(_, added, _) = line {
            all.extend_from_slice(added.as_slice())?;
        }
    }
    Ok(all)
}

/// Whether a line is well formed after classes with these columns, which its own are added to.
fn is_formed(
    alloc: Global,
    instances: &[TableInstance],
    own: &[Aggregation],
    classes: &mut Vec<Columns>,
    line: &Expr,
) -> Result<bool, AllocError> {
    if !line.names_below(classes.len()) {
        return Ok(false);
    }
    let formed = line.is_formed(instances, own, classes.as_slice());
    let columns = line.columns(alloc, instances, classes.as_slice())?;
    classes.push(columns)?;
    Ok(formed)
}

/// Whether each line is well formed.
fn are_formed(alloc: Global, query: &Query, frame: &[Expr]) -> Result<bool, AllocError> {
    let own = aggregates(alloc, frame)?;
    let mut classes = Vec::new(alloc);
    for line in frame {
        if !is_formed(
            alloc,
            query.tables.as_slice(),
            own.as_slice(),
            &mut classes,
            line,
        )? {
            return Ok(false);
        }
        if !has_copies(alloc, line)? {
            return Ok(false);
        }
    }
    Ok(true)
}

/// Reports the frame's lines, with `; ` between them, if they are well formed and their copies the same.
struct Frames;

impl QueryReporting for Frames {
    fn report(
        &self,
        alloc: Global,
        _database: &Database<'_>,
        query: &BoundQuery,
        _more: &str,
        reported: &mut String,
    ) -> Result<(), AllocError> {
        let query = query.query();
        let frame = frame_of(alloc, query)?;
        if !are_formed(alloc, query, frame.as_slice())? {
            reported.push_str("not well formed: ")?;
        }
        for (number, line) in frame.as_slice().iter().enumerate() {
            reported.push_str(if number == 0 { "" } else { "; " })?;
            push_line(alloc, reported, line)?;
        }
        Ok(())
    }
}

#[test]
fn queries_have_frames(rt: HostRuntime) {
    const CASES: &str =
        "SELECT boss, id FROM dept WHERE boss < 7 => get 0; select 0 [<(c1,i7)]; keep 1: 0 1
SELECT boss FROM dept => get 0; keep 0: 1
SELECT b.boss, a.id FROM dept a LEFT JOIN dept b ON a.id = b.boss => get 0; get 1; left 0 1 [=(c0,c3)]; keep 2: 0 3
SELECT c.boss FROM dept a JOIN dept b ON a.id = b.boss, dept c WHERE c.id = a.boss => get 0; get 1; join 0 1 [=(c0,c3)]; get 2; join 2 3 []; select 4 [=(c4,c1)]; keep 5: 5
SELECT a.id FROM dept a WHERE (a.id NOT IN (SELECT boss FROM dept b) AND EXISTS (SELECT c.id, a.boss FROM dept c WHERE c.id = a.boss)) AND a.boss < 7 => get 0; get 1; keep 1: 3; get 2; select 3 [=(c4,c1)]; keep 4: 4; select 0 [<(c1,i7),exists(5),not(in(c0,2,c3))]; keep 6: 0
SELECT SUM(id), boss, COUNT(*) FROM dept GROUP BY boss, id => get 0; group 0: 0 1; 2=sum:0 3=count; keep 1: 1 2 3
SELECT COUNT(*) FROM dept => get 0; group 0:; 2=count; keep 1: 2
SELECT boss, COUNT(*) FROM dept GROUP BY boss HAVING COUNT(id) > 1 AND boss < 7 => get 0; group 0: 1; 2=count 3=count:0; select 1 [<(c1,i7),>(c3,i1)]; keep 2: 1 2
SELECT MAX(a.id) FROM dept a WHERE a.id IN (SELECT COUNT(*) FROM dept b HAVING MIN(b.id) > 1) HAVING NOT SUM(a.boss) = 3 => get 0; get 1; group 1:; 5=count 6=min:2; select 2 [>(c6,i1)]; keep 3: 5; select 0 [in(c0,4,c5)]; group 5:; 4=max:0 7=sum:1; select 6 [not(=(c7,i3))]; keep 7: 4
SELECT DISTINCT boss FROM dept WHERE (boss < 7 AND id < 9) AND boss < 7 => get 0; select 0 [<(c0,i9),<(c1,i7)]; keep 1: 1; distinct 2
SELECT id FROM dept WHERE NOT boss < 7 OR boss IS NULL AND NULL = 3 => get 0; select 0 [or(not(<(c1,i7)),and(null(c1),=(n,i3)))]; keep 1: 0
SELECT a FROM t, u WHERE d >= 'y' => get 0; get 1; join 0 1 []; select 2 [>=(c3,t79)]; keep 3: 0";
    assert_eq!(rt;
        query_differences(rt.alloc(), TABLES, &[CASES], &Frames).as_deref(),
        Ok("")
    );
}
