//! Keys of classes, learned where a rule asks for them.

use algebra::{ClassId, Columns, Expr, LineId};
use memo::Memo;
use props::Fact;
use query::ids::{id_behind, id_of};
use query::{ColumnId, InstanceId};
use std::alloc::{AllocError, Global};

/// So many keys are learned of a class at most.
const MOST_KEYS: usize = 8;

/// So many columns has the key of a fact at most.
const MOST_COLUMNS: usize = 4;

/// Lists of columns that may be keys of a class.
#[derive(Drop)]
struct Candidates {
    keys: Vec<Vec<ColumnId>>,
}

impl Candidates {
    fn none(alloc: Global) -> Candidates {
        Candidates {
            keys: Vec::new(alloc),
        }
    }

    /// Adds a list, where a key may have so many columns and there is room.
    fn add(&mut self, alloc: Global, key: &[ColumnId]) -> Result<(), AllocError> {
        if key.len() <= MOST_COLUMNS && self.keys.len() < MOST_KEYS {
            self.keys.push(Vec::from_slice(alloc, key)?)?;
        }
        Ok(())
    }

    /// Adds the keys that are known of a class.
    fn add_known(
        &mut self,
        alloc: Global,
        memo: &Memo<'_>,
        class: ClassId,
    ) -> Result<(), AllocError> {
        let classes = memo.log().classes();
        for key in classes.strong_keys(class) {
            self.add(alloc, key.as_slice())?;
        }
        for key in classes.weak_keys(class) {
            self.add(alloc, key.as_slice())?;
        }
        Ok(())
    }

    /// Adds the unique lists of a table instance.
    fn add_unique(
        &mut self,
        alloc: Global,
        memo: &Memo<'_>,
        instance: InstanceId,
    ) -> Result<(), AllocError> {
        let Some(table) = memo.log().instances().get(instance as usize) else {
            return Ok(());
        };
        for places in table.entry.unique.as_slice() {
            let mut key = Vec::new(alloc);
            for place in places.as_slice() {
                key.push(id_behind(table.first_column, *place)?)?;
            }
            self.add(alloc, key.as_slice())?;
        }
        Ok(())
    }

    /// Adds keys of both sides of a join, and the first of the one with each of the other.
    fn add_sides(
        &mut self,
        alloc: Global,
        memo: &Memo<'_>,
        left: ClassId,
        right: ClassId,
    ) -> Result<(), AllocError> {
        let mut of_left = Candidates::none(alloc);
        of_left.add_known(alloc, memo, left)?;
        let mut of_right = Candidates::none(alloc);
        of_right.add_known(alloc, memo, right)?;
        for key in of_left.keys.iter().chain(of_right.keys.iter()) {
            self.add(alloc, key.as_slice())?;
        }
        if let Some(first) = of_left.keys.first() {
            for key in &of_right.keys {
                let mut both = Vec::from_slice(alloc, first.as_slice())?;
                both.extend_from_slice(key.as_slice())?;
                self.add(alloc, both.as_slice())?;
            }
        }
        Ok(())
    }
}

/// What may be keys of a class by the expression that founds it.
fn candidate_keys(
    alloc: Global,
    memo: &Memo<'_>,
    class: ClassId,
) -> Result<Candidates, AllocError> {
    let mut found = Candidates::none(alloc);
    let Some(member) = memo.log().member(class) else {
        return Ok(found);
    };
    match member.expr {
        Expr::Get(instance) => found.add_unique(alloc, memo, *instance)?,
        Expr::Join(_, a, b) | Expr::LeftJoin(_, a, b) => found.add_sides(alloc, memo, *a, *b)?,
        Expr::Select(_, x) | Expr::Keep(_, x) => found.add_known(alloc, memo, *x)?,
        Expr::Semi(_, a, _) | Expr::Anti(_, _, a, _) => found.add_known(alloc, memo, *a)?,
        Expr::Distinct(x) => {
            found.add_known(alloc, memo, *x)?;
            if let Some(columns) = memo.log().classes().columns.columns.get(*x as usize) {
                found.add(alloc, columns.as_slice())?;
            }
        }
        Expr::Group(keys, _, _) => found.add(alloc, keys.as_slice())?,
    }
    Ok(found)
}

fn columns_of(alloc: Global, key: &[ColumnId]) -> Result<Columns, AllocError> {
    Ok(Columns::from_vec(Vec::from_slice(alloc, key)?))
}

/// Learns what is so of a key: that it is a strong one; else of its columns that they are nowhere Null, and that it is a weak one, and then
/// a strong one by both.
fn learn_key(
    alloc: Global,
    memo: &mut Memo<'_>,
    class: ClassId,
    key: &[ColumnId],
) -> Result<(), AllocError> {
    if memo.learn(alloc, class, Fact::StrongKey(columns_of(alloc, key)?))? {
        return Ok(());
    }
    for column in key {
        let _ = memo.learn(alloc, class, Fact::NotNull(*column))?;
    }
    if memo.learn(alloc, class, Fact::WeakKey(columns_of(alloc, key)?))? {
        let _ = memo.learn(alloc, class, Fact::StrongKey(columns_of(alloc, key)?))?;
    }
    Ok(())
}

fn mark(marks: &mut [bool], class: Option<ClassId>) {
    if let Some(class) = class {
        if let Some(mark) = marks.get_mut(class as usize) {
            *mark = true;
        }
    }
}

/// The classes on which a class stands by its founding line, and itself, in rising order.
pub(crate) fn classes_below(
    alloc: Global,
    memo: &Memo<'_>,
    class: ClassId,
) -> Result<Vec<ClassId>, AllocError> {
    let mut marks = Vec::from_elem(alloc, false, memo.log().len())?;
    mark(&mut marks, Some(class));
    for line in (0..id_of(marks.len())?).rev() {
        if marks.get(line as usize) == Some(&true) {
            if let Some(member) = memo.log().member(line) {
                let (left, right) = member.expr.children();
                mark(&mut marks, left);
                mark(&mut marks, right);
            }
        }
    }
    let mut below = Vec::new(alloc);
    for line in 0..id_of(marks.len())? {
        if marks.get(line as usize) == Some(&true) {
            below.push(line)?;
        }
    }
    Ok(below)
}

/// Learns keys of a class, and before them of the classes on which it stands.
pub(crate) fn learn_keys(
    alloc: Global,
    memo: &mut Memo<'_>,
    class: ClassId,
) -> Result<(), AllocError> {
    if memo.log().classes().has_strong_key(class) {
        return Ok(());
    }
    for below in classes_below(alloc, memo, class)? {
        for key in candidate_keys(alloc, memo, below)?.keys {
            learn_key(alloc, memo, below, key.as_slice())?;
        }
    }
    Ok(())
}
