//! Facts that lines give of their classes, and that aren't known of these.

ghost use Rattle.std.specs.Prelude.{◌≡◌, ◌++◌, ◌||◌, ◌&&◌, map, slice_get, IfOk, Some};
ghost use Rattle.std.specs.List.{AllByRecursion};
ghost use Rattle.algebra.specs.Columns.{is_same_set, is_subset};
ghost use Rattle.props.specs.declared.fact.Fact.TheVariants as fact_;
ghost use Rattle.props.specs.Facts.{fact_columns};
ghost use Rattle.props.specs.Given.{at_places, by_table, gives as gives_};
ghost use Rattle.rules.specs.Matches.{line_in};
ghost use Rattle.algebra.specs.GivenColumns.{given_columns};
ghost use Rattle.props.specs.Knowledge.{known};
ghost use Rattle.derivation.specs.Logs.{knowledge};
ghost use Rattle.closure.specs.Closed as closed;
ghost use Rattle.closure.specs.Learnt as spec;

use algebra::{ClassColumns, ClassId, Columns, Expr};
use logs::Log;
use props::given::gives;
use props::{Fact, KnownClasses};
use query::ids::id_behind;
use query::{ColumnId, InstanceId, TableInstance};
use rules::MatchedLine;
use std::alloc::{AllocError, Global};

/// Whether a fact speaks of columns of a class alone.
fn speaks_of(columns: ClassColumns<'_>, class: ClassId, fact: &Fact) -> bool
    ensures { result ≡ is_subset (fact_columns fact.now) (given_columns columns.entry class) }
{
    match fact {
        Fact::NotNull(column) => columns.has(class, *column),
        Fact::WeakKey(key) | Fact::StrongKey(key) => columns.has_all(class, key.as_slice()),
    }
}

/// Whether a line gives a fact, which speaks of columns of its class alone.
fn gives_fact(
    instances: &[TableInstance],
    classes: KnownClasses<'_>,
    line: MatchedLine<'_>,
    fact: &Fact,
) -> bool
    ensures { result ≡ (is_subset (fact_columns fact.now) (given_columns classes.entry.columns line.entry.class) && gives_ instances.now (known classes.entry) line.entry.class line.entry.expr.now fact.now) }
{
    speaks_of(classes.columns, line.class, fact)
        && gives(instances, classes, line.class, line.expr, fact)
}

/// Whether a line gives a fact of its class that isn't known of it. Mostly it is known, which is seen at once.
fn lacks(
    instances: &[TableInstance],
    classes: KnownClasses<'_>,
    line: MatchedLine<'_>,
    fact: &Fact,
) -> bool
    ensures { result ≡ closed.lacks_fact instances.now (known classes.entry) (line_in line.entry) fact.now }
{
    !classes.knows(line.class, fact)
        && speaks_of(classes.columns, line.class, fact)
        && gives(instances, classes, line.class, line.expr, fact)
}

// ---- keys

/// That the columns are a weak key, where the line lacks it.
fn lacking_weak(
    alloc: Global,
    instances: &[TableInstance],
    classes: KnownClasses<'_>,
    line: MatchedLine<'_>,
    key: &Columns,
) -> Result<Option<Fact>, AllocError>
    ensures { IfOk result (λ found. spec.FactTold instances.now (known classes.entry) (line_in line.entry) (fact_.WeakKey key.now) found) }
{
    let _rises = key.as_slice();
    if classes.is_weak_key(line.class, key) {
        return Ok(None);
    }
    let fact = Fact::WeakKey(key.copy(alloc)?);
    if gives_fact(instances, classes, line, &fact) {
        Ok(Some(fact))
    } else {
        Ok(None)
    }
}

/// That the columns are a strong key, where the line lacks it.
fn lacking_strong(
    alloc: Global,
    instances: &[TableInstance],
    classes: KnownClasses<'_>,
    line: MatchedLine<'_>,
    key: &Columns,
) -> Result<Option<Fact>, AllocError>
    ensures { IfOk result (λ found. spec.FactTold instances.now (known classes.entry) (line_in line.entry) (fact_.StrongKey key.now) found) }
{
    let _rises = key.as_slice();
    if classes.is_strong_key(line.class, key) {
        return Ok(None);
    }
    let fact = Fact::StrongKey(key.copy(alloc)?);
    if gives_fact(instances, classes, line, &fact) {
        Ok(Some(fact))
    } else {
        Ok(None)
    }
}

/// A key of columns that are in one of two lists, where the line lacks it.
fn lacking_key(
    alloc: Global,
    instances: &[TableInstance],
    classes: KnownClasses<'_>,
    line: MatchedLine<'_>,
    one: &[ColumnId],
    other: &[ColumnId],
) -> Result<Option<Fact>, AllocError>
    ensures { IfOk result (λ found. spec.KeysTold instances.now (known classes.entry) (line_in line.entry) (λ L. is_same_set L (one.now ++ other.now)) found) }
{
    let mut both = Vec::from_slice(alloc, one)?;
    both.extend_from_slice(other)?;
    let key = Columns::from_vec(both);
    if let Some(fact) = lacking_weak(alloc, instances, classes, line, &key)? {
        return Ok(Some(fact));
    }
    let found = lacking_strong(alloc, instances, classes, line, &key)?;
    Ok(found)
}

/// A key of the columns of the one with those of one of the others, where the line lacks it.
fn lacking_with(
    alloc: Global,
    instances: &[TableInstance],
    classes: KnownClasses<'_>,
    line: MatchedLine<'_>,
    one: &[ColumnId],
    mut others: &[Vec<ColumnId>],
) -> Result<Option<Fact>, AllocError>
    ensures { IfOk result (λ found. spec.EachTold instances.now (known classes.entry) (line_in line.entry) (λ q. spec.HasKeys instances.now (known classes.entry) (line_in line.entry) (λ L. is_same_set L (one.now ++ q.items))) others.entry.now found) }
{
    'others: while let [other, rest @ ..] = others {
        if let Some(fact) = lacking_key(alloc, instances, classes, line, one, other.as_slice())? {
            return Ok(Some(fact));
        }
        others = rest;
    }
    Ok(None)
}

/// A key of the columns of one of the keys with those of one of the others, where the line lacks it.
fn lacking_union(
    alloc: Global,
    instances: &[TableInstance],
    classes: KnownClasses<'_>,
    line: MatchedLine<'_>,
    mut keys: &[Vec<ColumnId>],
    others: &[Vec<ColumnId>],
) -> Result<Option<Fact>, AllocError>
    ensures { IfOk result (λ found. spec.EachTold instances.now (known classes.entry) (line_in line.entry) (λ p. AllByRecursion (λ q. spec.HasKeys instances.now (known classes.entry) (line_in line.entry) (λ L. is_same_set L (p.items ++ q.items))) others.now) keys.entry.now found) }
{
    'keys: while let [key, rest @ ..] = keys {
        if let Some(fact) = lacking_with(alloc, instances, classes, line, key.as_slice(), others)? {
            return Ok(Some(fact));
        }
        keys = rest;
    }
    Ok(None)
}

/// A key that is known of a class and that the line lacks.
fn lacking_known(
    alloc: Global,
    instances: &[TableInstance],
    classes: KnownClasses<'_>,
    line: MatchedLine<'_>,
    class: ClassId,
) -> Result<Option<Fact>, AllocError>
    ensures { IfOk result (λ found. spec.KeysTold instances.now (known classes.entry) (line_in line.entry) (spec.is_key (known classes.entry) class) found) }
{
    if let Some(fact) = lacking_with(
        alloc,
        instances,
        classes,
        line,
        &[],
        classes.weak_keys(class),
    )? {
        return Ok(Some(fact));
    }
    let found = lacking_with(
        alloc,
        instances,
        classes,
        line,
        &[],
        classes.strong_keys(class),
    )?;
    Ok(found)
}

/// A key of the columns of a key of each of two classes, where the line lacks it.
fn lacking_unions(
    alloc: Global,
    instances: &[TableInstance],
    classes: KnownClasses<'_>,
    line: MatchedLine<'_>,
    left: ClassId,
    right: ClassId,
) -> Result<Option<Fact>, AllocError>
    ensures { IfOk result (λ found. spec.KeysTold instances.now (known classes.entry) (line_in line.entry) (spec.are_keys (known classes.entry) left right) found) }
{
    let (keys, others) = (classes.weak_keys(left), classes.weak_keys(right));
    if let Some(fact) = lacking_union(alloc, instances, classes, line, keys, others)? {
        return Ok(Some(fact));
    }
    let (keys, others) = (classes.strong_keys(left), classes.strong_keys(right));
    let found = lacking_union(alloc, instances, classes, line, keys, others)?;
    Ok(found)
}

/// A key of either side of a join, or of both together, that the line lacks.
fn lacking_joined(
    alloc: Global,
    instances: &[TableInstance],
    classes: KnownClasses<'_>,
    line: MatchedLine<'_>,
    left: ClassId,
    right: ClassId,
) -> Result<Option<Fact>, AllocError>
    ensures { IfOk result (λ found. spec.KeysTold instances.now (known classes.entry) (line_in line.entry) (spec.joins_keys (known classes.entry) left right) found) }
{
    if let Some(fact) = lacking_known(alloc, instances, classes, line, left)? {
        return Ok(Some(fact));
    }
    if let Some(fact) = lacking_known(alloc, instances, classes, line, right)? {
        return Ok(Some(fact));
    }
    let found = lacking_unions(alloc, instances, classes, line, left, right)?;
    Ok(found)
}

/// The columns of a table instance at the places.
fn columns_at(
    alloc: Global,
    table: &TableInstance,
    places: &[usize],
) -> Result<Vec<ColumnId>, AllocError>
    ensures { IfOk result (λ columns. columns.items ≡ at_places table.now places.now) }
{
    let mut columns = Vec::new(alloc);
    for place in places {
        columns.push(id_behind(table.first_column, *place)?)?;
    }
    Ok(columns)
}

/// The unique lists of a table instance, as columns.
fn unique_lists(alloc: Global, table: &TableInstance) -> Result<Vec<Vec<ColumnId>>, AllocError>
    ensures { IfOk result (λ lists. map (λ v. v.items) lists.items ≡ map (at_places table.now) table.now.entry.unique) }
{
    let mut lists = Vec::new(alloc);
    for places in table.entry.unique.as_slice() {
        lists.push(columns_at(alloc, table, places.as_slice())?)?;
    }
    Ok(lists)
}

/// A key that is a unique list of a table instance, where the line lacks it.
fn lacking_unique(
    alloc: Global,
    instances: &[TableInstance],
    classes: KnownClasses<'_>,
    line: MatchedLine<'_>,
    table: &TableInstance,
) -> Result<Option<Fact>, AllocError>
    ensures { IfOk result (λ found. spec.KeysTold instances.now (known classes.entry) (line_in line.entry) (λ L. by_table (Some table.now) (fact_.WeakKey L)) found) }
{
    let lists = unique_lists(alloc, table)?;
    let found = lacking_with(alloc, instances, classes, line, &[], lists.as_slice())?;
    Ok(found)
}

/// A key that is a unique list of the table instance of a number, where the line lacks it.
fn lacking_get(
    alloc: Global,
    instances: &[TableInstance],
    classes: KnownClasses<'_>,
    line: MatchedLine<'_>,
    instance: InstanceId,
) -> Result<Option<Fact>, AllocError>
    ensures { IfOk result (λ found. spec.KeysTold instances.now (known classes.entry) (line_in line.entry) (λ L. by_table (slice_get instances.now instance) (fact_.WeakKey L)) found) }
{
    match instances.get(instance as usize) {
        Some(table) => {
            let found = lacking_unique(alloc, instances, classes, line, table)?;
            Ok(found)
        }
        None => Ok(None),
    }
}

/// A key that is known of a class, or is all of its columns, and that the line lacks.
fn lacking_distinct(
    alloc: Global,
    instances: &[TableInstance],
    classes: KnownClasses<'_>,
    line: MatchedLine<'_>,
    class: ClassId,
) -> Result<Option<Fact>, AllocError>
    ensures { IfOk result (λ found. spec.KeysTold instances.now (known classes.entry) (line_in line.entry) (λ L. spec.is_key (known classes.entry) class L || is_same_set L ((known classes.entry).columns class)) found) }
{
    if let Some(fact) = lacking_known(alloc, instances, classes, line, class)? {
        return Ok(Some(fact));
    }
    let columns = classes.columns.columns_of(class);
    let found = lacking_key(alloc, instances, classes, line, columns, &[])?;
    Ok(found)
}

/// A key that the line may give by its operator, where the line lacks it.
fn lacking_by_line(
    alloc: Global,
    instances: &[TableInstance],
    classes: KnownClasses<'_>,
    line: MatchedLine<'_>,
) -> Result<Option<Fact>, AllocError>
    ensures { IfOk result (λ found. spec.KeysTold instances.now (known classes.entry) (line_in line.entry) (spec.may_be_key (known classes.entry) instances.now (line_in line.entry).expr) found) }
{
    match line.expr {
        Expr::Get(instance) => lacking_get(alloc, instances, classes, line, *instance),
        Expr::Select(_, x) | Expr::Keep(_, x) => lacking_known(alloc, instances, classes, line, *x),
        Expr::Join(_, a, b) | Expr::LeftJoin(_, a, b) => lacking_joined(
            alloc, instances, classes, line, *a, *b,
        ),
        Expr::Semi(_, a, _) | Expr::Anti(_, _, a, _) => lacking_known(
            alloc, instances, classes, line, *a,
        ),
        Expr::Distinct(x) => lacking_distinct(alloc, instances, classes, line, *x),
        Expr::Group(keys, _, _) => lacking_key(
            alloc,
            instances,
            classes,
            line,
            keys.as_slice(),
            &[],
        ),
    }
}

// ---- all facts

/// That one of the columns is nowhere Null, where the line lacks it.
fn lacking_column(
    instances: &[TableInstance],
    classes: KnownClasses<'_>,
    line: MatchedLine<'_>,
    mut columns: &[ColumnId],
) -> Option<Fact>
    ensures { spec.EachTold instances.now (known classes.entry) (line_in line.entry) (spec.HasColumn instances.now (known classes.entry) (line_in line.entry)) columns.entry.now result }
{
    'columns: while let [column, rest @ ..] = columns {
        let fact = Fact::NotNull(*column);
        if lacks(instances, classes, line, &fact) {
            return Some(fact);
        }
        columns = rest;
    }
    None
}

/// A fact that a line gives of its class, and that isn't known of it: that a column is nowhere Null, else a key. By what is known of what the line takes
/// there are few columns that may be a key of it, and these alone are looked at.
pub fn lacking_fact(
    alloc: Global,
    log: &Log<'_>,
    line: MatchedLine<'_>,
) -> Result<Option<Fact>, AllocError>
    ensures { IfOk result (λ found. spec.LineTold log.now.instances (knowledge log.now.instances log.now.log) (line_in line.entry) found) }
{
    let (instances, classes) = (log.instances(), log.classes());
    let columns = classes.columns.columns_of(line.class);
    if let Some(fact) = lacking_column(instances, classes, line, columns) {
        return Ok(Some(fact));
    }
    if let Some(fact) = lacking_known(alloc, instances, classes, line, line.class)? {
        return Ok(Some(fact));
    }
    let found = lacking_by_line(alloc, instances, classes, line)?;
    Ok(found)
}
