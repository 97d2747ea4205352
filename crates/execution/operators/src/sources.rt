//! What a plan reads: the tables, and those of their indexes that it reads again and again, each sorted once.

ghost use Rattle.std.specs.Prelude.{◌≡◌, [], slice_index_or, IfOk, IfSome, IsTrue};
ghost use Rattle.store.specs.Indexes.{IsIndex};
ghost use Rattle.operators.specs.Sources.{IsAccessed, IsSortedIndex};

use physical::indexes::has_index;
use physical::{IndexAccess, Node, Operator, Plan};
use query::TableInstance;
use std::alloc::{AllocError, Global};
use std::marker::Model;
use store::{RowSource, Table, index_of};
use values::Items;

/// No table of a database has more. The index of one that had would not be sorted.
const MOST_ROWS: usize = 1_000_000;

/// The numbers of a table's rows, sorted by the columns at some places.
#[derive(Drop)]
pub(crate) struct SortedIndex {
    table: usize,
    places: Items<usize>,
    numbers: Items<u32>,
}

impl SortedIndex {
    fn is_of(&self, table: usize, places: &[usize]) -> bool
        ensures table { IsTrue result → self.now.table ≡ table }
        ensures places { IsTrue result → self.now.places ≡ places.now }
    {
        self.table == table && self.places.as_slice() == places
    }
}

/// Tables, with indexes of theirs.
#[derive(Drop)]
pub struct IndexedTables<'t> {
    tables: &'t [Table],
    indexes: Vec<SortedIndex>,
}

impl<'t> Model for IndexedTables<'t> {
    ghost use Rattle.std.specs.Prelude.{List};
    ghost use Rattle.std.specs.List.{AllByRecursion};
    ghost use Rattle.schema.specs.Databases.{Row};
    ghost use Rattle.operators.specs.Sources.{IsSortedIndex};

    ghost Value = { List (List Row) };

    ghost view = { λ t. t.tables.now };

    ghost invariant = { λ t. AllByRecursion (IsSortedIndex t.tables.now) t.indexes.items };
}

/// The table instances of a query, and the tables.
#[derive(Clone, Copy)]
pub struct Sources<'q, 't> {
    pub instances: &'q [TableInstance],
    pub tables: &'q IndexedTables<'t>,
}

/// The index that a node reads, if it reads one.
fn access_of(node: &Node) -> Option<IndexAccess> {
    match node {
        Node::Implements {
            operator: Operator::IndexScan { access, .. } | Operator::IndexJoin { access, .. },
            ..
        } => Some(*access),
        _ => None,
    }
}

/// Whether the inputs of a node behind the first are run at each row of it.
fn has_subqueries(node: &Node) -> bool {
    matches!(
        node,
        Node::Implements {
            operator: Operator::FilterSubqueries { .. },
            ..
        }
    )
}

/// The indexes by which a plan scans or joins again and again, in subqueries. One that is read once isn't worth its sort: the rows that a scan
/// keeps are sorted, and a join goes by hash.
fn push_accesses(
    plan: &Plan,
    is_repeated: bool,
    accesses: &mut Vec<IndexAccess>,
) -> Result<(), AllocError> {
    if is_repeated {
        if let Some(access) = access_of(&plan.node) {
            accesses.push(access)?;
        }
    }
    let inputs = plan.inputs.as_slice();
    let has_subqueries = has_subqueries(&plan.node);
    for place in 0..inputs.len() {
        let is_repeated = is_repeated || (has_subqueries && place > 0);
        push_accesses(&inputs[place], is_repeated, accesses)?;
    }
    Ok(())
}

/// The index that is accessed, sorted; none where it is among these, or its table has no such index.
fn missing_index(
    alloc: Global,
    instances: &[TableInstance],
    tables: &[Table],
    indexes: &[SortedIndex],
    access: IndexAccess,
) -> Result<Option<SortedIndex>, AllocError>
    ensures { IfOk result (λ index. IfSome index (IsSortedIndex tables.now)) }
{
    let Some(instance) = instances.get(access.instance as usize) else {
        return Ok(None);
    };
    let Some(places) = instance.entry.indexes.as_slice().get(access.index as usize) else {
        return Ok(None);
    };
    let Some(rows) = tables.get(instance.table) else {
        return Ok(None);
    };
    let places = places.as_slice();
    if rows.len() > MOST_ROWS
        || indexes
            .iter()
            .any(|index| index.is_of(instance.table, places))
    {
        return Ok(None);
    }
    Ok(Some(SortedIndex {
        table: instance.table,
        places: Items::from_slice(alloc, places)?,
        numbers: index_of(alloc, rows, places)?,
    }))
}

impl<'t> IndexedTables<'t> {
    /// The tables, with the indexes by which a plan scans or joins in subqueries.
    pub fn for_plan(
        alloc: Global,
        tables: &'t [Table],
        instances: &[TableInstance],
        plan: &Plan,
    ) -> Result<IndexedTables<'t>, AllocError>
        ensures { IfOk result (λ t. t ≡ tables.entry.now) }
    {
        let mut accesses = Vec::new(alloc);
        push_accesses(plan, false, &mut accesses)?;
        let mut indexes = Vec::new(alloc);
        for access in accesses.as_slice() {
            if let Some(index) = missing_index(
                alloc,
                instances,
                tables,
                indexes.as_slice(),
                *access,
            )? {
                indexes.push(index)?;
            }
        }
        Ok(IndexedTables { tables, indexes })
    }

    pub(crate) fn as_slice(&self) -> &'t [Table]
        ensures { result.now ≡ self.now }
    {
        self.tables
    }

    /// The numbers of a table's rows, sorted by the columns at the places, where they have been sorted so.
    fn numbers_by(&self, table: usize, places: &[usize]) -> Option<&[u32]>
        ensures { IfSome result (λ numbers. IsIndex (slice_index_or self.now table []) places.now numbers.now) }
    {
        for index in self.indexes.as_slice() {
            if index.is_of(table, places) {
                return Some(index.numbers.as_slice());
            }
        }
        None
    }
}

impl<'q> Sources<'q, '_> {
    /// The numbers of the rows that are accessed, in the order of the index, where it was sorted.
    pub(crate) fn index_numbers(
        self,
        alloc: Global,
        access: IndexAccess,
    ) -> Result<Option<&'q [u32]>, AllocError>
        ensures { IfOk result (λ numbers. IfSome numbers (λ n. IsAccessed self.entry.instances.now self.entry.tables.now access n.now)) }
    {
        if !has_index(alloc, self.instances, access)? {
            return Ok(None);
        }
        let Some(instance) = self.instances.get(access.instance as usize) else {
            return Ok(None);
        };
        let Some(places) = instance.entry.indexes.as_slice().get(access.index as usize) else {
            return Ok(None);
        };
        Ok(self.tables.numbers_by(instance.table, places.as_slice()))
    }
}
