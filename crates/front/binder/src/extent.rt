//! How large a statement is, before any name is looked up.

ghost use Rattle.std.specs.Prelude.{◌≡◌, map, fold, option_map, IfOk};
ghost use Rattle.binder.specs.Extents as spec;

use crate::having::having_tests;
use crate::scope::find_table;
use crate::sums::sum;
use schema::Schema;
use sql_parse::statement::{Chain, Condition, Join, Select, TableName};
use std::alloc::AllocError;
use values::Boxed;

/// The most table instances of a statement, those in subqueries among them.
pub const MAX_TABLES: usize = 24;
/// The most queries that stand in one another; the outermost is one of them.
pub const MAX_LEVELS: usize = 8;
/// The most comparisons, IS NULL, IN and EXISTS tests of a statement.
pub const MAX_TESTS: usize = 1024;

/// The size of a part of a statement.
#[derive(Clone, Copy)]
pub struct Extent {
    /// Table instances.
    pub tables: usize,
    /// The columns of those tables that the schema has.
    pub columns: usize,
    /// How many SELECTs stand in one another at most.
    pub levels: usize,
    /// Comparisons, IS NULL, IN and EXISTS.
    pub tests: usize,
}

const NOTHING: Extent = Extent {
    tables: 0,
    columns: 0,
    levels: 0,
    tests: 0,
};

const ONE_TEST: Extent = Extent {
    tables: 0,
    columns: 0,
    levels: 0,
    tests: 1,
};

impl Extent {
    /// Of two parts, neither of which stands in the other.
    fn beside(self, other: Extent) -> Result<Extent, AllocError>
        ensures { IfOk result (λ both. both ≡ spec.beside self other) }
    {
        Ok(Extent {
            tables: sum(self.tables, other.tables)?,
            columns: sum(self.columns, other.columns)?,
            levels: if self.levels < other.levels {
                other.levels
            } else {
                self.levels
            },
            tests: sum(self.tests, other.tests)?,
        })
    }

    pub fn is_within(self) -> bool
        ensures { result ≡ spec.is_within self }
    {
        self.tables <= MAX_TABLES && self.levels <= MAX_LEVELS && self.tests <= MAX_TESTS
    }
}

fn of_table(schema: &Schema, table: &TableName) -> Extent
    ensures { result ≡ spec.one_table schema.now table.now }
{
    let columns = match find_table(schema, table.name.text.as_str()) {
        Some((_, entry)) => entry.columns.len(),
        None => 0,
    };
    Extent {
        tables: 1,
        columns,
        levels: 0,
        tests: 0,
    }
}

#[cycle(extents)]
fn of_condition(schema: &Schema, condition: &Condition) -> Result<Extent, AllocError>
    ensures { IfOk result (λ extent. extent ≡ spec.of_condition schema.now condition.now) }
{
    match condition {
        Condition::Compare(_, _, _) => Ok(ONE_TEST),
        Condition::IsNull(_) => Ok(ONE_TEST),
        Condition::Not(part) => of_condition(schema, part.get()),
        Condition::And(parts) => of_conditions(schema, parts.as_slice()),
        Condition::Or(parts) => of_conditions(schema, parts.as_slice()),
        Condition::Exists(query) => ONE_TEST.beside(of_select(schema, query.get())?),
        Condition::In(_, _, query) => ONE_TEST.beside(of_select(schema, query.get())?),
    }
}

#[cycle(extents)]
fn of_conditions(schema: &Schema, conditions: &[Condition]) -> Result<Extent, AllocError>
    ensures { IfOk result (λ extent. extent ≡ spec.all_of (map (spec.of_condition schema.now) conditions.now)) }
{
    let mut all = NOTHING;
    for condition in conditions {
        all = all.beside(of_condition(schema, condition)?)?;
    }
    Ok(all)
}

#[cycle(extents)]
fn of_filter(schema: &Schema, filter: &Option<Boxed<Condition>>) -> Result<Extent, AllocError>
    ensures { IfOk result (λ extent. extent ≡ spec.of_filter (option_map (spec.of_condition schema.now) filter.now)) }
{
    match filter {
        Some(condition) => of_condition(schema, condition.get()),
        None => Ok(NOTHING),
    }
}

#[cycle(extents)]
fn of_join(schema: &Schema, join: &Join) -> Result<Extent, AllocError>
    ensures { IfOk result (λ extent. extent ≡ spec.of_join schema.now join.now) }
{
    of_table(schema, &join.table).beside(of_condition(schema, join.condition.get())?)
}

#[cycle(extents)]
fn of_joins(schema: &Schema, joins: &[Join]) -> Result<Extent, AllocError>
    ensures { IfOk result (λ extent. extent ≡ spec.all_of (map (spec.of_join schema.now) joins.now)) }
{
    let mut all = NOTHING;
    for join in joins {
        all = all.beside(of_join(schema, join)?)?;
    }
    Ok(all)
}

#[cycle(extents)]
fn of_chain(schema: &Schema, chain: &Chain) -> Result<Extent, AllocError>
    ensures { IfOk result (λ extent. extent ≡ spec.of_chain schema.now chain.now) }
{
    of_table(schema, &chain.table).beside(of_joins(schema, chain.joins.as_slice())?)
}

#[cycle(extents)]
fn of_chains(schema: &Schema, chains: &[Chain]) -> Result<Extent, AllocError>
    ensures { IfOk result (λ extent. extent ≡ spec.all_of (map (spec.of_chain schema.now) chains.now)) }
{
    let mut all = NOTHING;
    for chain in chains {
        all = all.beside(of_chain(schema, chain)?)?;
    }
    Ok(all)
}

/// The size of a SELECT with all that stands in it.
#[cycle(extents)]
pub fn of_select(schema: &Schema, select: &Select) -> Result<Extent, AllocError>
    ensures { IfOk result (λ extent. extent ≡ spec.of_select schema.now select.now) }
{
    let from = of_chains(schema, select.from.as_slice())?;
    let inside = from.beside(of_filter(schema, &select.filter)?)?;
    Ok(Extent {
        tables: inside.tables,
        columns: inside.columns,
        levels: sum(inside.levels, 1)?,
        tests: sum(inside.tests, having_tests(&select.having)?)?,
    })
}
