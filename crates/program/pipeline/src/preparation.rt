//! What a query is asked of: its bound form, and the loaded tables.

ghost use Rattle.std.specs.Prelude.{◌≡◌, ◌≤◌, length, map, IfOk, IfErr, OnOk};
ghost use Rattle.pipeline.specs.EndToEnd.{IsQuery, IsNoQuery, TablesReported, IsLoadFault, IsFromFiles, IsPrepared, IsUnprepared, IsDeviceFault, AreQuiet};

use crate::refusal::Refusal;
use binder::bind;
use query::BoundQuery;
use schema::Schema;
use sql_parse::parse_bytes;
use std::alloc::Global;
use store::{Database, TableInput};

/// A query over the tables that its inputs gave.
#[derive(Drop)]
pub(crate) struct Prepared<'s> {
    pub query: BoundQuery,
    pub database: Database<'s>,
}

/// Loads the tables, one input each in the order of the schema.
fn load_all<R: TableInput>(
    alloc: Global,
    database: &mut Database<'_>,
    tables: &mut [R],
) -> Result<(), Refusal>
    requires loaded { length tables.old ≤ length database.old.tables }
    requires schema { length tables.old ≤ length database.old.schema.tables }
    ensures schema { database.new.schema ≡ database.old.schema }
    ensures reported { OnOk result (TablesReported database.old.schema (map R.remaining tables.old) (length tables.old) database.new.tables) }
    ensures fails { IfErr result (IsLoadFault database.old.schema (map R.remaining tables.old)) }
    ensures device { IfErr result (IsDeviceFault (map R.failures tables.old) (map R.failures tables.new) 0 0) }
    ensures quiet { OnOk result (AreQuiet (map R.failures tables.old) (map R.failures tables.new)) }
{
    for number in 0..tables.len() {
        if let Err(fault) = database.load(alloc, number, &mut tables[number]) {
            return Err(Refusal::of_table(number, fault));
        }
    }
    Ok(())
}

/// The query that a text is.
pub(crate) fn bound_query(
    alloc: Global,
    schema: &Schema,
    text: &[u8],
) -> Result<BoundQuery, Refusal>
    ensures ok { IfOk result (IsQuery text.now schema.now) }
    ensures fails { IfErr result (IsNoQuery text.now schema.now) }
{
    let statement = parse_bytes(alloc, text)?;
    match bind(alloc, schema, &statement) {
        Ok(query) => Ok(query),
        Err(fault) => Err(Refusal::from(fault)),
    }
}

/// The database of the tables that the inputs give, one each in the order of the schema.
pub(crate) fn loaded<'s, R: TableInput>(
    alloc: Global,
    schema: &'s Schema,
    tables: &mut [R],
) -> Result<Database<'s>, Refusal>
    requires { length tables.old ≡ length schema.now.tables }
    ensures loaded { IfOk result (IsFromFiles schema.now (map R.remaining tables.old)) }
    ensures fails { IfErr result (IsLoadFault schema.now (map R.remaining tables.old)) }
    ensures device { IfErr result (IsDeviceFault (map R.failures tables.old) (map R.failures tables.new) 0 0) }
    ensures quiet { OnOk result (AreQuiet (map R.failures tables.old) (map R.failures tables.new)) }
{
    let mut database = Database::new(alloc, schema)?;
    load_all(alloc, &mut database, tables)?;
    Ok(database)
}

/// Reads the text and loads the tables, one input each in the order of the schema.
pub(crate) fn prepare<'s, R: TableInput>(
    alloc: Global,
    schema: &'s Schema,
    text: &[u8],
    tables: &mut [R],
) -> Result<Prepared<'s>, Refusal>
    requires { length tables.old ≡ length schema.now.tables }
    ensures prepared { IfOk result (λ p. IsPrepared schema.now text.now (map R.remaining tables.old) p.query p.database) }
    ensures refused { IfErr result (IsUnprepared schema.now text.now (map R.remaining tables.old)) }
    ensures device { IfErr result (IsDeviceFault (map R.failures tables.old) (map R.failures tables.new) 0 0) }
    ensures quiet { OnOk result (AreQuiet (map R.failures tables.old) (map R.failures tables.new)) }
{
    let query = bound_query(alloc, schema, text)?;
    let database = loaded(alloc, schema, tables)?;
    Ok(Prepared { query, database })
}
