//! Which tables a query names.

ghost use Rattle.std.specs.Prelude.{◌≡◌};
ghost use Rattle.named_tables.specs.Names.{names};

use query::Query;

/// Whether the query names the table with this number in the schema: in a FROM of its own, or of a subquery.
pub fn is_named(query: &Query, table: usize) -> bool
    ensures { result ≡ names query.now table }
{
    query
        .tables
        .as_slice()
        .iter()
        .any(|instance| instance.table == table)
}
