//! What statistics are.

use values::Items;

/// What is known of an index.
#[derive(Drop)]
pub struct IndexStatistics {
    /// How many different keys it has.
    pub keys: u64,
    pub pages: u64,
}

/// What is known of a table, its indexes in the order of its entry in the schema.
#[derive(Drop)]
pub struct TableStatistics {
    pub rows: u64,
    pub pages: u64,
    pub indexes: Items<IndexStatistics>,
    /// Of each column in the schema's order how many different keys it has, Null left out, if that is known.
    pub column_keys: Items<Option<u64>>,
}

/// A column of a table of a schema, by the table's number there and the column's in the table.
#[derive(Clone, Copy)]
pub struct TableColumn {
    pub table: usize,
    pub place: usize,
}

/// What is known of the tables of a schema, in its order.
#[derive(Drop)]
pub struct Statistics {
    pub tables: Items<TableStatistics>,
}
