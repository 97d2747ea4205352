//! What a schema is.

use values::{Items, Text};

/// What a column holds, beside Null.
#[derive(Clone, Copy, Debug, PartialEq, Eq)]
pub enum Kind {
    /// A whole number of 64 bits with a sign.
    Int,
    Text,
}

#[derive(Drop)]
pub struct Column {
    pub name: Text,
    pub kind: Kind,
    /// Whether no Null may stand in it.
    pub not_null: bool,
}

/// A table's entry. Its lists name columns by their places, from 0 in the order of `columns`.
#[derive(Drop)]
pub struct Table {
    pub name: Text,
    pub columns: Items<Column>,
    /// Lists of columns on which no two rows without a Null in them agree.
    pub unique: Items<Items<usize>>,
    /// Lists of columns by which an index is sorted.
    pub indexes: Items<Items<usize>>,
}

/// The tables that a query may name.
#[derive(Drop)]
pub struct Schema {
    pub tables: Items<Table>,
}
