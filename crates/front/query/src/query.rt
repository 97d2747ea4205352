//! Bound queries as plain data.

use schema::Table;
use values::{Boxed, Comparison, Items, Literal, Text};

/// The number of a column, which is its own throughout a query: those of the table instances come first, in the order of the
/// text, and then those of its aggregates.
pub type ColumnId = u32;

/// The number of a table instance, from 0 in the order of the text, those in subqueries among them.
pub type InstanceId = u32;

/// The column at a place of the row at a level. Level 0 is the innermost row: that of the block's own FROM, and in an ON
/// the row of the join's two sides. Level 1 is the row of the enclosing block, and so on.
#[derive(Clone, Copy)]
pub struct Column {
    pub level: usize,
    pub place: usize,
}

#[derive(Drop)]
pub enum Term {
    Column(Column),
    Literal(Literal),
}

/// A condition. `x IS NOT NULL` is `Not` of `IsNull`, and `x NOT IN Q` is `Not` of `In`.
#[cycle(block)]
#[derive(Drop)]
pub enum Cond {
    Compare(Comparison, Term, Term),
    IsNull(Term),
    Not(Boxed<Cond>),
    And(Items<Cond>),
    Or(Items<Cond>),
    Exists(Boxed<Block>),
    In(Term, Boxed<Block>),
}

/// The name by which a FROM refers to a table instance: its number.
#[derive(Clone, Copy)]
pub struct TableReference {
    pub number: InstanceId,
    /// The table's place in the schema.
    pub table: usize,
}

#[cycle(block)]
#[derive(Drop)]
pub enum From {
    Table(TableReference),
    /// `FROM .. JOIN table ON condition`
    Join(Boxed<From>, TableReference, Boxed<Cond>),
    /// `FROM .. LEFT JOIN table ON condition`
    LeftJoin(Boxed<From>, TableReference, Boxed<Cond>),
    /// A comma: all before it, and the chain of joins after it, whose ONs see that chain alone.
    Comma(Boxed<From>, Boxed<From>),
}

/// An aggregate of a column of the block's own FROM, which is named by its place.
#[derive(Clone, Copy, PartialEq, Eq)]
pub enum Aggregate {
    CountRows,
    Count(u32),
    Sum(u32),
    Min(u32),
    Max(u32),
}

#[derive(Clone, Copy)]
pub enum Item {
    Column(Column),
    /// An aggregate, and the column that it has.
    Aggregate(ColumnId, Aggregate),
}

/// A SELECT without its ORDER BY: a query block, which may also stand as a subquery.
#[cycle(block)]
#[derive(Drop)]
pub struct Block {
    pub from: From,
    pub filter: Option<Boxed<Cond>>,
    /// Whether it has GROUP BY, HAVING or an aggregate.
    pub grouped: bool,
    /// The GROUP BY columns, by their places in the own FROM.
    pub keys: Items<usize>,
    /// What HAVING asks of each group. It sees one row alone, which has what `having_items` shows of the group.
    pub having: Option<Boxed<Cond>>,
    /// What HAVING names, in the order of the text.
    pub having_items: Items<Item>,
    pub items: Items<Item>,
    pub distinct: bool,
}

/// A key of ORDER BY: the place of an item, which is a column.
#[derive(Clone, Copy)]
pub struct SortKey {
    pub item: usize,
    pub descending: bool,
}

/// What the text says of a table instance.
#[derive(Drop)]
pub struct TableInstance {
    /// The table's place in the schema.
    pub table: usize,
    /// Its entry in the schema.
    pub entry: Table,
    /// The name by which columns name it: its alias, or the table's name.
    pub name: Text,
    /// The number of its first column. The others follow in the order of the schema.
    pub first_column: ColumnId,
}

/// A bound query.
pub struct Query {
    /// The table instances, by their numbers.
    pub tables: Items<TableInstance>,
    pub block: Block,
    /// The items' output names.
    pub names: Items<Text>,
    pub order: Items<SortKey>,
}

// By hand, so that crates above drop a query by one call.
impl Drop for Query {
    fn drop(self) {
        let Query {
            tables: _,
            block: _,
            names: _,
            order: _,
        } = self;
    }
}
