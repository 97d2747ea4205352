//! The tree of a statement of the whole language.

use crate::name::Name;
use values::{Boxed, Comparison, Items, Literal};

/// `name` or `table.name`
#[derive(Drop)]
pub struct ColumnName {
    pub table: Option<Name>,
    pub name: Name,
}

#[derive(Drop)]
pub enum Term {
    Column(ColumnName),
    Literal(Literal),
}

#[derive(Clone, Copy)]
pub struct Operator {
    pub comparison: Comparison,
    /// Its first byte in the text.
    pub at: usize,
}

/// A condition. `x IS NOT NULL` is `Not` of `IsNull`, and `x NOT IN Q` is `Not` of `In`. AND and OR have at least two
/// sides.
#[cycle(tree)]
#[derive(Drop)]
pub enum Condition {
    Compare(Term, Operator, Term),
    IsNull(Term),
    Not(Boxed<Condition>),
    And(Items<Condition>),
    Or(Items<Condition>),
    Exists(Boxed<Select>),
    /// The term, the first byte of IN in the text, and the subquery.
    In(Term, usize, Boxed<Select>),
}

#[derive(Clone, Copy)]
pub enum AggregateFunction {
    Count,
    Sum,
    Min,
    Max,
}

#[derive(Drop)]
pub struct AggregateCall {
    pub function: AggregateFunction,
    /// Its first byte in the text.
    pub at: usize,
    /// `None` in `COUNT(*)`.
    pub column: Option<ColumnName>,
}

#[derive(Drop)]
pub enum ItemValue {
    Column(ColumnName),
    Aggregate(AggregateCall),
}

/// `value [[AS] alias]`
#[derive(Drop)]
pub struct SelectItem {
    pub value: ItemValue,
    pub alias: Option<Name>,
}

/// What stands behind SELECT.
#[derive(Drop)]
pub enum SelectList {
    /// `*`, and its byte in the text.
    Star(usize),
    Items(Items<SelectItem>),
}

/// `table [[AS] alias]`
#[derive(Drop)]
pub struct TableName {
    pub name: Name,
    pub alias: Option<Name>,
}

#[derive(Clone, Copy)]
pub enum JoinKind {
    Inner,
    Left,
}

/// `JOIN table ON condition`
#[cycle(tree)]
#[derive(Drop)]
pub struct Join {
    pub kind: JoinKind,
    pub table: TableName,
    pub condition: Boxed<Condition>,
}

/// A table and what is joined to it, from the left.
#[cycle(tree)]
#[derive(Drop)]
pub struct Chain {
    pub table: TableName,
    pub joins: Items<Join>,
}

/// What HAVING compares.
#[derive(Drop)]
pub enum HavingTerm {
    Column(ColumnName),
    Aggregate(AggregateCall),
    Literal(Literal),
}

/// A condition of HAVING, which has no subquery. `x IS NOT NULL` is `Not` of `IsNull`. AND and OR have at least two sides.
#[cycle(having)]
#[derive(Drop)]
pub enum HavingCondition {
    Compare(HavingTerm, Operator, HavingTerm),
    IsNull(HavingTerm),
    Not(Boxed<HavingCondition>),
    And(Items<HavingCondition>),
    Or(Items<HavingCondition>),
}

/// `SELECT .. FROM .. WHERE .. GROUP BY .. HAVING ..`, which may also stand as a subquery.
#[cycle(tree)]
#[derive(Drop)]
pub struct Select {
    pub distinct: bool,
    pub list: SelectList,
    pub from: Items<Chain>,
    pub filter: Option<Boxed<Condition>>,
    pub group: Items<ColumnName>,
    pub having: Option<Boxed<HavingCondition>>,
}

/// A key of ORDER BY.
#[derive(Drop)]
pub struct OrderKey {
    pub column: ColumnName,
    pub descending: bool,
}

pub struct Statement {
    pub select: Select,
    pub order: Items<OrderKey>,
}

// By hand, so that crates above drop a statement by one call.
impl Drop for Statement {
    fn drop(self) {
        let Statement {
            select: _,
            order: _,
        } = self;
    }
}
