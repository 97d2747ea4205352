//! Aggregates of values that come one by one.

ghost use Rattle.std.specs.Prelude.{◌≡◌, ◌+◌, ◌*◌, ◌^◌, ◌<◌, ◌≤◌, ◌++◌, List, [], ◌∷◌, MatchOption};
ghost use Rattle.values.specs.declared.value.Value.{Value};
ghost use Rattle.values.specs.Cells.{value_of};
ghost use Rattle.query.specs.Aggregates as spec;

use crate::query::Aggregate;
use std::cmp::Ordering;
use values::{Cell, order};

/// The lesser of two values, where neither is Null.
pub fn lesser<'t>(v: Cell<'t>, w: Cell<'t>) -> Cell<'t>
    ensures { value_of result ≡ spec.lesser (value_of v.entry) (value_of w.entry) }
{
    match (v, w) {
        (Cell::Null, _) => w,
        (_, Cell::Null) => v,
        _ => if order(v, w) == Ordering::Greater {
            w
        } else {
            v
        },
    }
}

/// The greater of two values; Null is the least in the order.
pub fn greater<'t>(v: Cell<'t>, w: Cell<'t>) -> Cell<'t>
    ensures { value_of result ≡ spec.greater (value_of v.entry) (value_of w.entry) }
{
    if order(v, w) == Ordering::Greater {
        v
    } else {
        w
    }
}

/// The sum of two numbers; what is no number adds nothing. None where it doesn't fit 128 bits.
pub fn plus<'t>(v: Cell<'t>, w: Cell<'t>) -> Option<Cell<'t>>
    ensures { MatchOption result (spec.IsHeld (spec.plus (value_of v.entry) (value_of w.entry)) → ⊥)
        (λ total. value_of total ≡ spec.plus (value_of v.entry) (value_of w.entry)) }
{
    match (v, w) {
        (Cell::Int(m), Cell::Int(n)) => Some(Cell::Int(m.checked_add(n)?)),
        (Cell::Int(m), _) => Some(Cell::Int(m)),
        (_, w) => Some(w),
    }
}

/// The column that an aggregate reads; COUNT(*) reads none, and any serves.
pub fn column_of(of: Aggregate) -> u32
    ensures { result ≡ spec.column_of of }
{
    match of {
        Aggregate::CountRows => 0,
        Aggregate::Count(column) => column,
        Aggregate::Sum(column) => column,
        Aggregate::Min(column) => column,
        Aggregate::Max(column) => column,
    }
}

/// What a COUNT or a SUM adds for a value.
fn summand<'t>(of: Aggregate, cell: Cell<'t>) -> Cell<'t>
    ensures { value_of result ≡ spec.summand of (value_of cell.entry) }
{
    match of {
        Aggregate::CountRows => Cell::Int(1),
        Aggregate::Count(_) => if cell.is_null() {
            Cell::Null
        } else {
            Cell::Int(1)
        },
        Aggregate::Sum(_) => cell,
        Aggregate::Min(_) | Aggregate::Max(_) => Cell::Null,
    }
}

/// An aggregate of one value more, given that of the values of so many rows before it. Numbers of 64 bits don't pass 128 in fewer than 2^64 rows.
pub fn one_more<'t>(of: Aggregate, cell: Cell<'t>, so_far: Cell<'t>, rows: usize) -> Cell<'t>
    requires few { rows + 1 < 2 ^ 64 }
    requires small { spec.size_of of (value_of so_far) ≤ rows * 2 ^ 63 }
    requires read { spec.MayRead of (λ place. value_of cell) }
    ensures value { value_of result ≡ spec.one_more of (value_of cell.entry) (value_of so_far.entry) }
{
    match of {
        Aggregate::Min(_) => lesser(cell, so_far),
        Aggregate::Max(_) => greater(cell, so_far),
        // Each row adds at most 2^63, and the rows are fewer than 2^64.
        _ => plus(summand(of, cell), so_far).unwrap(),
    }
}

/// An aggregate of the values that came so far, one of each row.
#[derive(Clone, Copy)]
pub struct Running<'t> {
    of: Aggregate,
    rows: usize,
    so_far: Cell<'t>,
    ghost small: { spec.size_of of (value_of so_far) ≤ rows * 2 ^ 63 },
}

impl<'t> Running<'t> {
    ghost use Rattle.query.specs.Running.{IsAfter};

    /// Of no rows.
    pub fn new(of: Aggregate) -> Running<'t>
        ensures { IsAfter of [] result }
    {
        let so_far = match of {
            Aggregate::CountRows | Aggregate::Count(_) => Cell::Int(0),
            _ => Cell::Null,
        };
        Running {
            of,
            rows: 0,
            so_far,
        }
    }

    /// Takes the value of one row more.
    pub fn add(&mut self, cell: Cell<'t>)
        requires few { self.old.rows + 1 < 2 ^ 64 }
        requires read { spec.MayRead self.old.of (λ place. value_of cell) }
        ensures { (a : Aggregate) (vs : List Value) → IsAfter a vs self.old → IsAfter a (vs ++ value_of cell.entry ∷ []) self.new }
    {
        *self = Running {
            of: self.of,
            rows: self.rows + 1,
            so_far: one_more(self.of, cell, self.so_far, self.rows),
        };
    }

    /// What it is of the values so far.
    pub fn value(&self) -> Cell<'t>
        ensures { value_of result ≡ value_of self.now.so_far }
    {
        self.so_far
    }
}
