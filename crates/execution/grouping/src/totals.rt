//! The aggregates of all rows, while these come a chunk at a time. None of the rows is kept.

ghost use Rattle.std.specs.Prelude.{◌≡◌, ◌+◌, ◌^◌, ◌<◌, ◌++◌, List, [], ◌∷◌, length, map, IfOk};
ghost use Rattle.std.specs.List.{AllByRecursion};
ghost use Rattle.values.specs.Cells.{value_of};
ghost use Rattle.query.specs.Aggregates as spec;
ghost use Rattle.query.specs.Running.{IsAfter};
ghost use Rattle.algebra.specs.Bags as bags;
ghost use Rattle.algebra.specs.Columns.{has};
ghost use Rattle.algebra.specs.Expressions as expressions;
ghost use Rattle.physical.specs.Origins.{AreReadable};
ghost use Rattle.relations.specs.Relations.{IsOutput, env_of, rows_of};
ghost use Rattle.grouping.specs.Totals.{AreTotals, IsHeld};

use algebra::{Aggregation, Columns};
use query::aggregates::{Running, column_of};
use query::{Aggregate, ColumnId};
use relations::{Env, Part, Relation, row_column};
use std::alloc::{AllocError, Global};
use values::Cell;

/// An aggregate with the values of more rows.
fn with_values<'t>(
    so_far: Running<'t>,
    of: Aggregate,
    chunk: &Relation<'t>,
    env: &Env<'_, 't>,
) -> Running<'t>
    ghost seen: { List bags.Env }
    requires few { chunk.now.rows.count < 2 ^ 64 → length seen + chunk.now.rows.count < 2 ^ 64 }
    requires read { AllByRecursion (spec.MayRead of) (rows_of chunk.now (env_of env.now)) }
    requires after { IsAfter of (map (λ e. e (spec.column_of of)) seen) so_far }
    ensures { IsAfter of (map (λ e. e (spec.column_of of)) (seen ++ rows_of chunk.now (env_of env.now))) result }
{
    let mut running = so_far;
    let column = row_column(chunk, env, column_of(of));
    for number in 0..chunk.rows.count {
        running.add(column.cell(number));
    }
    running
}

/// What is held of an aggregate with more rows. Their count needs none of them.
fn with_rows<'t>(
    so_far: Running<'t>,
    of: Aggregate,
    chunk: &Relation<'t>,
    env: &Env<'_, 't>,
) -> Running<'t>
    ghost seen: { List bags.Env }
    requires few { chunk.now.rows.count < 2 ^ 64 → length seen + chunk.now.rows.count < 2 ^ 64 }
    requires read { AllByRecursion (spec.MayRead of) (rows_of chunk.now (env_of env.now)) }
    requires held { IsHeld of seen so_far }
    ensures { IsHeld of (seen ++ rows_of chunk.now (env_of env.now)) result }
{
    match of {
        Aggregate::CountRows => so_far,
        Aggregate::Count(_) | Aggregate::Sum(_) | Aggregate::Min(_) | Aggregate::Max(_) => {
            with_values(so_far, of, chunk, env)
        }
    }
}

/// An aggregate of so many rows.
fn total_of<'t>(held: Running<'t>, of: Aggregate, count: usize) -> Cell<'t>
    ensures { (rows : List bags.Env) → count ≡ length rows → IsHeld of rows held.entry → value_of result ≡ spec.aggregate_of of (length rows) (λ k. map (λ r. r k) rows) }
{
    match of {
        Aggregate::CountRows => Cell::Int(i128::from(count as u64)),
        Aggregate::Count(_) | Aggregate::Sum(_) | Aggregate::Min(_) | Aggregate::Max(_) =>
            held.value(),
    }
}

/// How many rows came, and the aggregates of them.
#[derive(Drop)]
pub struct Totals<'t> {
    count: usize,
    running: Vec<Running<'t>>,
}

impl<'t> Totals<'t> {
    /// Of no rows.
    pub fn new(alloc: Global, added: &[Aggregation]) -> Result<Totals<'t>, AllocError>
        ensures { IfOk result (AreTotals added.now []) }
    {
        let mut running = Vec::with_capacity(alloc, added.len())?;
        for one in added {
            running.push(Running::new(one.aggregate))?;
        }
        Ok(Totals { count: 0, running })
    }

    /// How many rows came.
    pub fn count(&self) -> usize
        ensures { result ≡ self.now.count }
    {
        self.count
    }

    /// Takes in the rows of a chunk.
    pub fn add(&mut self, added: &[Aggregation], chunk: &Relation<'t>, env: &Env<'_, 't>)
        ghost seen: { List bags.Env }
        requires few { chunk.now.rows.count < 2 ^ 64 → length seen + chunk.now.rows.count < 2 ^ 64 }
        requires read { AreReadable added.now (rows_of chunk.now (env_of env.now)) }
        requires totals { AreTotals added.now seen self.old }
        ensures { AreTotals added.now (seen ++ rows_of chunk.now (env_of env.now)) self.new }
    {
        for (number, one) in added.iter().enumerate() {
            self.running[number] = with_rows(self.running[number], one.aggregate, chunk, env);
        }
        self.count += chunk.rows.count;
    }

    /// A column of the one group that the rows are.
    fn cell(&self, added: &[Aggregation], env: &Env<'_, 't>, column: ColumnId) -> Cell<'t>
        requires { length self.now.running.items ≡ length added.now }
        ensures { (rows : List bags.Env) → AreTotals added.now rows self.now → value_of result ≡ expressions.with_aggregates added.entry.now rows (env_of env.now) column }
    {
        for (number, one) in added.iter().enumerate() {
            if one.column == column {
                return total_of(self.running[number], one.aggregate, self.count);
            }
        }
        env.column(column)
    }

    /// The columns of that group.
    fn parts(
        &self,
        alloc: Global,
        added: &[Aggregation],
        columns: &[ColumnId],
        env: &Env<'_, 't>,
    ) -> Result<Vec<Part<'t>>, AllocError>
        requires { length self.now.running.items ≡ length added.now }
        ensures { (rows : List bags.Env) → AreTotals added.now rows self.now → IfOk result (λ parts. parts.items ≡ map (λ c. map (λ f. f c ∷ []) (expressions.with_aggregates added.entry.now rows (env_of env.now) ∷ [])) columns.now) }
    {
        let mut parts = Vec::with_capacity(alloc, columns.len())?;
        for column in columns {
            let mut cells = Vec::new(alloc);
            cells.push(self.cell(added, env, *column))?;
            parts.push(Part::made(cells))?;
        }
        Ok(parts)
    }

    /// The row of that group, also where there are no rows.
    pub fn row(
        &self,
        alloc: Global,
        added: &[Aggregation],
        columns: Columns,
        env: &Env<'_, 't>,
    ) -> Result<Relation<'t>, AllocError>
        requires { (rows : List bags.Env) × AreTotals added.now rows self.now }
        ensures { (rows : List bags.Env) → AreTotals added.now rows self.now → IfOk result (IsOutput columns (bags.lay (has columns) (expressions.with_aggregates added.entry.now rows (env_of env.now)) (env_of env.now) ∷ []) (env_of env.now)) }
    {
        let parts = self.parts(alloc, added, columns.as_slice(), env)?;
        Relation::made(alloc, columns, 1, parts)
    }
}
