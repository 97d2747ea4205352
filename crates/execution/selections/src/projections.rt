//! Projections.

ghost use Rattle.std.specs.Prelude.{◌≡◌, [], ◌∷◌, map, IfOk};
ghost use Rattle.values.specs.Cells.{value_of};
ghost use Rattle.algebra.specs.Bags as bags;
ghost use Rattle.algebra.specs.Columns.{has};
ghost use Rattle.relations.specs.Relations.{IsOutput, env_of, rows_of};

use algebra::Columns;
use query::ColumnId;
use relations::{Env, Heading, Part, Relation, row_cell};
use std::alloc::{AllocError, Global};
use values::Cell;

/// The rows with these columns alone.
pub fn projected<'t>(
    alloc: Global,
    columns: &Columns,
    input: Relation<'t>,
    env: &Env<'_, 't>,
) -> Result<Relation<'t>, AllocError>
    ensures { IfOk result (IsOutput columns.now (bags.keep (has columns.now) (rows_of input.entry) (env_of env.now)) (env_of env.now)) }
{
    let wanted = columns.as_slice();
    let places = input.heading.places_of(alloc, wanted)?;
    if places.as_slice().len() != wanted.len() {
        return copied(alloc, columns, &input, env);
    }
    let columns = columns.copy(alloc)?;
    let Relation { heading: _, rows } = input;
    let heading = Heading { columns, places };
    Ok(Relation { heading, rows })
}

/// The same where the rows lack one of the columns: it is that of the environment.
fn copied<'t>(
    alloc: Global,
    columns: &Columns,
    input: &Relation<'t>,
    env: &Env<'_, 't>,
) -> Result<Relation<'t>, AllocError>
    ensures { IfOk result (IsOutput columns.now (bags.keep (has columns.now) (rows_of input.now) (env_of env.now)) (env_of env.now)) }
{
    let parts = copies(alloc, columns.as_slice(), input, env)?;
    Relation::made(alloc, columns.copy(alloc)?, input.rows.count, parts)
}

/// The columns as they are in the environment of each row.
fn copies<'t>(
    alloc: Global,
    columns: &[ColumnId],
    input: &Relation<'t>,
    env: &Env<'_, 't>,
) -> Result<Vec<Part<'t>>, AllocError>
    ensures { IfOk result (λ parts. parts.items ≡ map (λ c. map (λ f. f c ∷ []) (rows_of input.now (env_of env.now))) columns.now) }
{
    let mut parts = Vec::with_capacity(alloc, columns.len())?;
    for column in columns {
        let cells = column_cells(alloc, *column, input, env)?;
        parts.push(Part::made(cells))?;
    }
    Ok(parts)
}

/// A column as it is in the environment of each row.
fn column_cells<'t>(
    alloc: Global,
    column: ColumnId,
    input: &Relation<'t>,
    env: &Env<'_, 't>,
) -> Result<Vec<Cell<'t>>, AllocError>
    ensures { IfOk result (λ cells. map value_of cells.items ≡ map (λ f. f column) (rows_of input.now (env_of env.now))) }
{
    let mut cells = Vec::with_capacity(alloc, input.rows.count)?;
    for number in 0..input.rows.count {
        cells.push(row_cell(input, number, env, column))?;
    }
    Ok(cells)
}
