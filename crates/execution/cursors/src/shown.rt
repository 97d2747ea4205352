//! The rows of a cursor, as they are shown: those at hand, and behind them those of chunks that are still to be made.

ghost use Rattle.std.specs.Prelude.{◌≡◌, ◌++◌, ℕ, List, [], map, IfOk};
ghost use Rattle.algebra.specs.Bags as bags;
ghost use Rattle.relations.specs.Relations.{column_place};
ghost use Rattle.relations.specs.declared.environment.Env.{Empty};
ghost use Rattle.cursors.specs.Chunks.{numbers_to_come};
ghost use Rattle.cursors.specs.Opened.{IsOpened};
ghost use Rattle.cursors.specs.Selected.{selected_envs};
ghost use Rattle.cursors.specs.ShownRows.{IsNextRow, IsRefilled, shown_chunks, shown_to_come};

use crate::chunks::{ChunkedRows, next_number};
use crate::opening::OpenedRows;
use crate::selected::{SelectedRows, all_rows};
use query::ColumnId;
use relations::{Env, Heading, Place, Relation};
use selections::RowChunks;
use std::alloc::{AllocError, Global};
use values::Items;

/// Rows in the columns that were asked.
#[derive(Drop)]
pub struct ShownRows<'p, 't> {
    pub alloc: Global,
    pub columns: Vec<ColumnId>,
    pub rows: ChunkedRows<'p, 't>,
    /// The place of each column in the rows at hand; none where these lack it, and it is Null.
    pub places: Items<Option<Place>>,
    pub more: Option<RowChunks<'p, 't>>,
}

/// The places of columns in rows under a heading; none of those that the rows lack.
pub fn places_under(
    alloc: Global,
    heading: &Heading,
    columns: &[ColumnId],
) -> Result<Items<Option<Place>>, AllocError>
    ensures { IfOk result (λ places. places ≡ map (column_place heading.now) columns.now) }
{
    let mut places = Vec::with_capacity(alloc, columns.len())?;
    for column in columns {
        places.push(heading.place_of(*column))?;
    }
    Ok(Items::from_vec(places))
}

/// Rows that are selected and, behind them, those of chunks.
fn shown_from<'p, 't: 'p>(
    alloc: Global,
    selected: SelectedRows<'p, 't>,
    more: Option<RowChunks<'p, 't>>,
    columns: &[ColumnId],
) -> Result<ShownRows<'p, 't>, AllocError>
    ensures { IfOk result (λ shown. shown_to_come shown ≡ map (λ e. map e columns.now) (selected_envs Empty selected.entry) ++ shown_chunks more.entry columns.now) }
{
    let mut asked = Vec::with_capacity(alloc, columns.len())?;
    asked.extend_from_slice(columns)?;
    let places = places_under(alloc, &selected.relation.heading, columns)?;
    let rows = ChunkedRows::new(alloc, selected)?;
    Ok(ShownRows {
        alloc,
        columns: asked,
        rows,
        places,
        more,
    })
}

/// Rows that are opened, in the columns that are asked.
pub fn shown_rows<'p, 't: 'p>(
    alloc: Global,
    opened: OpenedRows<'p, 't>,
    columns: &[ColumnId],
) -> Result<ShownRows<'p, 't>, AllocError>
    ensures { (K : List ℕ) (rows : List bags.Env) → IsOpened K rows opened.entry → IfOk result (λ shown. shown_to_come shown ≡ map (λ e. map e columns.now) rows) }
{
    match opened {
        OpenedRows::Selected(selected) => shown_from(alloc, selected, None, columns),
        OpenedRows::InChunks(chunks) => {
            let none = all_rows(alloc, Relation::none(alloc)?);
            shown_from(alloc, none, Some(chunks), columns)
        }
    }
}

/// Takes up the next chunk, and says whether there is one.
fn refill<'p, 't: 'p>(shown: &mut ShownRows<'p, 't>) -> Result<bool, AllocError>
    requires { numbers_to_come Empty shown.old.rows ≡ [] }
    ensures { IfOk result (IsRefilled shown.old shown.new) }
{
    let Some(more) = &mut shown.more else {
        return Ok(false);
    };
    let Some(chunk) = more.next_chunk(shown.alloc)? else {
        return Ok(false);
    };
    let selected = all_rows(shown.alloc, chunk);
    let heading = &selected.relation.heading;
    shown.places = places_under(shown.alloc, heading, shown.columns.as_slice())?;
    shown.rows.restart(selected);
    Ok(true)
}

/// The number of the next row among those at hand, if one is to come.
pub fn next_row<'p, 't: 'p>(shown: &mut ShownRows<'p, 't>) -> Result<Option<usize>, AllocError>
    ensures { IfOk result (IsNextRow shown.old shown.new) }
{
    let mut number = next_number(&mut shown.rows, &Env::Empty)?;
    while number.is_none() {
        if !refill(shown)? {
            return Ok(None);
        }
        number = next_number(&mut shown.rows, &Env::Empty)?;
    }
    Ok(number)
}
