//! Selected rows with fewer columns.

ghost use Rattle.std.specs.Prelude.{map, IfOk};
ghost use Rattle.algebra.specs.Bags.{lay};
ghost use Rattle.algebra.specs.Columns.{has};
ghost use Rattle.relations.specs.Relations.{IsOutput, env_of};
ghost use Rattle.cursors.specs.Selected.{IsSelection, selected_envs};

use crate::selected::{SelectedRows, all_rows, fill_selected};
use algebra::Columns;
use relations::{Env, Heading, Relation};
use selections::projected as projected_relation;
use std::alloc::{AllocError, Global};

/// The relation of the selected rows alone.
fn drained<'p, 't: 'p>(
    alloc: Global,
    selected: SelectedRows<'p, 't>,
    env: &Env<'_, 't>,
) -> Result<Relation<'t>, AllocError>
    ensures { IfOk result (IsOutput selected.entry.relation.heading.columns (selected_envs env.now selected.entry) (env_of env.now)) }
{
    let mut numbers = Vec::new(alloc);
    let count = selected.relation.rows.count;
    fill_selected(&mut numbers, &selected, 0, count, env)?;
    let SelectedRows { relation, tests: _ } = selected;
    relation.chosen(alloc, numbers.as_slice())
}

/// The same rows with these columns alone. Where they lack one of these, which is then that of the environment, rows are made.
pub fn projected<'p, 't: 'p>(
    alloc: Global,
    columns: &Columns,
    selected: SelectedRows<'p, 't>,
    env: &Env<'_, 't>,
) -> Result<SelectedRows<'p, 't>, AllocError>
    ensures { IfOk result (IsSelection columns.now (map (λ r. lay (has columns.now) r (env_of env.now)) (selected_envs env.now selected.entry)) env.now) }
{
    let wanted = columns.as_slice();
    let places = selected.relation.heading.places_of(alloc, wanted)?;
    if places.as_slice().len() != wanted.len() {
        let relation = drained(alloc, selected, env)?;
        let relation = projected_relation(alloc, columns, relation, env)?;
        return Ok(all_rows(alloc, relation));
    }
    let columns = columns.copy(alloc)?;
    let SelectedRows { relation, tests } = selected;
    let Relation { heading: _, rows } = relation;
    let heading = Heading { columns, places };
    Ok(SelectedRows {
        relation: Relation { heading, rows },
        tests,
    })
}
