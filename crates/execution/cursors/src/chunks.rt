//! Selected rows that are looked up a chunk at a time. A chunk is made once, with room for all of its rows, and filled again and again.

ghost use Rattle.std.specs.Prelude.{◌≡◌, ◌++◌, ◌≤◌, [], length, IfOk, OnOk};
ghost use Rattle.relations.specs.declared.environment.Env as lent;
ghost use Rattle.cursors.specs.Chunks.{IsNextNumber, numbers_to_come, selected_from};
ghost use Rattle.cursors.specs.Selected.{selected_numbers};

use crate::selected::{SelectedRows, fill_selected};
use relations::Env;
use std::alloc::{AllocError, Global};

/// How many rows are tested at a time.
const CHUNK: usize = 1024;

/// Selected rows, some of which have been handed over.
#[derive(Drop)]
pub struct ChunkedRows<'p, 't> {
    pub selected: SelectedRows<'p, 't>,
    /// The first row of the relation that hasn't been tested.
    pub next: usize,
    /// The numbers of the rows that passed.
    pub chunk: Vec<usize>,
    /// How many of these have been handed over.
    pub handed: usize,
}

/// Fills a chunk with the numbers of the next rows that pass, from one row on. It gives the first row that hasn't been tested then. The
/// chunk is empty only where none passes.
fn filled<'p, 't: 'p>(
    chunk: &mut Vec<usize>,
    selected: &SelectedRows<'p, 't>,
    start: usize,
    env: &Env<'_, 't>,
) -> Result<usize, AllocError>
    ensures numbers { IfOk result (λ next. selected_from env.now selected.now start ≡ chunk.new.items ++ selected_from env.now selected.now next) }
    ensures last { IfOk result (λ next. chunk.new.items ≡ [] → selected_from env.now selected.now next ≡ []) }
{
    let count = selected.relation.rows.count;
    chunk.clear();
    let mut next = start;
    while chunk.is_empty() && next < count {
        let end = next + CHUNK.min(count - next);
        fill_selected(chunk, selected, next, end, env)?;
        next = end;
    }
    Ok(next)
}

impl<'p, 't: 'p> ChunkedRows<'p, 't> {
    /// None of the rows has been handed over.
    pub fn new(
        alloc: Global,
        selected: SelectedRows<'p, 't>,
    ) -> Result<ChunkedRows<'p, 't>, AllocError>
        ensures selected { IfOk result (λ c. c.selected ≡ selected.entry) }
        ensures numbers { (e : lent.Env) → IfOk result (λ c. numbers_to_come e c ≡ selected_numbers e selected.entry) }
    {
        let chunk = Vec::with_capacity(alloc, CHUNK)?;
        Ok(ChunkedRows {
            selected,
            next: 0,
            chunk,
            handed: 0,
        })
    }
}

impl<'p, 't: 'p> ChunkedRows<'p, 't> {
    /// Goes on with other rows, none of which has been handed over.
    pub fn restart(&mut self, selected: SelectedRows<'p, 't>)
        ensures selected { self.new.selected ≡ selected.entry }
        ensures numbers { (e : lent.Env) → numbers_to_come e self.new ≡ selected_numbers e selected.entry }
    {
        self.selected = selected;
        self.next = 0;
        self.chunk.clear();
        self.handed = 0;
    }
}

/// Looks up the next chunk where the last one has been handed over.
fn look_up<'p, 't: 'p>(rows: &mut ChunkedRows<'p, 't>, env: &Env<'_, 't>) -> Result<(), AllocError>
    ensures selected { rows.new.selected ≡ rows.old.selected }
    ensures numbers { OnOk result (numbers_to_come env.now rows.new ≡ numbers_to_come env.now rows.old) }
    ensures last { OnOk result (length rows.new.chunk.items ≤ rows.new.handed → numbers_to_come env.now rows.new ≡ []) }
{
    if rows.handed < rows.chunk.len() {
        return Ok(());
    }
    rows.next = filled(&mut rows.chunk, &rows.selected, rows.next, env)?;
    rows.handed = 0;
    Ok(())
}

/// The number of the next row, if one is to come.
pub fn next_number<'p, 't: 'p>(
    rows: &mut ChunkedRows<'p, 't>,
    env: &Env<'_, 't>,
) -> Result<Option<usize>, AllocError>
    ensures selected { rows.new.selected ≡ rows.old.selected }
    ensures number { IfOk result (IsNextNumber env.now rows.old rows.new) }
{
    look_up(rows, env)?;
    if rows.handed < rows.chunk.len() {
        let number = rows.chunk[rows.handed];
        rows.handed += 1;
        return Ok(Some(number));
    }
    Ok(None)
}
