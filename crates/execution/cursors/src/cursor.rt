//! Cursors over plans.

ghost use Rattle.std.specs.Prelude.{◌≡◌, ◌⊎◌, map, IfOk, IfSome, IsErrAnd, Err, Some};
ghost use Rattle.schema.specs.declared.schema.Schema.{Schema};
ghost use Rattle.query.specs.Aggregates.{AreShortTables};
ghost use Rattle.query.specs.Rows.{tables_of};
ghost use Rattle.algebra.specs.Bags as bags;
ghost use Rattle.physical.specs.Outputs as outputs;
ghost use Rattle.operators.specs.Runnable.{IsRunnable};
ghost use Rattle.cursors.specs.Cursors.{IsLong, IsStep, opened};
ghost use Rattle.cursors.specs.declared.fault.RunFault.TheVariants as fault;

use crate::fault::RunFault;
use crate::lent_row::LentRow;
use crate::opening::opened_rows;
use crate::shown::{ShownRows, next_row, shown_rows};
use operators::Sources;
use physical::Plan;
use query::ColumnId;
use std::alloc::{AllocError, Global};
use std::marker::Model;

/// A cursor hands over no more rows.
const MOST_ROWS: u64 = 4_611_686_018_427_387_904;

/// The rows of a plan one after the other, in the columns that were asked. They are lent from the tables.
#[derive(Drop)]
pub struct Cursor<'p, 't> {
    shown: ShownRows<'p, 't>,
    /// The row that is lent, by its number among those at hand.
    current: Option<usize>,
    handed: u64,
    fault: Option<RunFault>,
}

impl<'p, 't> Model for Cursor<'p, 't> {
    ghost use Rattle.cursors.specs.Cursors.{Progress};

    ghost Value = { Progress };

    ghost use Rattle.cursors.specs.Progress.{current_row};
    ghost use Rattle.cursors.specs.ShownRows.{shown_to_come};

    ghost view = { λ c. record { current = current_row c.shown.rows c.shown.places c.current; to_come = shown_to_come c.shown; handed = c.handed; fault = c.fault } };
}

impl<'p, 't: 'p> Cursor<'p, 't> {
    /// A cursor before the first of the rows that a plan produces where no column has a value, whatever else the schema of its tables
    /// says. Its groups aggregate stored values alone, whose numbers have 64 bits, so that no SUM passes 128.
    pub fn open(
        alloc: Global,
        plan: &'p Plan,
        sources: Sources<'_, 't>,
        columns: &[ColumnId],
    ) -> Result<Cursor<'p, 't>, AllocError>
        requires runnable { IsRunnable sources.instances.now plan.now }
        requires short { (S : Schema) → AreShortTables (tables_of S sources.tables.now) }
        ensures { (S : Schema) → IfOk result (λ cursor. cursor ≡ opened (map (λ r. map r columns.now) (outputs.output_rows sources.entry.instances.now (tables_of S sources.entry.tables.now) plan.now bags.nulls))) }
    {
        let opened = opened_rows(alloc, plan, sources)?;
        let shown = shown_rows(alloc, opened, columns)?;
        Ok(Cursor {
            shown,
            current: None,
            handed: 0,
            fault: None,
        })
    }

    /// Goes to the next row, if one is to come. After a fault it gives that fault from then on.
    pub fn advance(&mut self) -> Result<bool, RunFault>
        ensures step { IsStep self.old self.new result }
        ensures stays { IfSome self.old.fault (λ fault. result ≡ Err fault) }
        ensures many { IsErrAnd result (λ e. e ≡ fault.TooManyRows) → (self.old.fault ≡ Some fault.TooManyRows) ⊎ IsLong self.old }
    {
        self.current = None;
        if let Some(fault) = self.fault {
            return Err(fault);
        }
        match next_row(&mut self.shown) {
            Ok(Some(number)) => {
                if self.handed >= MOST_ROWS {
                    self.fault = Some(RunFault::TooManyRows);
                    return Err(RunFault::TooManyRows);
                }
                self.handed += 1;
                self.current = Some(number);
                Ok(true)
            }
            Ok(None) => Ok(false),
            Err(_) => {
                self.fault = Some(RunFault::Memory);
                Err(RunFault::Memory)
            }
        }
    }

    /// The row that it is at. There is none before the first, after the last and after a fault.
    pub fn row(&self) -> Option<LentRow<'_, 't>>
        ensures { result ≡ self.now.current }
    {
        let number = self.current?;
        Some(LentRow {
            rows: &self.shown.rows.selected.relation.rows,
            places: self.shown.places.as_slice(),
            number,
        })
    }
}
