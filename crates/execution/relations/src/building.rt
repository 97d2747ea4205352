//! Relations that are made, and those of rows of others.

ghost use Rattle.std.specs.Prelude.{◌≡◌, List, [], ◌∷◌, length, map, IfOk};
ghost use Rattle.std.specs.List.{AllByRecursion};
ghost use Rattle.algebra.specs.Bags.{Env, lay};
ghost use Rattle.algebra.specs.Columns.{has};
ghost use Rattle.relations.specs.Relations.{IsOutput, numbered_env, rows_of};

use crate::headings::Heading;
use crate::parts::Part;
use crate::relation::Relation;
use crate::rows::Rows;
use algebra::Columns;
use std::alloc::{AllocError, Global};

impl<'t> Relation<'t> {
    /// Rows that were made with the columns, one part for each of these.
    pub fn made(
        alloc: Global,
        columns: Columns,
        count: usize,
        parts: Vec<Part<'t>>,
    ) -> Result<Relation<'t>, AllocError>
        requires even { AllByRecursion (λ part. length part ≡ count) parts.items }
        requires each { length parts.items ≡ length columns }
        ensures { (made : List Env) (e : Env) → length made ≡ count → parts.entry.items ≡ map (λ c. map (λ f. f c ∷ []) made) columns → IfOk result (IsOutput columns (map (λ f. lay (has columns) f e) made) e) }
    {
        let heading = Heading::of_parts(alloc, columns)?;
        Ok(Relation {
            heading,
            rows: Rows { count, parts },
        })
    }

    /// No rows and no columns.
    pub fn none(alloc: Global) -> Result<Relation<'t>, AllocError>
        ensures { (e : Env) → IfOk result (IsOutput [] [] e) }
    {
        Ok(Relation {
            heading: Heading::of_parts(alloc, Columns::from_vec(Vec::new(alloc)))?,
            rows: Rows::none(alloc),
        })
    }

    /// No rows, with these columns.
    pub fn without_rows(alloc: Global, columns: Columns) -> Result<Relation<'t>, AllocError>
        ensures { (e : Env) → IfOk result (IsOutput columns [] e) }
    {
        let heading = Heading::of_table(alloc, columns)?;
        let rows = Rows::of_part(alloc, Part::made(Vec::new(alloc)))?;
        Ok(Relation { heading, rows })
    }

    /// The rows with these numbers.
    pub fn chosen(self, alloc: Global, numbers: &[usize]) -> Result<Relation<'t>, AllocError>
        ensures columns { IfOk result (λ r. r.heading.columns ≡ self.entry.heading.columns) }
        ensures rows { (e : Env) → IfOk result (λ r. rows_of r e ≡ map (numbered_env self.entry e) numbers.now) }
    {
        let Relation { heading, rows } = self;
        let rows = rows.chosen(alloc, numbers)?;
        Ok(Relation { heading, rows })
    }
    /// The same, and this relation stays.
    pub fn picked(&self, alloc: Global, numbers: &[usize]) -> Result<Relation<'t>, AllocError>
        ensures columns { IfOk result (λ r. r.heading.columns ≡ self.now.heading.columns) }
        ensures rows { (e : Env) → IfOk result (λ r. rows_of r e ≡ map (numbered_env self.now e) numbers.now) }
    {
        let heading = self.heading.copy(alloc)?;
        let rows = self.rows.picked(alloc, numbers)?;
        Ok(Relation { heading, rows })
    }
}
