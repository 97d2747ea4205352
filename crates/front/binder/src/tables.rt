//! Table instances, and the numbers that they and the aggregates of a text get.

ghost use Rattle.std.specs.Prelude.{◌≡◌, IfOk, OnOk};
ghost use Rattle.values.specs.Faults.{Gives};
ghost use Rattle.binder.specs.Numbers as spec;

use crate::fault::{BindFault, BindReason, refused};
use crate::scope::{Scope, find_table, known_name};
use query::ids::id_of;
use query::{TableInstance, TableReference};
use schema::{Schema, Table};
use sql_parse::statement::TableName;
use std::alloc::{AllocError, Global};
use values::{Items, Text};

/// What has a number so far.
#[derive(Drop)]
pub struct Numbered {
    /// The table instances, in the order of the text.
    pub tables: Items<TableInstance>,
    /// The number of the next instance's first column.
    pub next_column: usize,
    /// The number of the next aggregate.
    pub next_aggregate: usize,
}

impl Numbered {
    /// A table instance gets its number, and its columns theirs.
    fn push(
        &mut self,
        alloc: Global,
        table: usize,
        entry: &Table,
        name: &Text,
    ) -> Result<TableReference, AllocError>
        ensures reference { IfOk result (λ o. o ≡ spec.next_reference self.old table) }
        ensures pushed { OnOk result (self.new ≡ spec.with_table self.old table entry.now name.now) }
    {
        let number = id_of(self.tables.len())?;
        let first_column = id_of(self.next_column)?;
        let next_column = self.next_column.checked_add(entry.columns.len());
        let name = name.copy(alloc)?;
        let entry = entry.copy(alloc)?;
        self.tables.push(TableInstance {
            table,
            entry,
            name,
            first_column,
        })?;
        self.next_column = next_column.ok_or(AllocError)?;
        Ok(TableReference { number, table })
    }

    /// So many aggregates get numbers.
    pub fn push_aggregates(&mut self, count: usize) -> Result<(), AllocError>
        ensures { OnOk result (self.new ≡ spec.with_aggregates self.old count) }
    {
        self.next_aggregate = self.next_aggregate.checked_add(count).ok_or(AllocError)?;
        Ok(())
    }
}

/// A table that a FROM names joins the instances of its chain. Those of the chains before it have other names.
#[tactic(auto, unfolding(crate::specs::Numbers::enter))]
pub fn enter<'s>(
    alloc: Global,
    schema: &'s Schema,
    before: &Scope<'s>,
    chain: Scope<'s>,
    table: &'s TableName,
    numbered: &mut Numbered,
) -> Result<(TableReference, Scope<'s>), BindFault>
    ensures { Gives (λ x. (x.0, x.1, numbered.new)) result (spec.enter schema.entry.now before.now chain.entry table.entry.now numbered.old) }
{
    let Some((place, entry)) = find_table(schema, table.name.text.as_str()) else {
        return Err(refused(BindReason::UnknownTable, table.name.at));
    };
    let name = known_name(table);
    if before.has(name.text.as_str()) || chain.has(name.text.as_str()) {
        return Err(refused(BindReason::RepeatedName, name.at));
    }
    let reference = numbered.push(alloc, place, entry, &name.text)?;
    let chain = chain.with(name.text.as_str(), entry)?;
    Ok((reference, chain))
}
