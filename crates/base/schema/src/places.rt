//! Lists of columns by their places.

ghost use Rattle.values.specs.Faults.{Gives};
ghost use Rattle.schema.specs.Places as spec;

use crate::copies::copy_columns;
use crate::each::{ReadsItem, each};
use crate::entries::TableEntry;
use crate::fault::{SchemaFault, SchemaRefusal};
use crate::names::place_of;
use crate::schema::{Column, Table};
use std::alloc::Global;
use values::{Items, Text};

/// Finds columns among those of a table.
#[derive(Drop)]
struct PlaceReader<'c> {
    columns: &'c [Column],
}

impl ReadsItem<Text> for PlaceReader<'_> {
    type Output = usize;

    ghost item_in = { λ reader name. spec.place_in reader.columns.now name };

    fn read_item(&self, _alloc: Global, item: &Text) -> Result<usize, SchemaFault> {
        match place_of(self.columns, item.as_str()) {
            Some(place) => Ok(place),
            None => Err(SchemaFault::Refused(SchemaRefusal::UnknownColumn)),
        }
    }
}

impl ReadsItem<Items<Text>> for PlaceReader<'_> {
    type Output = Items<usize>;

    ghost item_in = { λ reader names. spec.places_in reader.columns.now names };

    fn read_item(&self, alloc: Global, item: &Items<Text>) -> Result<Items<usize>, SchemaFault> {
        each(alloc, self, item.as_slice())
    }
}

/// Finds the columns of each table.
#[derive(Drop)]
pub struct TablePlacer;

impl ReadsItem<TableEntry> for TablePlacer {
    type Output = Table;

    ghost item_in = { λ _ entry. spec.placed entry };

    fn read_item(&self, alloc: Global, item: &TableEntry) -> Result<Table, SchemaFault> {
        placed(alloc, item)
    }
}

#[tactic(auto, unfolding(crate::specs::Places::placed))]
fn placed(alloc: Global, entry: &TableEntry) -> Result<Table, SchemaFault>
    ensures { Gives (λ x. x) result (spec.placed entry.now) }
{
    let reader = PlaceReader {
        columns: entry.columns.as_slice(),
    };
    let unique = each(alloc, &reader, entry.unique.as_slice())?;
    let indexes = each(alloc, &reader, entry.indexes.as_slice())?;
    let columns = copy_columns(alloc, entry.columns.as_slice())?;
    Ok(Table {
        name: entry.name.copy(alloc)?,
        columns,
        unique,
        indexes,
    })
}
