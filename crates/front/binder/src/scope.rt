//! What a name means: the tables of a FROM by name, and the FROMs around a place.

ghost use Rattle.std.specs.Prelude.{◌≡◌, ◌+◌, ◌++◌, ◌∷◌, [], ℕ, List, IfOk, OnOk, bytes_eq, length, map, option_map};
ghost use Rattle.std.specs.HashMap as hash;
ghost use Rattle.values.specs.Faults.{Gives};
ghost use Rattle.binder.specs.Lookups as listed;
ghost use Rattle.binder.specs.Scopes as spec;
ghost use Rattle.binder.specs.Lent.{IsIndexed, known_of, meaning_of, placed_of, scope_of, with_more};
ghost use Rattle.binder.specs.Chained.{scopes_of};

use crate::fault::{BindFault, BindReason, refused};
use crate::sums::sum;
use query::Column;
use schema::{Kind, Schema, Table};
use sql_parse::Name;
use sql_parse::statement::{ColumnName, TableName};
use std::alloc::{AllocError, Global};
use std::collections::HashMap;
use std::marker::Model;

/// A column that a name means, and its kind.
#[derive(Clone, Copy)]
pub struct TypedColumn {
    pub column: Column,
    pub kind: Kind,
}

/// What a plain name means in one FROM, if it means anything there.
#[derive(Clone, Copy)]
pub enum Meaning {
    /// The column at a place of the FROM's row.
    One(usize, Kind),
    Several,
}

/// A table instance, by the name by which columns name it.
#[derive(Clone, Copy)]
pub struct LentTable<'s> {
    pub name: &'s str,
    pub entry: &'s Table,
}

/// A table in a FROM's row.
#[derive(Clone, Copy)]
pub struct Placed<'s> {
    pub first_place: usize,
    pub entry: &'s Table,
}

/// Table instances, and what names mean among them.
struct Index<'s> {
    tables: Vec<LentTable<'s>>,
    by_name: HashMap<&'s str, Placed<'s>>,
    columns: HashMap<&'s str, Meaning>,
    width: usize,
}

// By hand, so that where an index is dropped is one call.
impl Drop for Index<'_> {
    fn drop(self) {
        let Index {
            tables: _,
            by_name: _,
            columns: _,
            width: _,
        } = self;
    }
}

/// The table instances of a FROM, or of the sides of a join, by name, and their columns by name.
#[derive(Drop)]
pub struct Scope<'s> {
    index: Index<'s>,
}

impl<'s> Model for Scope<'s> {
    ghost use Rattle.binder.specs.Scopes as spec;

    ghost Value = { spec.Scope };

    ghost use Rattle.binder.specs.Lent.{scope_of};

    ghost view = { λ s. scope_of s.index.tables.items };

    ghost use Rattle.binder.specs.Lent.{IsIndexed, scope_of};

    ghost invariant = { λ s. IsIndexed (scope_of s.index.tables.items) s.index.by_name s.index.columns s.index.width };
}

impl<'s> Scope<'s> {
    pub fn new(alloc: Global) -> Scope<'s>
        ensures { result ≡ [] }
    {
        let index = Index {
            tables: Vec::new(alloc),
            by_name: HashMap::new(alloc),
            columns: HashMap::new(alloc),
            width: 0,
        };
        Scope { index }
    }

    pub fn tables(&self) -> &[LentTable<'s>]
        ensures { map known_of result.now ≡ self.now }
    {
        self.index.tables.as_slice()
    }

    pub fn has(&self, name: &str) -> bool
        ensures { result ≡ spec.is_taken name.now self.now }
    {
        self.index.by_name.get(name).is_some()
    }

    /// Adds a table instance to the right. Of two with one name the first is found.
    pub fn with(self, name: &'s str, entry: &'s Table) -> Result<Scope<'s>, AllocError>
        ensures { IfOk result (λ scope. scope ≡ self.entry ++ record { name = name.now; entry = entry.now } ∷ []) }
    {
        let mut index = self.index;
        index.tables.push(LentTable { name, entry })?;
        let first_place = index.width;
        if index.by_name.get(name).is_none() {
            index.by_name.insert(name, Placed { first_place, entry })?;
        }
        index.width = add_columns(&mut index.columns, first_place, entry.columns.as_slice())?;
        Ok(Scope { index })
    }

    /// Adds the tables of a scope to the right.
    pub fn append(self, right: &Scope<'s>) -> Result<Scope<'s>, AllocError>
        ensures { IfOk result (λ scope. scope ≡ self.entry ++ right.now) }
    {
        let mut all = self;
        for table in right.tables() {
            all = all.with(table.name, table.entry)?;
        }
        Ok(all)
    }

    fn plain(&self, name: &str) -> Option<Meaning>
        ensures { result ≡ meaning_of (spec.named_in name.now 0 self.now) }
    {
        self.index.columns.get(name).copied()
    }

    fn table(&self, name: &str) -> Option<Placed<'s>>
        ensures { option_map placed_of result ≡ spec.instance_named name.now 0 self.now }
    {
        self.index.by_name.get(name).copied()
    }
}

/// Adds the columns of one more table by name, and gives the place behind them.
fn add_columns<'s>(
    by_name: &mut HashMap<&'s str, Meaning>,
    first_place: usize,
    columns: &'s [schema::Column],
) -> Result<usize, AllocError>
    ensures place { IfOk result (λ place. place ≡ first_place + length columns.entry.now) }
    ensures names { OnOk result ((q : List ℕ) → hash.get_by (λ k. bytes_eq q k.now) by_name.new
        ≡ with_more (hash.get_by (λ k. bytes_eq q k.now) by_name.old) (spec.columns_named q first_place columns.entry.now)) }
{
    let mut place = first_place;
    for column in columns {
        let name = column.name.as_str();
        let meaning = match by_name.get(name) {
            None => Meaning::One(place, column.kind),
            Some(_) => Meaning::Several,
        };
        by_name.insert(name, meaning)?;
        place = place.checked_add(1).ok_or(AllocError)?;
    }
    Ok(place)
}

/// The FROMs around a place, the innermost first.
#[derive(Clone, Copy)]
pub enum Scopes<'a, 's> {
    Outermost,
    Inner(&'a Scope<'s>, &'a Scopes<'a, 's>),
}

/// The table of a name, and its place in the schema.
pub fn find_table<'s>(schema: &'s Schema, name: &str) -> Option<(usize, &'s Table)>
    ensures { option_map (λ found. (found.0, found.1.now)) result ≡ listed.find_table 0 schema.entry.now.tables name.now }
{
    for (place, table) in schema.tables.as_slice().iter().enumerate() {
        if table.name.as_str() == name {
            return Some((place, table));
        }
    }
    None
}

/// The column of a name among a table's, and its place.
fn find_column<'s>(columns: &'s [schema::Column], name: &str) -> Option<(usize, &'s schema::Column)>
    ensures { option_map (λ found. (found.0, found.1.now)) result ≡ listed.find_column 0 columns.entry.now name.now }
{
    for (place, column) in columns.iter().enumerate() {
        if column.name.as_str() == name {
            return Some((place, column));
        }
    }
    None
}

/// What a plain name means, where the innermost scope has this level.
#[tactic(auto, unfolding(crate::specs::Scopes::plain))]
fn plain(name: &Name, level: usize, scopes: &Scopes<'_, '_>) -> Result<TypedColumn, BindFault>
    ensures { Gives (λ found. found) result (spec.plain name.now level (scopes_of scopes.now)) }
{
    match scopes {
        Scopes::Outermost => Err(refused(BindReason::UnknownColumn, name.at)),
        Scopes::Inner(scope, outer) => match scope.plain(name.text.as_str()) {
            None => plain(name, sum(level, 1)?, outer),
            Some(Meaning::One(place, kind)) => Ok(TypedColumn {
                column: Column { level, place },
                kind,
            }),
            Some(Meaning::Several) => Err(refused(BindReason::AmbiguousName, name.at)),
        },
    }
}

fn column_of(
    table: &Name,
    name: &Name,
    level: usize,
    placed: Placed<'_>,
) -> Result<TypedColumn, BindFault>
    ensures { Gives (λ found. found) result (spec.column_of table.now name.now level (placed_of placed.entry)) }
{
    let columns = placed.entry.columns.as_slice();
    let Some((place, column)) = find_column(columns, name.text.as_str()) else {
        return Err(refused(BindReason::UnknownColumn, table.at));
    };
    let place = sum(placed.first_place, place)?;
    Ok(TypedColumn {
        column: Column { level, place },
        kind: column.kind,
    })
}

/// What a name with a table's name before it means, where the innermost scope has this level.
#[tactic(auto, unfolding(crate::specs::Scopes::qualified))]
fn qualified(
    table: &Name,
    name: &Name,
    level: usize,
    scopes: &Scopes<'_, '_>,
) -> Result<TypedColumn, BindFault>
    ensures { Gives (λ found. found) result (spec.qualified table.now name.now level (scopes_of scopes.now)) }
{
    match scopes {
        Scopes::Outermost => Err(refused(BindReason::UnknownColumn, table.at)),
        Scopes::Inner(scope, outer) => match scope.table(table.text.as_str()) {
            None => qualified(table, name, sum(level, 1)?, outer),
            Some(placed) => column_of(table, name, level, placed),
        },
    }
}

/// What a name with a table's name before it means in one FROM alone.
#[tactic(auto, unfolding(crate::specs::Scopes::qualified))]
pub fn qualified_in(table: &Name, name: &Name, scope: &Scope<'_>) -> Result<TypedColumn, BindFault>
    ensures { Gives (λ found. found) result (spec.qualified table.now name.now 0 (scope.now ∷ [])) }
{
    match scope.table(table.text.as_str()) {
        None => Err(refused(BindReason::UnknownColumn, table.at)),
        Some(placed) => column_of(table, name, 0, placed),
    }
}

/// The column that a name means among the FROMs around it.
pub fn meant(name: &ColumnName, scopes: &Scopes<'_, '_>) -> Result<TypedColumn, BindFault>
    ensures { Gives (λ found. found) result (spec.meant name.now (scopes_of scopes.now)) }
{
    match &name.table {
        None => plain(&name.name, 0, scopes),
        Some(table) => qualified(table, &name.name, 0, scopes),
    }
}

/// The first byte of a column's name in the text.
pub fn place_in_text(name: &ColumnName) -> usize
    ensures { result ≡ spec.place_in_text name.now }
{
    match &name.table {
        None => name.name.at,
        Some(table) => table.at,
    }
}

/// The name by which a table instance is known: its alias, or else its table's.
pub fn known_name(table: &TableName) -> &Name
    ensures { result.now ≡ spec.known_name table.entry.now }
{
    match &table.alias {
        Some(alias) => alias,
        None => &table.name,
    }
}
