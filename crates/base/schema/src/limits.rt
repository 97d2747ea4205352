//! How much a schema may have, and that no name stands twice where it may not.

ghost use Rattle.std.specs.Prelude.{◌≡◌};
ghost use Rattle.std.specs.List.{list_all};
ghost use Rattle.schema.specs.Limits as spec;

use crate::entries::TableEntry;
use crate::names::are_different;
use values::{Items, Text};

const MOST_TABLES: usize = 64;

const MOST_COLUMNS: usize = 64;

const MOST_LISTS: usize = 16;

const MOST_NAMES: usize = 8;

fn is_short(names: &Items<Text>) -> bool
    ensures { result ≡ spec.is_short names.now }
{
    names.len() <= MOST_NAMES
}

fn are_short(lists: &[Items<Text>]) -> bool
    ensures { result ≡ list_all spec.is_short lists.now }
{
    lists.iter().all(is_short)
}

fn lists_are_few(lists: &[Items<Text>]) -> bool
    ensures { result ≡ spec.lists_are_few lists.now }
{
    lists.len() <= MOST_LISTS && are_short(lists)
}

fn parts_are_few(entry: &TableEntry) -> bool
    ensures { result ≡ spec.parts_are_few entry.now }
{
    entry.columns.len() <= MOST_COLUMNS
        && lists_are_few(entry.unique.as_slice())
        && lists_are_few(entry.indexes.as_slice())
}

fn all_parts_are_few(entries: &[TableEntry]) -> bool
    ensures { result ≡ list_all spec.parts_are_few entries.now }
{
    entries.iter().all(parts_are_few)
}

pub fn are_few(entries: &[TableEntry]) -> bool
    ensures { result ≡ spec.are_few entries.now }
{
    entries.len() <= MOST_TABLES && all_parts_are_few(entries)
}

fn lists_differ(lists: &[Items<Text>]) -> bool
    ensures { result ≡ spec.lists_differ lists.now }
{
    lists.iter().all(|names| are_different(names.as_slice()))
}

fn parts_differ(entry: &TableEntry) -> bool
    ensures { result ≡ spec.parts_differ entry.now }
{
    are_different(entry.columns.as_slice())
        && lists_differ(entry.unique.as_slice())
        && lists_differ(entry.indexes.as_slice())
}

fn all_parts_differ(entries: &[TableEntry]) -> bool
    ensures { result ≡ list_all spec.parts_differ entries.now }
{
    entries.iter().all(parts_differ)
}

pub fn names_differ(entries: &[TableEntry]) -> bool
    ensures { result ≡ spec.names_differ entries.now }
{
    are_different(entries) && all_parts_differ(entries)
}
