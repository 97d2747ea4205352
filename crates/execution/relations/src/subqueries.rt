//! The rows that subqueries have.

ghost use Rattle.relations.specs.ValueLists.{AreListed, AreListed-prop};

use crate::relation::Relation;
use crate::value_lists::ValueList;
use algebra::ClassId;

/// The classes that conditions name, and their rows where the conditions stand.
#[derive(Clone, Copy)]
pub struct Subqueries<'a, 't> {
    pub classes: &'a [ClassId],
    pub relations: &'a [Relation<'t>],
    /// The values of a column of each relation, where they are listed.
    pub lists: &'a [Option<ValueList<'t>>],
    ghost listed: { AreListed relations.now lists.now } by { AreListed-prop relations.now lists.now },
}
