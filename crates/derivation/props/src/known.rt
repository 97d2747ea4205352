//! What is known of classes.

ghost use Rattle.std.specs.Prelude.{◌≡◌, Bool, option_map, unwrap_or};
ghost use Rattle.algebra.specs.Columns.{has};
ghost use Rattle.props.specs.Facts as facts;
ghost use Rattle.props.specs.Keys.{Key, has_key};
ghost use Rattle.std.specs.List.{list_any};
ghost use Rattle.props.specs.Knowledge as spec;

use crate::fact::{Fact, FactSets, Facts};
use algebra::{ClassColumns, ClassId, Columns};
use query::ColumnId;

/// What is known of classes, in lists by their numbers.
#[derive(Clone, Copy)]
pub struct KnownClasses<'a> {
    /// Their columns and their free columns.
    pub columns: ClassColumns<'a>,
    /// For each class the number of the set of those that are the same.
    pub sets: &'a [u32],
    /// For each set the class that stands for all of it.
    pub roots: &'a [ClassId],
    /// For each set the facts of its classes.
    pub facts: &'a [Facts],
}

impl<'a> KnownClasses<'a> {
    /// The class that stands for all that are the same; the class itself where the lists have none of its number.
    pub fn root(self, class: ClassId) -> ClassId
        ensures { result ≡ spec.root_in self.entry.sets.now self.entry.roots.now class }
    {
        match self.sets.get(class as usize) {
            Some(set) => match self.roots.get(*set as usize) {
                Some(root) => *root,
                None => class,
            },
            None => class,
        }
    }

    /// Whether two classes are known to be the same.
    pub fn are_same(self, class: ClassId, other: ClassId) -> bool
        ensures { result ≡ spec.are_same (spec.known self.entry) class other }
    {
        self.root(class) == self.root(other)
    }

    /// The facts of a class and of those that are the same; none where the lists have none of its number.
    pub fn facts(self, class: ClassId) -> Option<&'a Facts>
        ensures { option_map (λ f. f.now) result ≡ spec.set_facts self.entry.sets.now self.entry.facts.now class }
    {
        match self.sets.get(class as usize) {
            Some(set) => self.facts.get(*set as usize),
            None => None,
        }
    }

    /// What is known of a class and of those that are the same, if something is.
    fn fact_sets(self, class: ClassId) -> Option<&'a FactSets>
        ensures { unwrap_or (option_map (λ f. f.now) result) facts.no_facts ≡ (spec.known self.entry).facts class }
    {
        match self.facts(class) {
            Some(facts) => facts.sets(),
            None => None,
        }
    }

    /// Whether a class has a strong key.
    pub fn has_strong_key(self, class: ClassId) -> bool
        ensures { result ≡ spec.has_strong_key (spec.known self.entry) class }
    {
        match self.facts(class) {
            Some(facts) => facts.has_strong_key(),
            None => false,
        }
    }

    /// Whether a fact is known of a class.
    pub fn knows(self, class: ClassId, fact: &Fact) -> bool
        ensures { result ≡ facts.knows ((spec.known self.entry).facts class) fact.now }
    {
        match self.facts(class) {
            Some(facts) => facts.knows(fact),
            None => false,
        }
    }

    /// Whether the columns are known to be a weak key of a class.
    pub fn is_weak_key(self, class: ClassId, key: &Columns) -> bool
        ensures { result ≡ has_key ((spec.known self.entry).facts class).weak_keys key.now }
    {
        match self.fact_sets(class) {
            Some(facts) => facts.weak_keys.contains(key.as_slice()),
            None => false,
        }
    }

    /// Whether the columns are known to be a strong key of a class.
    pub fn is_strong_key(self, class: ClassId, key: &Columns) -> bool
        ensures { result ≡ has_key ((spec.known self.entry).facts class).strong_keys key.now }
    {
        match self.fact_sets(class) {
            Some(facts) => facts.strong_keys.contains(key.as_slice()),
            None => false,
        }
    }

    /// The weak keys that are known of a class, in any order.
    pub fn weak_keys(self, class: ClassId) -> &'a [Vec<ColumnId>]
        ensures { (p : Key → Bool) → list_any (λ key. p key.items) result.now ≡ list_any p ((spec.known self.entry).facts class).weak_keys }
    {
        match self.fact_sets(class) {
            Some(facts) => facts.weak_keys.as_slice(),
            None => &[],
        }
    }

    /// The strong keys that are known of a class, in any order.
    pub fn strong_keys(self, class: ClassId) -> &'a [Vec<ColumnId>]
        ensures { (p : Key → Bool) → list_any (λ key. p key.items) result.now ≡ list_any p ((spec.known self.entry).facts class).strong_keys }
    {
        match self.fact_sets(class) {
            Some(facts) => facts.strong_keys.as_slice(),
            None => &[],
        }
    }

    /// Whether it is known that a column of a class is nowhere Null.
    pub fn is_not_null(self, class: ClassId, column: ColumnId) -> bool
        ensures { result ≡ has ((spec.known self.entry).facts class).not_null column }
    {
        match self.fact_sets(class) {
            Some(facts) => facts.not_null.contains(column),
            None => false,
        }
    }
}
