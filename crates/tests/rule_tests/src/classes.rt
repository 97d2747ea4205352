//! What is known of the classes of the cases.

use crate::words::{columns_of, number};
use algebra::{ClassColumns, ClassId, Columns};
use props::{Fact, Facts, KnownClasses};
use std::alloc::{AllocError, Global};

/// The columns of the classes 0 to 6. The classes 3 and 4 are the same, and 5 is a join of 1 and 2.
const COLUMNS: &str = "0 1
2 3
4 5
0 1 2 3
0 1 2 3
2 3 4 5
4";

/// Their free columns.
const FREE: &str = "\n\n\n\n\n\n2";

#[derive(Drop)]
pub struct Known {
    pub columns: Vec<Columns>,
    pub free: Vec<Columns>,
    pub sets: Vec<u32>,
    pub roots: Vec<ClassId>,
    pub facts: Vec<Facts>,
}

fn sets_of(alloc: Global, text: &str) -> Result<Vec<Columns>, AllocError> {
    let mut sets = Vec::new(alloc);
    for line in text.split("\n") {
        sets.push(columns_of(alloc, line)?)?;
    }
    Ok(sets)
}

/// A fact of words: `notnull COLUMN`, `weak COLUMNS` or `strong COLUMNS`.
pub fn fact_of(alloc: Global, words: &str) -> Result<Fact, AllocError> {
    let (name, columns) = words.split_once(" ").unwrap_or((words, ""));
    Ok(match name {
        "notnull" => Fact::NotNull(number(columns)),
        "weak" => Fact::WeakKey(columns_of(alloc, columns)?),
        _ => Fact::StrongKey(columns_of(alloc, columns)?),
    })
}

/// The facts of words with `,` between them.
fn facts_of(alloc: Global, words: &str) -> Result<Facts, AllocError> {
    let mut facts = Facts::none();
    for word in words.split(", ") {
        facts.learn(alloc, &fact_of(alloc, word)?)?;
    }
    Ok(facts)
}

/// Of the classes 0 and 1 something is known, of the others nothing.
fn facts(alloc: Global) -> Result<Vec<Facts>, AllocError> {
    let mut facts = Vec::new(alloc);
    facts.push(facts_of(alloc, "notnull 0, weak 0, strong 0")?)?;
    facts.push(facts_of(alloc, "weak 2")?)?;
    Ok(facts)
}

/// The sets of the classes that are the same, by their numbers.
const SETS: [u32; 7] = [0, 1, 2, 3, 3, 4, 5];

/// The first class of each set.
const ROOTS: [ClassId; 6] = [0, 1, 2, 3, 5, 6];

fn listed(alloc: Global, numbers: &[u32]) -> Result<Vec<u32>, AllocError> {
    let mut list = Vec::new(alloc);
    list.extend_from_slice(numbers)?;
    Ok(list)
}

pub fn known_classes(alloc: Global) -> Result<Known, AllocError> {
    let columns = sets_of(alloc, COLUMNS)?;
    let free = sets_of(alloc, FREE)?;
    let facts = facts(alloc)?;
    Ok(Known {
        columns,
        free,
        sets: listed(alloc, &SETS)?,
        roots: listed(alloc, &ROOTS)?,
        facts,
    })
}

impl Known {
    pub fn lent(&self) -> KnownClasses<'_> {
        KnownClasses {
            columns: ClassColumns {
                columns: self.columns.as_slice(),
                free: self.free.as_slice(),
            },
            sets: self.sets.as_slice(),
            roots: self.roots.as_slice(),
            facts: self.facts.as_slice(),
        }
    }
}
