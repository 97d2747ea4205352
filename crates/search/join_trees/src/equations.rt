//! Equalities of two columns: one that follows from others leaves out no row more.

use crate::sets::LeafSet;
use algebra::Condition;
use query::ColumnId;
use std::alloc::{AllocError, Global};

/// So many columns are told apart at most. An equality of further ones is taken as one that doesn't follow.
const MOST_COLUMNS: usize = 64;

/// Two columns, by their places in the list of those that are equated.
#[derive(Clone, Copy, Drop)]
pub struct Equation {
    first: usize,
    second: usize,
}

/// An equality of two columns, with the leaves of which these are.
#[derive(Clone, Copy, Drop)]
struct Equality {
    leaves: LeafSet,
    equation: Equation,
}

/// The equalities of two columns in a region.
#[derive(Drop)]
pub struct Equations {
    columns: Vec<ColumnId>,
    equalities: Vec<Equality>,
    /// All of them together, so far.
    equivalences: Equivalences,
    /// Whether some follow from others.
    has_implied: bool,
}

/// The equivalence classes of equated columns: of each column, by its place, the representative of its class.
#[derive(Clone, Copy, Drop)]
pub struct Equivalences {
    by_place: [u8; MOST_COLUMNS],
}

impl Equivalences {
    /// Each column in a class of its own.
    fn none() -> Equivalences {
        let mut by_place = [0; MOST_COLUMNS];
        let mut next: u8 = 0;
        for representative in &mut by_place {
            *representative = next;
            next = next.saturating_add(1);
        }
        Equivalences { by_place }
    }

    fn representative(&self, place: usize) -> u8 {
        self.by_place.get(place).copied().unwrap_or(u8::MAX)
    }

    /// Makes two columns equal. Whether they weren't before.
    fn join(&mut self, equation: Equation) -> bool {
        let first = self.representative(equation.first);
        let second = self.representative(equation.second);
        if first == second {
            return false;
        }
        for of_place in &mut self.by_place {
            if *of_place == second {
                *of_place = first;
            }
        }
        true
    }

    /// Whether an equality, if there is one, doesn't follow from those before. Then it is one of these.
    pub fn is_new(&mut self, equation: Option<Equation>) -> bool {
        match equation {
            Some(equation) => self.join(equation),
            None => true,
        }
    }
}

impl Equations {
    pub fn none(alloc: Global) -> Equations {
        Equations {
            columns: Vec::new(alloc),
            equalities: Vec::new(alloc),
            equivalences: Equivalences::none(),
            has_implied: false,
        }
    }

    /// The place of a column, which is taken in where there is room.
    fn place_of(&mut self, column: ColumnId) -> Result<Option<usize>, AllocError> {
        if let Some(place) = self.columns.iter().position(|other| *other == column) {
            return Ok(Some(place));
        }
        let place = self.columns.len();
        if place >= MOST_COLUMNS {
            return Ok(None);
        }
        self.columns.push(column)?;
        Ok(Some(place))
    }

    /// Notes a condition over these leaves. What it equates, if it is an equality of two columns.
    pub fn note(
        &mut self,
        leaves: LeafSet,
        condition: &Condition,
    ) -> Result<Option<Equation>, AllocError> {
        let Some((first, second)) = condition.equated() else {
            return Ok(None);
        };
        if first == second {
            return Ok(None);
        }
        let first = self.place_of(first)?;
        let second = self.place_of(second)?;
        let (Some(first), Some(second)) = (first, second) else {
            return Ok(None);
        };
        let equation = Equation { first, second };
        self.has_implied = !self.equivalences.join(equation) || self.has_implied;
        self.equalities.push(Equality { leaves, equation })?;
        Ok(Some(equation))
    }

    /// The equivalence classes by the equalities within either of two sets; none where no equality follows from others.
    pub fn equivalences_within(&self, first: LeafSet, second: LeafSet) -> Option<Equivalences> {
        if !self.has_implied {
            return None;
        }
        let mut equivalences = Equivalences::none();
        for equality in &self.equalities {
            if equality.leaves.is_within(first) || equality.leaves.is_within(second) {
                equivalences.join(equality.equation);
            }
        }
        Some(equivalences)
    }
}
