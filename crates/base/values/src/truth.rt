//! Three-valued truth, and the comparison operators.

ghost use Rattle.std.specs.Prelude.{◌≡◌};
ghost use Rattle.values.specs.Truth as spec;

use std::cmp::Ordering;

/// The truth of a condition, in SQL's logic of three values.
#[derive(Clone, Copy, PartialEq, Eq)]
pub enum Truth {
    False,
    Unknown,
    True,
}

impl Truth {
    pub fn not(self) -> Truth
        ensures { result ≡ spec.negation self }
    {
        match self {
            Truth::False => Truth::True,
            Truth::Unknown => Truth::Unknown,
            Truth::True => Truth::False,
        }
    }

    pub fn and(self, other: Truth) -> Truth
        ensures { result ≡ spec.conjunction self other }
    {
        match (self, other) {
            (Truth::False, _) | (_, Truth::False) => Truth::False,
            (Truth::True, Truth::True) => Truth::True,
            _ => Truth::Unknown,
        }
    }

    pub fn or(self, other: Truth) -> Truth
        ensures { result ≡ spec.disjunction self other }
    {
        match (self, other) {
            (Truth::True, _) | (_, Truth::True) => Truth::True,
            (Truth::False, Truth::False) => Truth::False,
            _ => Truth::Unknown,
        }
    }

    /// Whether a row passes: unknown doesn't.
    pub fn is_true(self) -> bool
        ensures { result ≡ spec.is_true self }
    {
        matches!(self, Truth::True)
    }
}

impl From<bool> for Truth {
    ghost from_gives = { λ known truth. truth ≡ spec.truth_of known };

    fn from(known: bool) -> Truth {
        if known { Truth::True } else { Truth::False }
    }
}

/// A comparison operator of SQL: `=`, `<>`, `<`, `<=`, `>`, `>=`.
#[derive(Clone, Copy, PartialEq, Eq)]
pub enum Comparison {
    Equal,
    NotEqual,
    Less,
    LessOrEqual,
    Greater,
    GreaterOrEqual,
}

impl Comparison {
    /// Whether the comparison is true of two values in this order.
    pub fn admits(self, order: Ordering) -> bool
        ensures { result ≡ spec.admits self order }
    {
        match self {
            Comparison::Equal => order == Ordering::Equal,
            Comparison::NotEqual => order != Ordering::Equal,
            Comparison::Less => order == Ordering::Less,
            Comparison::LessOrEqual => order != Ordering::Greater,
            Comparison::Greater => order == Ordering::Greater,
            Comparison::GreaterOrEqual => order != Ordering::Less,
        }
    }
}
