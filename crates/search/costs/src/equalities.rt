//! Which columns of rows are equal, by the equations that were asked of them.

ghost use Rattle.std.specs.Prelude.{◌≡◌, ◌++◌, ◌∷◌, [], ℕ, List, filter, map, option_to_list, IfOk, OnOk};
ghost use Rattle.costs.specs.Equalities as spec;

use algebra::{Columns, Condition};
use query::ColumnId;
use std::alloc::{AllocError, Global};

/// Two columns that are equal.
pub type Equation = (ColumnId, ColumnId);

/// The leaders of columns, where equal columns have one. A column that isn't listed leads itself.
#[derive(Drop)]
struct Leaders {
    entries: Vec<(ColumnId, ColumnId)>,
}

/// The entry, whose leader is another one's now.
fn handed(old: ColumnId, new: ColumnId, entry: (ColumnId, ColumnId)) -> (ColumnId, ColumnId)
    ensures { result ≡ spec.handed old new entry }
{
    if entry.1 == old {
        (entry.0, new)
    } else {
        entry
    }
}

impl Leaders {
    fn leader(&self, column: ColumnId) -> ColumnId
        ensures { result ≡ spec.leader_in self.now.entries.items column }
    {
        let entries = self.entries.as_slice();
        for entry in entries {
            if entry.0 == column {
                return entry.1;
            }
        }
        column
    }

    /// The column, equated with the first of a list that is equal to it.
    fn with_first(&self, columns: &[ColumnId], column: ColumnId) -> Option<Equation>
        ensures { result ≡ spec.with_first (spec.leader_in self.now.entries.items) columns.now column }
    {
        let leader = self.leader(column);
        for first in columns {
            if self.leader(*first) == leader {
                return of_two(Some((*first, column)));
            }
        }
        None
    }

    /// Hands what the leader of the second column leads to the leader of the first.
    fn join(&mut self, equation: Equation) -> Result<(), AllocError>
        ensures { OnOk result (spec.leader_in self.new.entries.items ≡ spec.joined (spec.leader_in self.old.entries.items) equation) }
    {
        let leader = self.leader(equation.0);
        let other = self.leader(equation.1);
        let entries = self.entries.as_mut_slice();
        for entry in entries {
            *entry = handed(other, leader, *entry);
        }
        self.entries.push((other, leader))?;
        Ok(())
    }

    /// Whether the equation, if there is one, says nothing new.
    fn imply(&self, equation: Option<Equation>) -> bool
        ensures { result ≡ spec.is_implied (spec.leader_in self.now.entries.items) equation }
    {
        match equation {
            Some((first, second)) => self.leader(first) == self.leader(second),
            None => false,
        }
    }

    /// Takes in an equation, if there is one.
    fn add(&mut self, equation: Option<Equation>) -> Result<(), AllocError>
        ensures { OnOk result (spec.leader_in self.new.entries.items ≡ spec.with_equation (spec.leader_in self.old.entries.items) equation) }
    {
        match equation {
            Some(equation) => self.join(equation),
            None => Ok(()),
        }
    }

    /// The leaders of the columns that are equal by the equations.
    fn of(alloc: Global, equations: &[Equation]) -> Result<Leaders, AllocError>
        ensures { IfOk result (λ leaders. spec.leader_in leaders.entries.items ≡ spec.leader_by equations.now) }
    {
        let mut leaders = Leaders {
            entries: Vec::new(alloc),
        };
        for equation in equations {
            leaders.join(*equation)?;
        }
        Ok(leaders)
    }
}

/// What a condition equates, if it is an equality of two columns.
fn equation_of(condition: &Condition) -> Option<Equation>
    ensures { result ≡ spec.equation condition.now }
{
    of_two(condition.equated())
}

/// An equation of a column with itself says nothing of others.
fn of_two(equation: Option<Equation>) -> Option<Equation>
    ensures { result ≡ spec.of_two equation }
{
    match equation {
        Some((first, second)) if first != second => Some((first, second)),
        _ => None,
    }
}

/// The equations of two lists.
pub fn both(
    alloc: Global,
    first: &[Equation],
    second: &[Equation],
) -> Result<Vec<Equation>, AllocError>
    ensures { IfOk result (λ all. all.items ≡ first.now ++ second.now) }
{
    let mut all = Vec::from_slice(alloc, first)?;
    all.extend_from_slice(second)?;
    Ok(all)
}

/// Of conditions, from the left, those that follow neither from equations nor from those before them.
pub fn counted<'c>(
    alloc: Global,
    equations: &[Equation],
    conditions: &[&'c Condition],
) -> Result<Vec<&'c Condition>, AllocError>
    ensures { IfOk result (λ counted. map (λ c. c.now) counted.items ≡ spec.counted equations.now (map (λ c. c.now) conditions.now)) }
{
    let mut leaders = Leaders::of(alloc, equations)?;
    let mut counted = Vec::new(alloc);
    for condition in conditions {
        let equation = equation_of(condition);
        if !leaders.imply(equation) {
            leaders.add(equation)?;
            counted.push(*condition)?;
        }
    }
    Ok(counted)
}

/// Equations, and those of conditions that don't follow.
pub fn with_equations(
    alloc: Global,
    equations: &[Equation],
    conditions: &[&Condition],
) -> Result<Vec<Equation>, AllocError>
    ensures { IfOk result (λ all. all.items ≡ spec.with_equations equations.now (map (λ c. c.now) conditions.now)) }
{
    let counted = counted(alloc, equations, conditions)?;
    let mut all = Vec::from_slice(alloc, equations)?;
    for condition in counted.as_slice() {
        if let Some(equation) = equation_of(condition) {
            all.push(equation)?;
        }
    }
    Ok(all)
}

/// Whether an equation names the column.
fn is_named(equations: &[Equation], column: ColumnId) -> bool
    ensures { result ≡ spec.names equations.now column }
{
    equations
        .iter()
        .any(|equation| equation.0 == column || equation.1 == column)
}

/// Those of the columns that the equations name.
fn named(
    alloc: Global,
    columns: &Columns,
    equations: &[Equation],
) -> Result<Vec<ColumnId>, AllocError>
    ensures { IfOk result (λ named. named.items ≡ filter (spec.names equations.now) columns.now) }
{
    let mut named = Vec::new(alloc);
    let columns = columns.as_slice();
    for column in columns {
        if is_named(equations, *column) {
            named.push(*column)?;
        }
    }
    Ok(named)
}

/// What the equations say of these columns, of which the others are left out.
pub fn within(
    alloc: Global,
    columns: &Columns,
    equations: &[Equation],
) -> Result<Vec<Equation>, AllocError>
    ensures { IfOk result (λ kept. kept.items ≡ spec.within columns.now equations.now) }
{
    let leaders = Leaders::of(alloc, equations)?;
    let named = named(alloc, columns, equations)?;
    let mut kept = Vec::new(alloc);
    for column in named.as_slice() {
        if let Some(equation) = leaders.with_first(named.as_slice(), *column) {
            kept.push(equation)?;
        }
    }
    Ok(kept)
}
