//! Lists of conditions that are lent: what is asked of which side of a join, and which share of rows passes.

ghost use Rattle.std.specs.Prelude.{◌≡◌, ◌≤◌, map, IfOk};
ghost use Rattle.std.specs.List.{list_any};
ghost use Rattle.algebra.specs.ConditionEquality.{same_condition};
ghost use Rattle.algebra.specs.ConjunctParts.{part, rest, has_no_class};
ghost use Rattle.props.specs.Knowledge.{known};
ghost use Rattle.costs.specs.Cardinalities as spec;

use crate::condition_shares::selectivity;
use crate::numbers::{ALL, per_million};
use algebra::{ClassId, Condition};
use props::KnownClasses;
use query::TableInstance;
use statistics::Statistics;
use std::alloc::{AllocError, Global};

/// So many rows, and the share of them that makes the conditions true that filter them.
#[derive(Clone, Copy)]
pub struct Filtered {
    pub rows: u64,
    pub share: u64,
}

impl Filtered {
    /// The rows of the share, a millionth at least.
    pub fn kept(self) -> u64
        requires { self.share ≤ 1000000 }
        ensures kept { result ≡ spec.kept self }
        ensures most { result ≤ self.rows }
    {
        per_million(self.rows, self.share.max(1))
    }

    /// Filtered a condition more, which so large a share makes true.
    #[tactic(auto, unfolding(crate::specs::Cardinalities::filtered_further))]
    pub fn also(self, share: u64) -> Filtered
        requires own { self.share ≤ 1000000 }
        requires share { share ≤ 1000000 }
        ensures filtered { result ≡ spec.filtered_further self share }
        ensures most { result.share ≤ 1000000 }
    {
        if self.share * share < ALL {
            return Filtered {
                rows: self.kept(),
                share,
            };
        }
        Filtered {
            rows: self.rows,
            share: per_million(self.share, share),
        }
    }
}

/// Of so many rows, those that make all of the conditions true.
pub fn passing(
    statistics: &Statistics,
    instances: &[TableInstance],
    conditions: &[&Condition],
    rows: u64,
) -> u64
    ensures { result ≡ spec.passing statistics.now instances.now (map (λ c. c.now) conditions.now) rows }
{
    let mut filtered = Filtered { rows, share: ALL };
    for condition in conditions {
        filtered = filtered.also(selectivity(statistics, instances, condition));
    }
    filtered.kept()
}

/// The conditions that name no column of a class, and the others.
pub fn split<'c>(
    alloc: Global,
    classes: KnownClasses<'_>,
    class: ClassId,
    conditions: &[&'c Condition],
) -> Result<(Vec<&'c Condition>, Vec<&'c Condition>), AllocError>
    ensures { IfOk result (λ parts. (map (λ c. c.now) parts.0.items ≡ part (spec.is_apart (known classes.entry) class) (map (λ c. c.now) conditions.now)) × (map (λ c. c.now) parts.1.items ≡ rest (spec.is_apart (known classes.entry) class) (map (λ c. c.now) conditions.now))) }
{
    let mut apart = Vec::new(alloc);
    let mut others = Vec::new(alloc);
    for condition in conditions {
        if condition.is_without(alloc, classes.columns, class)? {
            apart.push(*condition)?;
        } else {
            others.push(*condition)?;
        }
    }
    Ok((apart, others))
}

/// The conditions without a subquery, and the others.
pub fn split_plain<'c>(
    alloc: Global,
    conditions: &[&'c Condition],
) -> Result<(Vec<&'c Condition>, Vec<&'c Condition>), AllocError>
    ensures { IfOk result (λ parts. (map (λ c. c.now) parts.0.items ≡ part has_no_class (map (λ c. c.now) conditions.now)) × (map (λ c. c.now) parts.1.items ≡ rest has_no_class (map (λ c. c.now) conditions.now))) }
{
    let mut plain = Vec::new(alloc);
    let mut others = Vec::new(alloc);
    for condition in conditions {
        if condition.has_no_class() {
            plain.push(*condition)?;
        } else {
            others.push(*condition)?;
        }
    }
    Ok((plain, others))
}

/// Conditions that are lent one by one.
pub fn lent<'c>(
    alloc: Global,
    conditions: &'c [Condition],
) -> Result<Vec<&'c Condition>, AllocError>
    ensures { IfOk result (λ lent. map (λ c. c.now) lent.items ≡ conditions.now) }
{
    let mut lent = Vec::with_capacity(alloc, conditions.len())?;
    for condition in conditions {
        lent.push(condition)?;
    }
    Ok(lent)
}

fn is_same(condition: &Condition, other: &Condition) -> bool
    ensures { result ≡ same_condition condition.now other.now }
{
    condition.same(other)
}

/// Whether a condition is in a list.
fn is_among(condition: &Condition, conditions: &[Condition]) -> bool
    ensures { result ≡ list_any (same_condition condition.now) conditions.now }
{
    conditions.iter().any(|other| is_same(condition, other))
}

/// Conditions of a list, and what another has besides.
pub fn with_others<'c>(
    alloc: Global,
    own: &'c [Condition],
    more: &[&'c Condition],
) -> Result<Vec<&'c Condition>, AllocError>
    ensures { IfOk result (λ both. map (λ c. c.now) both.items ≡ spec.with_others own.now (map (λ c. c.now) more.now)) }
{
    let mut both = lent(alloc, own)?;
    for condition in more {
        if !is_among(condition, own) {
            both.push(*condition)?;
        }
    }
    Ok(both)
}
