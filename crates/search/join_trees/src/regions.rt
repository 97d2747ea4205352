//! Regions: inner joins that hang together.

use crate::sets::LeafSet;
use algebra::{ClassId, Condition, Expr, LineId};
use derivation::Line;
use logs::Log;
use query::ids::id_of;
use std::alloc::{AllocError, Global};

/// A join with the joins below it, and the selection above it, if there is one. In the place of the join there may be one leaf alone, from which subqueries
/// select.
#[derive(Clone, Copy, Drop)]
pub struct Region {
    pub select: Option<LineId>,
    pub join: LineId,
}

/// The lines of a region's joins, each behind those below it, and the classes that they join.
#[derive(Drop)]
pub struct Parts {
    pub joins: Vec<LineId>,
    pub leaves: Vec<ClassId>,
}

/// The sides of a join.
#[derive(Clone, Copy, Drop)]
pub struct Sides {
    pub left: ClassId,
    pub right: ClassId,
}

/// The sides of the join that founds the class, if it is one.
pub fn founding_sides(log: &Log<'_>, class: ClassId) -> Option<Sides> {
    match log.lines().get(class as usize) {
        Some(Line::Founds(Expr::Join(_, left, right))) => Some(Sides {
            left: *left,
            right: *right,
        }),
        _ => None,
    }
}

/// The class of which a line selects, if it does.
fn selected(log: &Log<'_>, line: LineId) -> Option<ClassId> {
    match log.member(line)?.expr {
        Expr::Select(_, class) => Some(*class),
        _ => None,
    }
}

fn mark(marks: &mut [bool], class: ClassId) {
    if let Some(mark) = marks.get_mut(class as usize) {
        *mark = true;
    }
}

fn is_marked(marks: &[bool], class: ClassId) -> bool {
    marks.get(class as usize).copied().unwrap_or(false)
}

/// The classes that are below a join or a selection.
fn below_others(alloc: Global, log: &Log<'_>) -> Result<Vec<bool>, AllocError> {
    let mut below = Vec::from_elem(alloc, false, log.len())?;
    for line in 0..id_of(log.len())? {
        if let Some(sides) = founding_sides(log, line) {
            mark(&mut below, sides.left);
            mark(&mut below, sides.right);
        }
        if let Some(class) = selected(log, line) {
            mark(&mut below, class);
        }
    }
    Ok(below)
}

/// Whether a line selects by a subquery and by something else: then it matters which is evaluated first.
fn mixes_subqueries(log: &Log<'_>, line: LineId) -> bool {
    let conditions = conditions_of(log, line);
    conditions.len() > 1 && conditions.iter().any(|one| !one.has_no_class())
}

/// The regions of a log, each behind those on which it stands.
pub fn regions_of(alloc: Global, log: &Log<'_>) -> Result<Vec<Region>, AllocError> {
    let below = below_others(alloc, log)?;
    let mut regions = Vec::new(alloc);
    for line in 0..id_of(log.len())? {
        if founding_sides(log, line).is_some() && !is_marked(&below, line) {
            regions.push(Region {
                select: None,
                join: line,
            })?;
        }
        if let Some(class) = selected(log, line) {
            if founding_sides(log, class).is_some() || mixes_subqueries(log, line) {
                regions.push(Region {
                    select: Some(line),
                    join: class,
                })?;
            }
        }
    }
    Ok(regions)
}

/// The joins of the region that ends with this one.
fn joins_of(alloc: Global, log: &Log<'_>, join: LineId) -> Result<Vec<bool>, AllocError> {
    let mut joins = Vec::from_elem(alloc, false, log.len())?;
    mark(&mut joins, join);
    for line in (0..id_of(log.len())?).rev() {
        if is_marked(&joins, line) {
            if let Some(sides) = founding_sides(log, line) {
                mark(&mut joins, sides.left);
                mark(&mut joins, sides.right);
            }
        }
    }
    Ok(joins)
}

/// What a region is made of.
pub fn parts_of(alloc: Global, log: &Log<'_>, join: LineId) -> Result<Parts, AllocError> {
    let marked = joins_of(alloc, log, join)?;
    let mut joins = Vec::new(alloc);
    let mut leaves = Vec::new(alloc);
    for line in 0..id_of(log.len())? {
        if is_marked(&marked, line) {
            if founding_sides(log, line).is_some() {
                joins.push(line)?;
            } else {
                leaves.push(line)?;
            }
        }
    }
    Ok(Parts { joins, leaves })
}

/// The place of a class in a list.
pub fn place_of(classes: &[ClassId], class: ClassId) -> Option<usize> {
    classes.iter().position(|other| *other == class)
}

impl Parts {
    /// The leaves of a class of the region, where those of its first joins are known.
    fn leaves_of(&self, sets: &[LeafSet], class: ClassId) -> LeafSet {
        match place_of(&self.leaves, class) {
            Some(place) => LeafSet::single(place),
            None => match place_of(&self.joins, class) {
                Some(place) => sets.get(place).copied().unwrap_or(LeafSet::EMPTY),
                None => LeafSet::EMPTY,
            },
        }
    }

    /// The leaves of each join.
    pub fn sets(&self, alloc: Global, log: &Log<'_>) -> Result<Vec<LeafSet>, AllocError> {
        let mut sets = Vec::new(alloc);
        for line in &self.joins {
            let mut set = LeafSet::EMPTY;
            if let Some(sides) = founding_sides(log, *line) {
                let left = self.leaves_of(&sets, sides.left);
                set = left.union(self.leaves_of(&sets, sides.right));
            }
            sets.push(set)?;
        }
        Ok(sets)
    }
}

/// The conditions of the expression of a line, where it has one list of them.
pub fn conditions_of<'a>(log: &'a Log<'_>, line: LineId) -> &'a [Condition] {
    match log.member(line) {
        Some(member) => match member.expr {
            Expr::Select(conjuncts, _) | Expr::Join(conjuncts, _, _) => conjuncts.as_slice(),
            _ => &[],
        },
        None => &[],
    }
}
