//! By which lines classes are the same. A line that says so of two classes which weren't the same before it is an edge of a forest, so that the lines on
//! the path between two classes prove that they are the same, and no other lines are needed for it: Nieuwenhuis and Oliveras, Proof-producing
//! congruence closure, 2005.

use algebra::{ClassId, LineId};
use derivation::Line;
use logs::Log;
use query::ids::id_of;
use std::alloc::{AllocError, Global};
use std::mem;

/// A step from one class to another, and the line by which the two are the same.
#[derive(Clone, Copy, Drop)]
struct Step {
    to: ClassId,
    line: LineId,
}

/// Each link leads to a tree that has at least as many classes, so that none has more links above it than a number has bits.
const MOST_LINKS: usize = 32;

/// Classes in trees by when they became the same. The smaller of two trees is linked to the larger, and no way is shortened, so that it can be told
/// which classes were the same before a line.
#[derive(Drop)]
struct Links {
    above: Vec<Option<Step>>,
    sizes: Vec<usize>,
}

/// Which classes of a log are the same, and by which lines. A line that founds no class counts as a class too, so that the lists are as long as the
/// log.
#[derive(Drop)]
pub(crate) struct Sameness {
    links: Links,
    /// For each class the next one on the way to the root of its tree in the forest.
    ways: Vec<Option<Step>>,
    /// For each class how many steps it is from the root.
    depths: Vec<usize>,
    /// For each class one that is as near to the root or nearer, with nothing but lines between them that were given out.
    given_out: Vec<ClassId>,
}

/// The entry of a class, if it has one.
fn step_of(steps: &[Option<Step>], class: ClassId) -> Option<Step> {
    steps.get(class as usize).copied().flatten()
}

impl Links {
    fn new(alloc: Global, count: usize) -> Result<Links, AllocError> {
        Ok(Links {
            above: Vec::from_elem(alloc, None, count)?,
            sizes: Vec::from_elem(alloc, 1, count)?,
        })
    }

    /// The class that stood for a class and all that were the same before a line.
    fn top(&self, class: ClassId, line: LineId) -> ClassId {
        let mut top = class;
        for _ in 0..MOST_LINKS {
            match step_of(self.above.as_slice(), top) {
                Some(step) if step.line < line => top = step.to,
                _ => break,
            }
        }
        top
    }

    fn size(&self, top: ClassId) -> usize {
        self.sizes.get(top as usize).copied().unwrap_or(0)
    }

    /// Links the tree of one top to that of another.
    fn link(&mut self, smaller: ClassId, larger: ClassId, line: LineId) {
        let size = self.size(smaller).saturating_add(self.size(larger));
        if let Some(above) = self.above.get_mut(smaller as usize) {
            *above = Some(Step { to: larger, line });
        }
        if let Some(sum) = self.sizes.get_mut(larger as usize) {
            *sum = size;
        }
    }
}

/// The class of a line; the line itself where it has no expression.
pub(crate) fn class_at(log: &Log<'_>, line: LineId) -> ClassId {
    match log.member(line) {
        Some(member) => member.class,
        None => line,
    }
}

/// The two classes that a line makes the same, if it does.
fn united_by(log: &Log<'_>, line: &Line) -> Option<(ClassId, ClassId)> {
    match line {
        Line::Unites(first, second, _) => Some((*first, *second)),
        Line::Alike(first, second) => Some((class_at(log, *first), class_at(log, *second))),
        Line::Founds(_) | Line::Adds(_, _, _) | Line::Gives(_, _, _) => None,
    }
}

/// Turns the way from a class to its root round, so that the class is the root.
fn turn(ways: &mut [Option<Step>], class: ClassId) {
    let mut at = class;
    let mut next = None;
    for _ in 0..ways.len() {
        let Some(way) = ways.get_mut(at as usize) else {
            break;
        };
        let Some(Step { to, line }) = mem::replace(way, next) else {
            break;
        };
        next = Some(Step { to: at, line });
        at = to;
    }
}

/// The classes from one on whose depth isn't known, and the depth of the next behind them.
fn without_depth(
    ways: &[Option<Step>],
    depths: &[Option<usize>],
    class: ClassId,
    found: &mut Vec<ClassId>,
) -> Result<usize, AllocError> {
    let mut at = class;
    for _ in 0..ways.len() {
        if let Some(Some(depth)) = depths.get(at as usize) {
            return Ok(depth.saturating_add(1));
        }
        found.push(at)?;
        match step_of(ways, at) {
            Some(step) => at = step.to,
            None => break,
        }
    }
    Ok(0)
}

/// How many steps each class is from its root. Each class is visited twice.
fn depths_of(alloc: Global, ways: &[Option<Step>]) -> Result<Vec<usize>, AllocError> {
    let mut depths = Vec::from_elem(alloc, None, ways.len())?;
    let mut found = Vec::new(alloc);
    for class in 0..id_of(ways.len())? {
        let mut depth = without_depth(ways, depths.as_slice(), class, &mut found)?;
        for below in found.iter().rev() {
            if let Some(own) = depths.get_mut(*below as usize) {
                *own = Some(depth);
            }
            depth = depth.saturating_add(1);
        }
        found.clear();
    }
    let mut all = Vec::with_capacity(alloc, ways.len())?;
    for depth in &depths {
        all.push(depth.unwrap_or(0))?;
    }
    Ok(all)
}

impl Sameness {
    /// Goes through the lines of a log once.
    pub(crate) fn of(alloc: Global, log: &Log<'_>) -> Result<Sameness, AllocError> {
        let count = log.len();
        let mut links = Links::new(alloc, count)?;
        let mut ways = Vec::from_elem(alloc, None, count)?;
        let mut given_out = Vec::with_capacity(alloc, count)?;
        for (place, line) in log.lines().iter().enumerate() {
            let number = id_of(place)?;
            given_out.push(number)?;
            if let Some((first, second)) = united_by(log, line) {
                unite(&mut links, ways.as_mut_slice(), first, second, number);
            }
        }
        let depths = depths_of(alloc, ways.as_slice())?;
        Ok(Sameness {
            links,
            ways,
            depths,
            given_out,
        })
    }

    /// Whether two classes were the same before a line.
    pub(crate) fn were_same(&self, first: ClassId, second: ClassId, line: LineId) -> bool {
        self.top_before(first, line) == self.top_before(second, line)
    }

    /// A class that stood for a class and all that were the same before a line.
    pub(crate) fn top_before(&self, class: ClassId, line: LineId) -> ClassId {
        self.links.top(class, line)
    }

    fn depth(&self, class: ClassId) -> usize {
        self.depths.get(class as usize).copied().unwrap_or(0)
    }

    fn given_from(&self, class: ClassId) -> ClassId {
        self.given_out.get(class as usize).copied().unwrap_or(class)
    }

    fn give_out(&mut self, class: ClassId, above: ClassId) {
        if let Some(own) = self.given_out.get_mut(class as usize) {
            *own = above;
        }
    }

    /// The class nearest to the root with nothing but lines before it that were given out. The way there is halved as it is gone.
    fn first_left(&mut self, class: ClassId) -> ClassId {
        let mut at = class;
        for _ in 0..self.given_out.len() {
            let above = self.given_from(at);
            if above == at {
                break;
            }
            let next = self.given_from(above);
            self.give_out(at, next);
            at = next;
        }
        at
    }

    /// Gives out the lines by which two classes are the same, but for those that were given out before. Each is earlier than any line for which
    /// the two are the same.
    pub(crate) fn give_lines(
        &mut self,
        first: ClassId,
        second: ClassId,
        lines: &mut Vec<LineId>,
    ) -> Result<(), AllocError> {
        let mut one = self.first_left(first);
        let mut other = self.first_left(second);
        for _ in 0..self.ways.len() {
            if one == other {
                break;
            }
            if self.depth(one) < self.depth(other) {
                mem::swap(&mut one, &mut other);
            }
            let Some(Step { to, line }) = step_of(self.ways.as_slice(), one) else {
                break;
            };
            lines.push(line)?;
            self.give_out(one, to);
            one = self.first_left(to);
        }
        Ok(())
    }
}

/// Notes that two classes are the same by a line, unless they were.
fn unite(
    links: &mut Links,
    ways: &mut [Option<Step>],
    first: ClassId,
    second: ClassId,
    line: LineId,
) {
    let one = links.top(first, line);
    let other = links.top(second, line);
    if one == other {
        return;
    }
    let is_smaller = links.size(one) < links.size(other);
    let (from, to) = if is_smaller {
        (first, second)
    } else {
        (second, first)
    };
    if is_smaller {
        links.link(one, other, line);
    } else {
        links.link(other, one, line);
    }
    turn(ways, from);
    if let Some(way) = ways.get_mut(from as usize) {
        *way = Some(Step { to, line });
    }
}
