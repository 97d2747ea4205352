//! Classes that are the same, in groups.

use algebra::{ClassId, LineId};
use query::ids::id_of;
use std::alloc::{AllocError, Global};
use std::mem;

/// Classes that are the same, and the lines that have one of them as an input.
#[derive(Drop)]
struct Group {
    classes: Vec<ClassId>,
    parents: Vec<LineId>,
    /// How many lines there were when something of it became known last: a class more, or a fact.
    changed_at: usize,
}

/// Groups by their numbers, each of which is that of a class. A line that founds no class has a group of its own too, so that the lists are as
/// long as the log.
pub(crate) struct Groups {
    alloc: Global,
    /// For each class its group.
    group_of: Vec<u32>,
    /// For each group its classes and parents; none where they went over to another one.
    groups: Vec<Group>,
}

// By hand, so that where it is dropped is one call.
impl Drop for Groups {
    fn drop(self) {
        let Groups {
            alloc: _,
            group_of: _,
            groups: _,
        } = self;
    }
}

/// Whether each line is behind the one before it.
fn is_rising(lines: &[LineId]) -> bool {
    let mut least = 0;
    for line in lines {
        if *line < least {
            return false;
        }
        least = line.saturating_add(1);
    }
    true
}

impl Group {
    fn none(alloc: Global) -> Group {
        Group {
            classes: Vec::new(alloc),
            parents: Vec::new(alloc),
            changed_at: 0,
        }
    }

    /// How much there is to move.
    fn size(&self) -> usize {
        self.classes.len().saturating_add(self.parents.len())
    }
}

impl Groups {
    pub(crate) fn none(alloc: Global) -> Groups {
        Groups {
            alloc,
            group_of: Vec::new(alloc),
            groups: Vec::new(alloc),
        }
    }

    /// How many classes there are.
    pub(crate) fn count(&self) -> usize {
        self.groups.len()
    }

    /// Adds a class of the next number, alone in its group.
    pub(crate) fn add(&mut self) -> Result<(), AllocError> {
        let class = id_of(self.groups.len())?;
        let mut group = Group::none(self.alloc);
        group.classes.push(class)?;
        self.groups.push(group)?;
        self.group_of.push(class)?;
        Ok(())
    }

    /// The group of a class; its own number where there is no such class.
    pub(crate) fn of(&self, class: ClassId) -> u32 {
        match self.group_of.get(class as usize) {
            Some(group) => *group,
            None => class,
        }
    }

    /// Adds that a line has a class as an input. Lines come in rising order.
    pub(crate) fn add_parent(&mut self, class: ClassId, line: LineId) -> Result<(), AllocError> {
        let group = self.of(class);
        if let Some(group) = self.groups.get_mut(group as usize) {
            if group.parents.last() != Some(&line) {
                group.parents.push(line)?;
            }
        }
        Ok(())
    }

    /// The lines that have the class, or one that is the same, as an input: each once, rising.
    pub(crate) fn parents(&self, class: ClassId) -> Result<Vec<LineId>, AllocError> {
        let mut parents = Vec::new(self.alloc);
        if let Some(group) = self.groups.get(self.of(class) as usize) {
            parents.extend_from_slice(group.parents.as_slice())?;
        }
        // Mostly they are as they came.
        if !is_rising(parents.as_slice()) {
            parents.sort_unstable();
            parents.dedup();
        }
        Ok(parents)
    }

    /// How many lines there were when something became known last of the class, or of one that is the same: that another is the same, or a fact.
    pub(crate) fn changed_at(&self, class: ClassId) -> usize {
        match self.groups.get(self.of(class) as usize) {
            Some(group) => group.changed_at,
            None => 0,
        }
    }

    /// Notes that something became known of a class by the last line.
    pub(crate) fn note_change(&mut self, class: ClassId) {
        let count = self.groups.len();
        let group = self.of(class);
        if let Some(group) = self.groups.get_mut(group as usize) {
            group.changed_at = count;
        }
    }

    /// How much there is to move of a group.
    fn size(&self, group: u32) -> usize {
        match self.groups.get(group as usize) {
            Some(group) => group.size(),
            None => 0,
        }
    }

    /// Moves what a group has to another one, and lends it.
    fn moved(&mut self, into: u32, from: u32) -> Result<Group, AllocError> {
        let mut moved = Group::none(self.alloc);
        if let Some(group) = self.groups.get_mut(from as usize) {
            mem::swap(group, &mut moved);
        }
        if let Some(group) = self.groups.get_mut(into as usize) {
            group.classes.extend_from_slice(moved.classes.as_slice())?;
            group.parents.extend_from_slice(moved.parents.as_slice())?;
        }
        Ok(moved)
    }

    /// Makes the groups of two classes one: the smaller goes into the larger, so that n lines are moved n log n times at most. The lines
    /// that have an input whose group is another one now.
    pub(crate) fn unite(
        &mut self,
        first: ClassId,
        second: ClassId,
    ) -> Result<Vec<LineId>, AllocError> {
        let one = self.of(first);
        let other = self.of(second);
        if one == other {
            return Ok(Vec::new(self.alloc));
        }
        let (into, from) = if self.size(one) < self.size(other) {
            (other, one)
        } else {
            (one, other)
        };
        let Group {
            classes,
            parents,
            changed_at: _,
        } = self.moved(into, from)?;
        self.note_change(into);
        for class in &classes {
            if let Some(group) = self.group_of.get_mut(*class as usize) {
                *group = into;
            }
        }
        Ok(parents)
    }
}
