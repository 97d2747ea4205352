//! Labels by the classes of their goals.

ghost use Rattle.std.specs.Prelude.{◌≡◌, ◌<◌, [], false, map, slice_index_or, IfOk, MatchOption};
ghost use Rattle.std.specs.List.{AllByRecursion, list_any};
ghost use Rattle.labels.specs.ByClass as kept;
ghost use Rattle.labels.specs.Labels as spec;
ghost use Rattle.labels.specs.Offers as offers;

use crate::goal::{Goal, Label};
use crate::offers::same_goal;
use algebra::ClassId;
use std::alloc::{AllocError, Global};

/// For each class the labels of its goals. Only labels of one class can be of one goal, so a goal is looked up among few.
#[derive(Drop)]
pub(crate) struct LabelsByClass<'l> {
    pub classes: Vec<Vec<&'l Label>>,
}

/// Whether one of the labels is of the same goal.
fn is_among(label: &Label, labels: &[&Label]) -> bool
    ensures { result ≡ list_any (λ k. offers.same_goal label.now.goal k.goal) (map (λ l. l.now) labels.now) }
{
    for other in labels {
        if same_goal(&label.goal, &other.goal) {
            return true;
        }
    }
    false
}

/// The cost of a goal's label, if one of the labels is of it.
fn cost_among(labels: &[&Label], goal: &Goal) -> Option<u64>
    ensures { result ≡ spec.cost_of (map (λ l. l.now) labels.now) goal.now }
{
    for label in labels {
        if same_goal(&label.goal, goal) {
            return Some(label.cost);
        }
    }
    None
}

/// The labels by their classes, of which there are so many; none where two labels are of one goal.
pub(crate) fn labels_by_class<'l>(
    alloc: Global,
    count: usize,
    labels: &'l [Label],
) -> Result<Option<LabelsByClass<'l>>, AllocError>
    requires { AllByRecursion (λ l. l.goal.class < count) labels.now }
    ensures { IfOk result (λ found. MatchOption found (spec.are_once labels.now ≡ false) (λ by. kept.IsByClass labels.now by)) }
{
    let mut classes = Vec::new(alloc);
    for _made in 0..count {
        classes.push(Vec::new(alloc))?;
    }
    for label in labels {
        let own = &mut classes[label.goal.class as usize];
        if is_among(label, own.as_slice()) {
            return Ok(None);
        }
        own.push(label)?;
    }
    Ok(Some(LabelsByClass { classes }))
}

impl<'l> LabelsByClass<'l> {
    /// The labels of a class's goals; none where there is no such class.
    pub(crate) fn of(&self, class: ClassId) -> Option<&Vec<&'l Label>>
        ensures { MatchOption result (slice_index_or (kept.labels_in self.now) class [] ≡ []) (λ own. map (λ l. l.now) own.now.items ≡ slice_index_or (kept.labels_in self.now) class []) }
    {
        self.classes.as_slice().get(class as usize)
    }

    /// The cost of a goal's label, if it has one.
    pub(crate) fn cost_of(&self, goal: &Goal) -> Option<u64>
        ensures { result ≡ spec.cost_of (slice_index_or (kept.labels_in self.now) goal.now.class []) goal.now }
    {
        match self.of(goal.class) {
            Some(own) => cost_among(own.as_slice(), goal),
            None => None,
        }
    }
}
