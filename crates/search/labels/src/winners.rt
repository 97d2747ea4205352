//! The law of labels. The function does nothing: its contract is the law.

ghost use Rattle.labels.specs.Labels.{LabelsShowLeast};

/// Where a plan is labelled, no plan that is offered for its goal costs less.
pub fn labelled_is_least()
    ensures { LabelsShowLeast }
{}
