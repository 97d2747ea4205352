//! Texts that are spelled out. The function does nothing: its contract is the law.

ghost use Rattle.label_text.specs.WorkedText.{LabelsAreSpelled};

/// The texts of some labels.
pub fn worked_text()
    ensures { LabelsAreSpelled }
{}
