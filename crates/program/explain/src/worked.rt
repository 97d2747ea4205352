//! Texts that are spelled out. The function does nothing: its contract is the law.

ghost use Rattle.explain.specs.WorkedTexts.{ColumnsAreSpelled, ConditionsAreSpelled, MeasuresAreSpelled, NodesAreSpelled, PictureIsSpelled, PlanIsSpelled};

/// The texts of columns, of each form of condition, of a plan, of a node of each operator, of a picture, and of a plan that was measured.
pub fn worked_texts()
    ensures columns { ColumnsAreSpelled }
    ensures conditions { ConditionsAreSpelled }
    ensures plan { PlanIsSpelled }
    ensures nodes { NodesAreSpelled }
    ensures picture { PictureIsSpelled }
    ensures measures { MeasuresAreSpelled }
{}
