//! On what conditions and classes depend.

ghost use Rattle.laws.specs.Fitting.{ClassesFit, ConditionsReadMentions};

/// A condition's truth depends only on the columns that it mentions.
pub fn conditions_read_mentions()
    ensures { ConditionsReadMentions }
{}

/// The rows of a class are the environment outside the class's columns, and depend on it in the class's free columns alone.
pub fn classes_fit()
    ensures { ClassesFit }
{}
