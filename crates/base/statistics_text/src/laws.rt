//! What may be written. The function does nothing: its contract is the law.

ghost use Rattle.statistics_text.specs.Shapes.{CountsFit};

/// So `write` may be called on what `Statistics::of` gives, with the schema of the database.
#[tactic(auto, using(crate::proofs::Shapes::counts_fit))]
pub fn counts_fit()
    ensures { CountsFit }
{}
