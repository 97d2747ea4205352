//! Numerals as std spells them, and terms and conditions as algebra does. The functions do nothing: their contracts are the laws.

ghost use Rattle.certificate_text.specs.DecimalNumerals.{NumeralsAreDecimal, TermsAreAlgebras};
ghost use Rattle.certificate_text.specs.ConditionReading.{ConditionsAreAlgebras};

/// What this crate reads as a number up to 64 bits is what `certificate_text` writes.
pub fn numerals_are_decimal()
    ensures { NumeralsAreDecimal }
{}

/// What this crate reads as a term in its ranges is what `algebra` spells.
pub fn terms_are_algebras()
    ensures { TermsAreAlgebras }
{}

/// What this crate reads as a condition in its ranges is what `algebra` spells.
pub fn conditions_are_algebras()
    ensures { ConditionsAreAlgebras }
{}
