//! Conditions and their texts. The function does nothing: its contract is the law.

ghost use Rattle.certificate_text.specs.DifferentTexts.{TextsTellConditions, ConjunctsRise};

/// Different conditions have different texts, so the order of conjuncts, in which no two are the same, is the order of their texts.
pub fn texts_tell_conditions()
    ensures told { TextsTellConditions }
    ensures conjuncts { ConjunctsRise }
{}
