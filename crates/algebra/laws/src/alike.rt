//! The congruence of the algebra: classes that are the same may replace each other.

ghost use Rattle.algebra.specs.Alike.{AlikeIsFree, AlikeIsSame, ExpressionsKeepClasses};

/// Over classes that are the same an expression has the same columns and the same bag.
pub fn expressions_keep_classes()
    ensures { ExpressionsKeepClasses }
{}

/// Expressions that are alike have the same columns and the same bag, where classes of one root do.
pub fn alike_is_same()
    ensures { AlikeIsSame }
{}

/// Expressions that are alike have the same free columns, where classes of one root do.
pub fn alike_is_free()
    ensures { AlikeIsFree }
{}
