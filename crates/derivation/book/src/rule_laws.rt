//! The laws of the book. Each function does nothing: its contract is the law.

ghost use Rattle.book.specs.Book.{BookIsSound, BookKeepsToPatterns, BookIsFormed, BookIsStable};

/// Each rule of the book is sound.
#[tactic(auto, using(crate::proofs::RuleLaws::book_sound))]
pub fn book_is_sound()
    ensures { BookIsSound }
{}

/// Each refuses what isn't of its pattern.
#[tactic(auto, using(crate::proofs::RuleLaws::book_keeps))]
pub fn book_keeps_to_patterns()
    ensures { BookKeepsToPatterns }
{}

/// Of lines that may stand each gives what may stand too.
#[tactic(auto, using(crate::proofs::RuleLaws::book_formed))]
pub fn book_is_formed()
    ensures { BookIsFormed }
{}

/// What each gives depends on the classes alone that its lines name.
#[tactic(auto, using(crate::proofs::RuleLaws::book_stable))]
pub fn book_is_stable()
    ensures { BookIsStable }
{}
