//! Grammars as values, what their words are, and how a reader with one token of look-ahead goes through a word.
//!
//! There is no code here: `specs` says what a word of a grammar and the first fault of a list of tokens are, and how a
//! reader reads; `proofs` has the theorems between the two, over all grammars. A parser names its grammar, writes its
//! readers against `parse`, and has its own contract from them.
#![tactic(auto)]
