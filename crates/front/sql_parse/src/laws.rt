//! The law that a text has one reading. The function does nothing: its contract is the law.

ghost use Rattle.sql_parse.specs.OneReading.{
  FaultsAreOne,
  TokensAreOne,
  TreesAreOne,
  TreesHaveNoFault,
};

/// No bytes are two lists of tokens, and no text has two trees, a tree and a fault, or two first faults.
pub fn texts_have_one_reading()
    ensures tokens { TokensAreOne }
    ensures trees { TreesAreOne }
    ensures either { TreesHaveNoFault }
    ensures faults { FaultsAreOne }
{}
