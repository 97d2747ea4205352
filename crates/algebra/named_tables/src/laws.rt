//! The law of named tables. The function does nothing: its contract is the law.

ghost use Rattle.named_tables.specs.Names.{OthersDoNotCount};

/// Whatever stands in the tables that a bound query doesn't name, its answers are the same.
pub fn others_do_not_count()
    ensures { OthersDoNotCount }
{}
