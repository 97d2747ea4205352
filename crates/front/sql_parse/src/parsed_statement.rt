//! A statement as texts have it.

ghost use Rattle.std.specs.Prelude.{◌≡◌, true};
ghost use Rattle.sql_parse.specs.PlainOns.{ons_are_plain};

use crate::statement::Statement;
use std::marker::Model;

/// The tree of a statement none of whose ONs has a subquery. Contracts see it as the tree.
#[derive(Drop)]
pub struct ParsedStatement {
    statement: Statement,
}

impl Model for ParsedStatement {
    ghost use Rattle.std.specs.Prelude.{◌≡◌, true};
    ghost use Rattle.std.specs.Coded.{codes};
    ghost use Rattle.sql_parse.specs.declared.statement.Statement.{Statement};
    ghost use Rattle.sql_parse.specs.contracts.statement.Statement as tree;
    ghost use Rattle.sql_parse.specs.PlainOns.{ons_are_plain};

    ghost Value = { Statement };

    ghost coded = { tree.the_row.coded };

    ghost view = { λ s. s.statement };

    ghost invariant = { λ s. ons_are_plain s.statement ≡ true };
}

impl ParsedStatement {
    pub(crate) fn new(statement: Statement) -> ParsedStatement
        requires { ons_are_plain statement ≡ true }
        ensures { result ≡ statement }
    {
        ParsedStatement { statement }
    }

    pub fn tree(&self) -> &Statement
        ensures tree { result.now ≡ self.now }
        ensures plain { ons_are_plain self.now ≡ true }
    {
        &self.statement
    }
}
