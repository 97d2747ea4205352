//! A query as binding gives it.

ghost use Rattle.std.specs.Prelude.{◌≡◌, true};
ghost use Rattle.query.specs.Bound.{is_bound};

use crate::query::Query;
use std::marker::Model;

/// A query all of whose names are there, with columns of their own and no subquery in an ON. Contracts see it as the query.
#[derive(Drop)]
pub struct BoundQuery {
    query: Query,
}

impl Model for BoundQuery {
    ghost use Rattle.std.specs.Prelude.{◌≡◌, true};
    ghost use Rattle.query.specs.declared.query.Query.{Query};
    ghost use Rattle.query.specs.contracts.query.Query as q;
    ghost use Rattle.query.specs.Bound.{is_bound};

    ghost Value = { Query };

    ghost coded = { q.the_row.coded };

    ghost view = { λ b. b.query };

    ghost invariant = { λ b. is_bound b.query ≡ true };
}

impl BoundQuery {
    pub fn new(query: Query) -> BoundQuery
        requires { is_bound query ≡ true }
        ensures { result ≡ query }
    {
        BoundQuery { query }
    }

    pub fn query(&self) -> &Query
        ensures query { result.now ≡ self.now }
        ensures bound { is_bound self.now ≡ true }
    {
        &self.query
    }
}
