//! What of a query has names.

ghost use Rattle.std.specs.Prelude.{◌≡◌};

use algebra::Aggregation;
use query::TableInstance;
use std::marker::Model;

/// The table instances of a query, and its aggregates with the columns that they have. Contracts see the lists themselves.
#[derive(Drop)]
pub struct Naming<'a> {
    tables: &'a [TableInstance],
    aggregates: &'a [Aggregation],
}

impl<'a> Model for Naming<'a> {
    ghost use Rattle.std.specs.Prelude.{List, refl};
    ghost use Rattle.std.specs.Coded.{codes, code_by};
    ghost use Rattle.query.specs.declared.query.TableInstance.{TableInstance};
    ghost use Rattle.query.specs.contracts.query.TableInstance as t;
    ghost use Rattle.algebra.specs.declared.expr.Aggregation.{Aggregation};
    ghost use Rattle.algebra.specs.contracts.expr.Aggregation as a;
    ghost use Rattle.explain.specs.Names.{Naming as Named};

    ghost Value = { Named };

    ghost coded = { code_by (List TableInstance × List Aggregation) (Prim.hlevel (codes, t.the_row.coded, a.the_row.coded)) (λ n. (n.tables, n.aggregates)) (λ t. record { tables = t.0; aggregates = t.1 }) (λ _. refl) };

    ghost view = { λ n. record { tables = n.tables.now; aggregates = n.aggregates.now } };
}

impl<'a> Naming<'a> {
    pub fn new(tables: &'a [TableInstance], aggregates: &'a [Aggregation]) -> Naming<'a>
        ensures { result ≡ record { tables = tables.now; aggregates = aggregates.now } }
    {
        Naming { tables, aggregates }
    }

    pub(crate) fn tables(&self) -> &'a [TableInstance]
        ensures { result.now ≡ self.now.tables }
    {
        self.tables
    }

    pub(crate) fn aggregates(&self) -> &'a [Aggregation]
        ensures { result.now ≡ self.now.aggregates }
    {
        self.aggregates
    }
}
