//! A certificate that has been checked.

ghost use Rattle.std.specs.Prelude.{◌≡◌, IfOk};
ghost use Rattle.values.specs.Faults.{Gives};
ghost use Rattle.query.specs.Bound.{TablesAreOver};
ghost use Rattle.certificate.specs.Replay.{replayed, IsChecked};

use certificate::{Certificate, CheckFault};
use prepared_query::PreparedQuery;
use query::Query;
use schema::Schema;
use std::alloc::Global;
use std::marker::Model;

/// Checks that each line of a certificate may stand where it does, that each node of its plan is of the class that is wanted
/// of it, and that the plan delivers the ORDER BY. Else the first fault is reported; lines go before nodes. A plan with
/// more nodes than there are numbers has no room in memory, and is reported so.
pub fn check<'a>(
    alloc: Global,
    schema: &'a Schema,
    query: &PreparedQuery<'a>,
    certificate: &'a Certificate,
) -> Result<Checked<'a>, CheckFault>
    requires { TablesAreOver schema.now query.now }
    ensures verdict { Gives (λ c. c.certificate) result (replayed query.now certificate.now) }
    ensures of { IfOk result (λ c. (c.schema ≡ schema.now) × (c.query ≡ query.now)) }
{
    let _log = query.judged(alloc, certificate)?;
    Ok(Checked {
        schema,
        query: query.query(),
        certificate,
    })
}

/// A certificate that was checked against its query: its plan gives answers of the query.
#[derive(Drop)]
pub struct Checked<'a> {
    schema: &'a Schema,
    query: &'a Query,
    certificate: &'a Certificate,
}

impl<'a> Model for Checked<'a> {
    ghost use Rattle.std.specs.Prelude.{refl};
    ghost use Rattle.std.specs.Coded.{codes, code_by};
    ghost use Rattle.schema.specs.declared.schema.Schema.{Schema};
    ghost use Rattle.schema.specs.contracts.schema.Schema as s;
    ghost use Rattle.query.specs.declared.query.Query.{Query};
    ghost use Rattle.query.specs.contracts.query.Query as q;
    ghost use Rattle.certificate.specs.declared.certificate.Certificate.{Certificate};
    ghost use Rattle.certificate.specs.contracts.certificate.Certificate as c;
    ghost use Rattle.certificate.specs.Replay.{IsChecked};
    ghost use Rattle.checker.specs.Accepted.{Accepted};

    ghost Value = { Accepted };

    ghost coded = { code_by (Schema × Query × Certificate) (Prim.hlevel (codes, s.the_row.coded, q.the_row.coded, c.the_row.coded)) (λ a. (a.schema, a.query, a.certificate)) (λ t. record { schema = t.0; query = t.1; certificate = t.2 }) (λ _. refl) };

    ghost view = { λ c. record { schema = c.schema.now; query = c.query.now; certificate = c.certificate.now } };

    ghost invariant = { λ c. IsChecked c.schema.now c.query.now c.certificate.now };
}

impl<'a> Checked<'a> {
    pub fn schema(&self) -> &'a Schema
        ensures { result.now ≡ self.now.schema }
    {
        self.schema
    }

    pub fn query(&self) -> &'a Query
        ensures { result.now ≡ self.now.query }
    {
        self.query
    }

    /// The certificate. It replays, and in each database that satisfies the schema its plan gives an answer of the query.
    pub fn certificate(&self) -> &'a Certificate
        ensures certificate { result.now ≡ self.now.certificate }
        ensures checked { IsChecked self.now.schema self.now.query self.now.certificate }
    {
        self.certificate
    }
}
