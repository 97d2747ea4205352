//! Certificates of queries, as text.

ghost use Rattle.std.specs.Prelude.{◌≡◌, Ok, IfOk, IfErr};
ghost use Rattle.query.specs.Bound.{IsBoundOver};
ghost use Rattle.certificate_text.specs.Limits.{written};
ghost use Rattle.certificate_text.specs.Readable.{IsReadableCertificate};
ghost use Rattle.pipeline.specs.Certified.{AcceptsReadable};
ghost use Rattle.pipeline.specs.Planned.{IsNotPlanned, IsUnwritten, WithChecked};

use crate::preparation::bound_query;
use crate::refusal::Refusal;
use certificate_text::write;
use planner;
use planner::Exploration;
use prepared_query::PreparedQuery;
use schema::Schema;
use statistics::Statistics;
use std::alloc::Global;

/// The text of the certificate that is planned for a query.
fn planned_text(
    alloc: Global,
    schema: &Schema,
    query: &PreparedQuery<'_>,
    statistics: &Statistics,
    limit: usize,
    exploration: Exploration,
) -> Result<Vec<u8>, Refusal>
    requires { IsBoundOver schema.now query.now }
    ensures planned { IfOk result (λ text. WithChecked schema.now query.now (λ c. (written c ≡ Ok text.items) × IsReadableCertificate c)) }
    ensures refused { IfErr result (IsUnwritten schema.now query.now) }
{
    let planned = planner::plan(alloc, query, statistics, limit, exploration)?;
    Ok(write(alloc, &planned.certificate)?)
}

/// Plans a query: reads the schema, the text and the statistics, and gives the text of a certificate that `check` accepts for the query. Its
/// plan is the cheapest that was found over a log of at most `limit` lines, explored so far.
///
/// The first fault is reported, in the order schema, text, scope, statistics.
pub fn plan(
    alloc: Global,
    schema: &[u8],
    text: &[u8],
    statistics: &[u8],
    limit: usize,
    exploration: Exploration,
) -> Result<Vec<u8>, Refusal>
    // The text is accepted by `check`, as its clause `complete` says of each certificate that can be read.
    ensures planned { IfOk result (λ certificate. AcceptsReadable schema.now text.now certificate.items) }
    ensures refused { IfErr result (IsNotPlanned schema.now text.now statistics.now) }
{
    let schema = Schema::read(alloc, schema)?;
    let asked = bound_query(alloc, &schema, text)?;
    let statistics = Statistics::read(alloc, &schema, statistics)?;
    let query = PreparedQuery::of(alloc, &asked)?;
    planned_text(alloc, &schema, &query, &statistics, limit, exploration)
}
