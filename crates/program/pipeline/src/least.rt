//! Plans with labels that are handed in: whether these show that no plan costs less.

ghost use Rattle.std.specs.Prelude.{◌≡◌, Ok, IfOk, OnOk, IfErr};
ghost use Rattle.certificate.specs.Replay.{replayed};
ghost use Rattle.planner.specs.Searched as planner;
ghost use Rattle.pipeline.specs.Least.{AcceptsLeast, AcceptsReadableLeast, IsLeastRefused, IsNotLeast, ShowLeast};
ghost use Rattle.pipeline.specs.declared.refusal.Refusal.TheVariants.{Memory};

use crate::preparation::bound_query;
use crate::refusal::Refusal;
use certificate::Certificate;
use label_text::read;
use labels;
use labels::{Goal, Label};
use prepared_query::PreparedQuery;
use query::ids::id_of;
use schema::Schema;
use statistics::Statistics;
use std::alloc::{AllocError, Global};
use values::Items;

/// The goal of a query's plans: the last class of its frame, in the order of its ORDER BY.
fn root_goal(alloc: Global, query: &PreparedQuery<'_>) -> Result<Goal, AllocError>
    ensures { IfOk result (λ goal. goal ≡ planner.root_goal query.now) }
{
    // Its contract says that it is bound, so that its frame has lines.
    let _query = query.query();
    let class = id_of(query.frame().len() - 1)?;
    let order = Items::from_vec(Vec::from_slice(alloc, query.order())?);
    Ok(Goal { class, order })
}

/// Checks a certificate against its query, and that labels show its plan to be the cheapest that its lines offer.
fn accept_least(
    alloc: Global,
    query: &PreparedQuery<'_>,
    statistics: &Statistics,
    certificate: &Certificate,
    labels: &[Label],
) -> Result<(), Refusal>
    ensures accepted { OnOk result ((replayed query.now certificate.now ≡ Ok certificate.now) × ShowLeast statistics.now query.now certificate.now labels.now) }
    ensures refused { IfErr result (IsLeastRefused statistics.now query.now certificate.now labels.now) }
{
    let log = query.judged(alloc, certificate)?;
    let root = root_goal(alloc, query)?;
    if labels::check_least(alloc, &log, statistics, &root, &certificate.plan, labels)? {
        Ok(())
    } else {
        Err(Refusal::NotLeast)
    }
}

/// Checks that a plan is the cheapest: reads the schema, the text, the statistics and a certificate with labels, replays the certificate and
/// compares what the labels say. Ok means that no plan that the certificate's lines offer for the query costs less by the statistics. Nothing
/// is searched for.
///
/// The first fault is reported, in the order schema, text, scope, statistics, certificate and labels, check, and then that the labels don't show
/// it.
pub fn check_least(
    alloc: Global,
    schema: &[u8],
    text: &[u8],
    statistics: &[u8],
    labelled: &[u8],
) -> Result<(), Refusal>
    ensures accepted { OnOk result (AcceptsLeast schema.now text.now statistics.now labelled.now) }
    ensures refused { IfErr result (IsNotLeast schema.now text.now statistics.now labelled.now) }
    // Each certificate with labels that can be read, is checked and shown to be the cheapest is accepted, unless memory runs out.
    ensures complete { AcceptsReadableLeast schema.now text.now statistics.now labelled.now → IfErr result (λ r. r ≡ Memory) }
{
    let schema = Schema::read(alloc, schema)?;
    let asked = bound_query(alloc, &schema, text)?;
    let statistics = Statistics::read(alloc, &schema, statistics)?;
    let read = read(alloc, labelled)?;
    let query = PreparedQuery::of(alloc, &asked)?;
    accept_least(
        alloc,
        &query,
        &statistics,
        &read.certificate,
        read.labels.as_slice(),
    )
}
