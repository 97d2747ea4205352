//! Plans of queries with the labels that show them to be the cheapest, as text.

ghost use Rattle.std.specs.Prelude.{IfOk, IfErr};
ghost use Rattle.query.specs.Bound.{IsBoundOver};
ghost use Rattle.pipeline.specs.Least.{AreLabelledTexts, ArePlannedTexts, IsNotLabelled, IsUnlabelled};

use crate::preparation::bound_query;
use crate::refusal::Refusal;
use certificate::Certificate;
use certificate_text::write;
use label_text;
use planner;
use planner::{Exploration, Planned};
use prepared_query::PreparedQuery;
use schema::Schema;
use statistics::Statistics;
use std::alloc::Global;

/// The text of a plan's certificate, and that of all lines of the search, the plan over these and the labels that show it to be the cheapest.
#[derive(Drop)]
pub struct LabelledTexts {
    pub certificate: Vec<u8>,
    pub labels: Vec<u8>,
}

/// The texts of what is planned for a query.
fn labelled_texts(
    alloc: Global,
    schema: &Schema,
    query: &PreparedQuery<'_>,
    statistics: &Statistics,
    limit: usize,
    exploration: Exploration,
) -> Result<LabelledTexts, Refusal>
    requires { IsBoundOver schema.now query.now }
    ensures planned { IfOk result (λ texts. ArePlannedTexts schema.now query.now statistics.now texts.certificate.items texts.labels.items) }
    ensures refused { IfErr result (IsUnlabelled schema.now query.now statistics.now) }
{
    let planned = planner::plan(alloc, query, statistics, limit, exploration)?;
    let Planned {
        log,
        plan,
        labels,
        certificate,
        ..
    } = planned;
    let certificate = write(alloc, &certificate)?;
    let searched = Certificate { lines: log, plan };
    let labels = label_text::write(alloc, &searched, labels.as_slice())?;
    Ok(LabelledTexts {
        certificate,
        labels,
    })
}

/// Plans a query as `plan` does, and gives the text of the same certificate, and a text with which `check_least` sees that no plan that the lines of the
/// search offer costs less.
///
/// The first fault is reported, in the order schema, text, scope, statistics.
pub fn plan_with_labels(
    alloc: Global,
    schema: &[u8],
    text: &[u8],
    statistics: &[u8],
    limit: usize,
    exploration: Exploration,
) -> Result<LabelledTexts, Refusal>
    // By their clauses `complete`, `check` accepts the one text and `check_least` the other.
    ensures planned { IfOk result (λ texts. AreLabelledTexts schema.now text.now statistics.now texts.certificate.items texts.labels.items) }
    ensures refused { IfErr result (IsNotLabelled schema.now text.now statistics.now) }
{
    let schema = Schema::read(alloc, schema)?;
    let asked = bound_query(alloc, &schema, text)?;
    let statistics = Statistics::read(alloc, &schema, statistics)?;
    let query = PreparedQuery::of(alloc, &asked)?;
    labelled_texts(alloc, &schema, &query, &statistics, limit, exploration)
}
