//! Reading statistics.

ghost use Rattle.std.specs.Prelude.{IfOk, Ok};
ghost use Rattle.values.specs.Faults.{Gives};
ghost use Rattle.statistics.specs.Reading.{statistics_of};
ghost use Rattle.statistics.specs.Spelling.{IsStatisticsText};
ghost use Rattle.statistics.specs.declared.counts.Statistics.{Statistics};

use crate::counts::Statistics;
use crate::entries::tables_of;
use crate::fault::{StatisticsFault, StatisticsRefusal};
use json_parts::json_of;
use schema::Schema;
use std::alloc::Global;

/// What the bytes read as.
#[tactic(auto, unfolding(crate::specs::Reading::statistics_of))]
fn read_statistics(
    alloc: Global,
    schema: &Schema,
    bytes: &[u8],
) -> Result<Statistics, StatisticsFault>
    ensures { Gives (λ x. x) result (statistics_of schema.now bytes.now) }
{
    let value = json_of(alloc, bytes, StatisticsRefusal::NotJson)?;
    let tables = tables_of(alloc, schema.tables.as_slice(), &value)?;
    Ok(Statistics { tables })
}

impl Statistics {
    /// The statistics of the schema's tables that the bytes spell as JSON.
    pub fn read(alloc: Global, schema: &Schema, bytes: &[u8]) -> Result<Statistics, StatisticsFault>
        ensures exact { Gives (λ x. x) result (statistics_of schema.now bytes.now) }
        ensures spelt { IfOk result (IsStatisticsText schema.now bytes.now) }
        // Bytes that spell statistics are not refused, and spell no others.
        ensures only { (s : Statistics) → IsStatisticsText schema.now bytes.now s → Gives (λ x. x) result (Ok s) }
    {
        read_statistics(alloc, schema, bytes)
    }
}
