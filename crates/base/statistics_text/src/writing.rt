//! Writing statistics.

ghost use Rattle.std.specs.Prelude.{IfOk, string_bytes};
ghost use Rattle.schema.specs.Schemas.{IsSchema};
ghost use Rattle.statistics.specs.Spelling.{IsStatisticsText};
ghost use Rattle.statistics_text.specs.Shapes.{FitsSchema};

use crate::entries::each_table;
use schema::Schema;
use serde_json::{Map, Value, put};
use statistics::Statistics;
use std::alloc::{AllocError, Global};

/// The JSON of the statistics, on one line with no spaces. `Statistics::read` gives them back.
pub fn write(alloc: Global, schema: &Schema, statistics: &Statistics) -> Result<String, AllocError>
    requires whole { IsSchema schema.now }
    requires fitting { FitsSchema schema.now statistics.now }
    ensures { IfOk result (λ text. IsStatisticsText schema.now (string_bytes text) statistics.now) }
{
    let tables = each_table(
        alloc,
        schema.tables.as_slice(),
        statistics.tables.as_slice(),
    )?;
    let mut members = Map::new(alloc);
    put(&mut members, alloc, "tables", Value::Object(tables))?;
    Value::Object(members).to_string(alloc)
}
