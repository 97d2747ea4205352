//! Reading a schema.

ghost use Rattle.std.specs.Prelude.{IfOk, Ok};
ghost use Rattle.values.specs.Faults.{Gives};
ghost use Rattle.schema.specs.Reading.{schema_of};
ghost use Rattle.schema.specs.declared.schema.Schema.{Schema};
ghost use Rattle.schema.specs.Schemas.{IsSchema};
ghost use Rattle.schema.specs.Spelling.{IsSchemaText};

use crate::each::each;
use crate::entries::entries_of;
use crate::fault::{SchemaFault, SchemaRefusal};
use crate::limits::{are_few, names_differ};
use crate::places::TablePlacer;
use crate::schema::Schema;
use std::alloc::Global;

/// What the bytes read as. The tests stand in the order of their codes, each over the whole schema.
#[tactic(auto, unfolding(crate::specs::Reading::schema_of))]
fn read_schema(alloc: Global, bytes: &[u8]) -> Result<Schema, SchemaFault>
    ensures exact { Gives (λ x. x) result (schema_of bytes.now) }
    ensures schema { IfOk result IsSchema }
    ensures spelt { IfOk result (IsSchemaText bytes.now) }
{
    let entries = entries_of(alloc, bytes)?;
    if !are_few(entries.as_slice()) {
        return Err(SchemaFault::Refused(SchemaRefusal::TooMany));
    }
    if !names_differ(entries.as_slice()) {
        return Err(SchemaFault::Refused(SchemaRefusal::Repeated));
    }
    let tables = each(alloc, &TablePlacer, entries.as_slice())?;
    Ok(Schema { tables })
}

impl Schema {
    /// The schema that the bytes spell as JSON.
    pub fn read(alloc: Global, bytes: &[u8]) -> Result<Schema, SchemaFault>
        ensures exact { Gives (λ x. x) result (schema_of bytes.now) }
        ensures schema { IfOk result IsSchema }
        ensures spelt { IfOk result (IsSchemaText bytes.now) }
        // Bytes that spell a schema are not refused, and spell no other.
        ensures only { (s : Schema) → IsSchemaText bytes.now s → Gives (λ x. x) result (Ok s) }
    {
        read_schema(alloc, bytes)
    }
}
