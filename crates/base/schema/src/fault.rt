//! Why bytes are no schema.

ghost use Rattle.std.specs.Prelude.{◌≡◌};
ghost use Rattle.schema.specs.Refusals.{code_of};

use thiserror::Error;
use values::Fault;

/// What is wrong with the bytes. The variants stand in the order in which they are tested, each over the whole schema.
#[derive(Clone, Copy, Debug, PartialEq, Eq, Error)]
pub enum SchemaRefusal {
    #[error("the schema is not JSON")]
    NotJson,
    #[error("a value has another shape than is wanted there, or is no name")]
    Shape,
    #[error("there are more tables, columns, lists or names in a list than a schema may have")]
    TooMany,
    #[error("a name stands twice")]
    Repeated,
    #[error("a list names no column of its table")]
    UnknownColumn,
}

pub type SchemaFault = Fault<SchemaRefusal>;

impl SchemaRefusal {
    /// The code by which the program reports the refusal.
    pub fn code(self) -> &'static str
        ensures { result.now ≡ code_of self }
    {
        match self {
            SchemaRefusal::NotJson => "S01",
            SchemaRefusal::Shape => "S02",
            SchemaRefusal::Repeated => "S03",
            SchemaRefusal::UnknownColumn => "S04",
            SchemaRefusal::TooMany => "S05",
        }
    }
}
