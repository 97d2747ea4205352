//! Why bytes are no statistics.

ghost use Rattle.std.specs.Prelude.{◌≡◌};
ghost use Rattle.statistics.specs.Refusals.{code_of};

use thiserror::Error;
use values::Fault;

/// What is wrong with the bytes.
#[derive(Clone, Copy, Debug, PartialEq, Eq, Error)]
pub enum StatisticsRefusal {
    #[error("the statistics are not JSON")]
    NotJson,
    #[error("a value has another shape than is wanted there, or the schema has other tables, indexes or columns")]
    Shape,
}

pub type StatisticsFault = Fault<StatisticsRefusal>;

impl StatisticsRefusal {
    /// The code by which the program reports the refusal.
    pub fn code(self) -> &'static str
        ensures { result.now ≡ code_of self }
    {
        match self {
            StatisticsRefusal::NotJson => "N01",
            StatisticsRefusal::Shape => "N02",
        }
    }
}
