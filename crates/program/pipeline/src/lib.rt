//! Queries from the bytes of files to the bytes of an answer, and the lines of refusals.
#![tactic(auto)]

mod answer;
mod certified;
mod commands;
mod counted_columns;
pub mod execution;
pub mod explained;
mod explained_least;
mod labelled;
mod least;
pub mod measured;
mod planned;
mod preparation;
mod refusal;
pub mod written;

pub use certified::{check, run};
pub use commands::{evaluate, query, query_measured};
pub use explained::{PlanForm, explain};
pub use explained_least::explain_least;
pub use labelled::{LabelledTexts, plan_with_labels};
pub use least::check_least;
pub use measured::ReportForm;
pub use measures::Stopwatch;
pub use planned::plan;
pub use planner::Exploration;
pub use refusal::{Refusal, fault_line};
pub use written::WriteFault;
