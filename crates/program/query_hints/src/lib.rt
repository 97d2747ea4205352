//! What would fit where the text of a query is refused: the tables and columns that there are, and what to write in place of another dialect's habits;
//! and what of a text that is accepted means something else elsewhere.
#![tactic(auto)]

mod continuations;
mod habits;
mod names;
mod search;
mod warnings;

pub use continuations::{example_there, tokens_there};
pub use habits::habits_there;
pub use search::names_there;
pub use warnings::warnings_there;
