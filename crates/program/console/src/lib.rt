//! What the command line may be, and long work: the files and the output that it watches, and the lines on standard error that say how far it is.
#![tactic(auto)]

mod commands;
mod input;
mod progress;

pub use commands::command;
pub use input::{TableFile, TableWatch};
pub use progress::{Progress, WatchedOutput};
