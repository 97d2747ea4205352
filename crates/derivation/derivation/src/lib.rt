//! The lines of a derivation: what each of them says, when it may stand, and that what they say is true.
#![tactic(auto)]

mod copies;
pub mod line;
pub mod numbers;
pub mod soundness;

pub use copies::{copy_expr, copy_fact};
pub use line::{Line, LineReason, Step};
pub use numbers::Numbers;
