//! The text of a query: tokens, and the tree that they are.
#![tactic(auto)]

mod class;
mod clauses;
mod conditions;
pub mod fault;
mod having;
pub mod laws;
mod lexer;
pub mod name;
mod parsed_statement;
mod reading;
pub mod statement;
mod statement_parser;
mod token;

pub use fault::{ParseFault, ParseReason, ParseRefusal};
pub use laws::texts_have_one_reading;
pub use name::Name;
pub use parsed_statement::ParsedStatement;
pub use statement_parser::{parse, parse_bytes};
