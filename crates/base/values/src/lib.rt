//! SQL values, their total order, and three-valued truth; and the containers of plain data.
//!
//! `Items` and `Boxed` are a `Vec` and a `Box` that contracts see as a list and as a value. With `Text`, a `String` that
//! contracts see as its bytes, the types built of them are plain data: two values are equal in a contract exactly where a
//! reader can't distinguish them.
#![tactic(auto)]

pub mod cell;
pub mod fault;
pub mod keys;
pub mod literal;
pub mod text;
pub mod truth;
pub mod value;

pub use cell::{Cell, compare, directed_order, order, same};
pub use fault::Fault;
pub use keys::first_decided;
pub use literal::Literal;
pub use sqlite_items::{Boxed, Items};
pub use text::Text;
pub use truth::{Comparison, Truth};
pub use value::Value;
