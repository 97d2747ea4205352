//! Cursors: the rows of a plan one after the other, lent from tables. No list of the rows that a scan, a filter, a projection or a join at its top
//! gives is kept: they are looked up or made a chunk at a time.
#![tactic(auto)]

mod chunks;
mod cursor;
mod fault;
mod lent_row;
mod opening;
mod projected;
mod selected;
mod shown;

pub use cursor::Cursor;
pub use fault::RunFault;
pub use lent_row::LentRow;
