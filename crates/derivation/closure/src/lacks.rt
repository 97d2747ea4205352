//! What a log lacks to be closed.

use algebra::{ClassId, LineId};
use bindings::Binding;
use props::Fact;

/// Something that a log lacks to be closed.
#[derive(Drop)]
pub enum Missing {
    /// Two lines are alike, and of classes that aren't the same.
    Alike(LineId, LineId),
    /// What a rule gives at lines doesn't stand in the class of the top one.
    Result(Binding),
    /// A line gives a fact of its class that isn't known of it.
    Fact(ClassId, LineId, Fact),
}
