//! The law of the first fault of a text. Its function does nothing: its contract is the law.

ghost use Rattle.certificate_read.specs.OneFault.{FaultsAreOne};

/// A text has one first fault at most, whoever reads it: no other line is the first faulty one, and none is refused for two reasons.
pub fn first_fault_is_one()
    ensures { FaultsAreOne }
{}
