//! The laws of logs. The functions do nothing: their contracts are the laws.

ghost use Rattle.derivation.specs.Examples.{WorkedLogs};
ghost use Rattle.derivation.specs.Laws.{LogsAreTrue, SamenessIsLeast};

/// In each database that satisfies the schema, what the lines of a log that replays say is true.
pub fn logs_are_true()
    ensures { LogsAreTrue }
{}

/// The classes of a log that replays are the same where the least equivalence says so that makes the two classes of each line one
/// that unites two.
pub fn sameness_is_least()
    ensures { SamenessIsLeast }
{}

/// Lines of every kind and steps of every rule may stand where they should: small logs, worked out.
pub fn worked_logs_replay()
    ensures { WorkedLogs }
{}
