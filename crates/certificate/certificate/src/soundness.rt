//! The laws of certificates. The functions do nothing: their contracts are the laws.

ghost use Rattle.certificate.specs.NodeInputs.{NodesHaveInputs};
ghost use Rattle.certificate.specs.Replay.{FramesReplay, ReplayIsSound};

/// In each database that satisfies the schema, the plan of a certificate that replays gives an answer of the query.
pub fn replay_is_sound()
    ensures { ReplayIsSound }
{}

/// The lines that found the classes of a bound query's frame replay.
pub fn frames_replay()
    ensures { FramesReplay }
{}

/// Each node of the plan of a certificate that replays has the inputs that its operator takes, and what merges is an inner join.
pub fn nodes_have_inputs()
    ensures { NodesHaveInputs }
{}
