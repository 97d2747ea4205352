//! The laws of frames. The functions do nothing: their contracts are the laws.

ghost use Rattle.frame.specs.FormedFrames.{FramesAreFormed};
ghost use Rattle.frame.specs.Frames.{FramesMean};

/// The frame of a bound query of any form means the query: joins, left joins and commas, conditions with nested and
/// correlated subqueries, groups with and without keys, and DISTINCT.
pub fn frames_mean()
    ensures { FramesMean }
{}

/// Each line of a bound query's frame is well formed over the classes before it: it names earlier classes alone, reads the
/// query's own columns, and joins sides that share none. The last class has the columns that the query shows.
pub fn frames_are_formed()
    ensures { FramesAreFormed }
{}
