//! Facts that lines give are learned.

ghost use Rattle.std.specs.Prelude.{◌≡◌, ◌<◌, length, Ok, OnOk};
ghost use Rattle.derivation.specs.declared.line.Line.TheVariants.{Gives};
ghost use Rattle.derivation.specs.Replay.{stands};
ghost use Rattle.bindings.specs.Lean.{SaysNew};
ghost use Rattle.closure.specs.Lacking.{LacksGiven};
ghost use Rattle.lean_logs.specs.Growth.{Extends, GrowsLean};

use crate::news::has_news;
use algebra::{ClassId, LineId};
use closure::lacking_fact;
use derivation::Line;
use memo::Memo;
use props::Fact;
use query::ids::id_of;
use std::alloc::{AllocError, Global};

/// So many facts are learned by a line at most in one pass.
const MOST_FACTS: usize = 1_000;

/// A log is gone through so often at most.
const MOST_PASSES: usize = 100;

/// How many lines the log had behind the last look at each of its first lines.
#[derive(Drop)]
pub(crate) struct Looks {
    at: Vec<usize>,
}

impl Looks {
    pub(crate) fn none(alloc: Global) -> Looks {
        Looks {
            at: Vec::new(alloc),
        }
    }

    /// Whether a line may give something that it didn't give then.
    fn is_due(&self, memo: &Memo<'_>, line: LineId) -> bool {
        match (self.at.get(line as usize), memo.log().member(line)) {
            (Some(at), Some(member)) => has_news(memo, member, *at),
            (None, Some(_)) => true,
            (_, None) => false,
        }
    }

    /// Notes that the line was looked at. Of the lines that weren't it is the first.
    fn note(&mut self, line: LineId, lines: usize) -> Result<(), AllocError> {
        match self.at.get_mut(line as usize) {
            Some(at) => *at = lines,
            None => self.at.push(lines)?,
        }
        Ok(())
    }
}

/// Adds that a fact holds of a class by a line of it, if there is room.
fn learn(
    alloc: Global,
    memo: &mut Memo<'_>,
    class: ClassId,
    line: LineId,
    fact: Fact,
) -> Result<(), AllocError>
    ensures extends { Extends memo.old.limit memo.old.log memo.new.log }
    ensures lean { OnOk result (GrowsLean memo.old.limit memo.old.log memo.new.log) }
    ensures limit { memo.new.limit ≡ memo.old.limit }
    ensures added { OnOk result (length memo.old.log.log < memo.old.limit → stands memo.old.log.instances memo.old.log.own memo.old.log.log (Gives class line fact) ≡ Ok (Gives class line fact) → SaysNew memo.old.log.instances memo.old.log.log (Gives class line fact) → length memo.old.log.log < length memo.new.log.log) }
{
    memo.add(alloc, Line::Gives(class, line, fact))
}

/// Learns what a line gives, until all of that is known or the log is full.
fn learn_of(alloc: Global, memo: &mut Memo<'_>, line: LineId) -> Result<(), AllocError>
    ensures extends { Extends memo.old.limit memo.old.log memo.new.log }
    ensures lean { OnOk result (GrowsLean memo.old.limit memo.old.log memo.new.log) }
    ensures limit { memo.new.limit ≡ memo.old.limit }
{
    for _ in 0..MOST_FACTS {
        if memo.is_full() {
            break;
        }
        let Some(member) = memo.log().member(line) else {
            break;
        };
        let class = member.class;
        let Some(fact) = lacking_fact(alloc, memo.log(), member)? else {
            break;
        };
        learn(alloc, memo, class, line, fact)?;
    }
    Ok(())
}

/// The same, unless nothing has become known of what the line names since the last look at it.
fn look_at(
    alloc: Global,
    memo: &mut Memo<'_>,
    looks: &mut Looks,
    line: LineId,
) -> Result<(), AllocError>
    ensures extends { Extends memo.old.limit memo.old.log memo.new.log }
    ensures lean { OnOk result (GrowsLean memo.old.limit memo.old.log memo.new.log) }
    ensures limit { memo.new.limit ≡ memo.old.limit }
{
    if !looks.is_due(memo, line) {
        return looks.note(line, memo.log().len());
    }
    learn_of(alloc, memo, line)?;
    looks.note(line, memo.log().len())
}

/// Learns what each line gives, from the first to the last. So what a line takes is known before what it gives, where it takes classes that were founded
/// earlier.
fn pass(alloc: Global, memo: &mut Memo<'_>, looks: &mut Looks) -> Result<(), AllocError>
    ensures extends { Extends memo.old.limit memo.old.log memo.new.log }
    ensures lean { OnOk result (GrowsLean memo.old.limit memo.old.log memo.new.log) }
    ensures limit { memo.new.limit ≡ memo.old.limit }
{
    for line in 0..memo.log().len() {
        look_at(alloc, memo, looks, id_of(line)?)?;
    }
    Ok(())
}

/// Learns what lines give by the facts that are known, those that come meanwhile among them, until a pass adds nothing or the log is full. Nothing is said of
/// what it leaves out.
pub(crate) fn learn_all(
    alloc: Global,
    memo: &mut Memo<'_>,
    looks: &mut Looks,
) -> Result<(), AllocError>
    ensures extends { Extends memo.old.limit memo.old.log memo.new.log }
    ensures lean { OnOk result (GrowsLean memo.old.limit memo.old.log memo.new.log) }
    ensures limit { memo.new.limit ≡ memo.old.limit }
{
    for _ in 0..MOST_PASSES {
        let before = memo.log().len();
        pass(alloc, memo, looks)?;
        if memo.log().len() == before {
            break;
        }
    }
    Ok(())
}

/// Adds a fact that a line lacks to a log that isn't full, and behind it all others that lines give: so a log without results to add is gone through a few
/// times, and not once a fact.
pub(crate) fn add_fact(
    alloc: Global,
    memo: &mut Memo<'_>,
    class: ClassId,
    line: LineId,
    fact: Fact,
) -> Result<(), AllocError>
    requires lacks { LacksGiven memo.old.log.instances memo.old.log.log class line fact }
    requires room { length memo.old.log.log < memo.old.limit }
    ensures extends { Extends memo.old.limit memo.old.log memo.new.log }
    ensures lean { OnOk result (GrowsLean memo.old.limit memo.old.log memo.new.log) }
    ensures limit { memo.new.limit ≡ memo.old.limit }
    ensures added { OnOk result (length memo.old.log.log < length memo.new.log.log) }
{
    let _replays = memo.log().lines();
    learn(alloc, memo, class, line, fact)?;
    learn_all(alloc, memo, &mut Looks::none(alloc))?;
    Ok(())
}
