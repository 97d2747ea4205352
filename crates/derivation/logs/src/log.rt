//! Lines that stand, one behind the other.

ghost use Rattle.std.specs.Prelude.{◌≡◌, ◌<◌, ◌∷◌, ℕ, [], length, map, option_map, reverse, vec_capacity, vec_len, IfOk, OnErr, OnOk, Result};
ghost use Rattle.values.specs.Faults.{Gives};
ghost use Rattle.algebra.specs.Classes.{class_columns};
ghost use Rattle.algebra.specs.Columns.{columns_at};
ghost use Rattle.props.specs.Knowledge.{known};
ghost use Rattle.rules.specs.Matches.{line_in};
ghost use Rattle.derivation.specs.Logs as logs;
ghost use Rattle.derivation.specs.Replay.{Replays, stands};
ghost use Rattle.derivation.specs.declared.line.Line.{Line};
ghost use Rattle.derivation.specs.declared.line.LineReason.{LineReason};
ghost use Rattle.logs.specs.Knowledge.{IsClosed, IsKnown, NamesEarlier};
ghost use Rattle.logs.specs.Judging.{IsBehind, the_log};
ghost use Rattle.logs.specs.Logged.{with_line};
ghost use Rattle.logs.specs.Members.{AreAdditions, is_member, once_if};
ghost use Rattle.logs.specs.Sets.{times};

use crate::additions::Additions;
use crate::class_lines::lines_of;
use crate::judge::{Behind, LineFault};
use crate::known::Known;
use crate::lookups::{founds, member};
use algebra::{Aggregation, ClassId, LineId};
use derivation::Line;
use props::KnownClasses;
use query::TableInstance;
use query::ids::id_behind;
use rules::MatchedLine;
use std::alloc::{AllocError, Global};
use std::marker::Model;

/// Lines over a query's table instances and aggregates, each of which may stand where it does.
pub struct Log<'q> {
    instances: &'q [TableInstance],
    own: &'q [Aggregation],
    lines: Vec<Line>,
    known: Known,
    additions: Additions,
}

// By hand, so that where it is dropped is one call.
impl Drop for Log<'_> {
    fn drop(self) {
        let Log {
            instances: _,
            own: _,
            lines: _,
            known: _,
            additions: _,
        } = self;
    }
}

impl<'q> Model for Log<'q> {
    ghost use Rattle.std.specs.Prelude.{List, refl, reverse};
    ghost use Rattle.std.specs.Coded.{codes, code_by};
    ghost use Rattle.query.specs.declared.query.TableInstance.{TableInstance};
    ghost use Rattle.algebra.specs.declared.expr.Aggregation.{Aggregation};
    ghost use Rattle.derivation.specs.contracts.line.Line as l;
    ghost use Rattle.derivation.specs.Logs.{Log as Lines};
    ghost use Rattle.derivation.specs.Replay.{Replays};
    ghost use Rattle.derivation.specs.declared.line.Line.{Line};
    ghost use Rattle.derivation.specs.declared.line.LineReason.{LineReason};
    ghost use Rattle.logs.specs.Knowledge.{IsClosed, IsKnown, NamesEarlier};
    ghost use Rattle.logs.specs.Logged.{Logged};
    ghost use Rattle.logs.specs.Members.{AreAdditions};

    ghost Value = { Logged };

    ghost coded = { code_by (List TableInstance × List Aggregation × Lines) (Prim.hlevel (codes, l.the_row.coded)) (λ l. (l.instances, l.own, l.log)) (λ t. record { instances = t.0; own = t.1; log = t.2 }) (λ _. refl) };

    ghost view = { λ l. record { instances = l.instances.now; own = l.own.now; log = reverse l.lines.items } };

    ghost invariant = { λ l. Replays l.instances.now l.own.now (reverse l.lines.items) × IsKnown l.instances.now (reverse l.lines.items) l.known × AreAdditions (reverse l.lines.items) l.additions };
}

/// Makes room for a line that may stand by its verdict, and notes what it says. Where there is no memory, nothing is changed.
#[tactic(auto, using(crate::proofs::Chains::kept_additions))]
fn note(
    alloc: Global,
    verdict: Result<(), LineFault>,
    instances: &[TableInstance],
    lines: &mut Vec<Line>,
    known: &mut Known,
    additions: &mut Additions,
    line: &Line,
) -> Result<(), LineFault>
    requires closed { IsClosed instances.now (reverse lines.old.items) }
    requires names { OnOk verdict (NamesEarlier (reverse lines.old.items) line.now) }
    requires known { IsKnown instances.now (reverse lines.old.items) known.old }
    requires additions { AreAdditions (reverse lines.old.items) additions.old }
    ensures verdict { (v : Result Line LineReason) → Gives (λ _. line.now) verdict v → Gives (λ _. line.now) result v }
    ensures lines { lines.new.items ≡ lines.old.items }
    ensures room { OnOk result (vec_len lines.new < vec_capacity lines.new) }
    ensures known { OnOk result (IsKnown instances.now (line.now ∷ reverse lines.old.items) known.new) }
    ensures refused { OnErr result (IsKnown instances.now (reverse lines.old.items) known.new) }
    ensures added { OnOk result (AreAdditions (line.now ∷ reverse lines.old.items) additions.new) }
    ensures not_added { OnErr result (AreAdditions (reverse lines.old.items) additions.new) }
{
    verdict?;
    let number = id_behind(0, lines.len())?;
    lines.reserve(1)?;
    additions.make_room()?;
    known.note(alloc, instances, lines.as_slice(), line)?;
    additions.note(line, number);
    Ok(())
}

impl<'q> Log<'q> {
    /// A log without lines.
    pub fn new(alloc: Global, instances: &'q [TableInstance], own: &'q [Aggregation]) -> Log<'q>
        ensures { result ≡ record { instances = instances.now; own = own.now; log = [] } }
    {
        Log {
            instances,
            own,
            lines: Vec::new(alloc),
            known: Known::new(alloc),
            additions: Additions::new(alloc),
        }
    }

    /// The lines, in their order. Each may stand behind those before it.
    pub fn lines(&self) -> &[Line]
        ensures lines { reverse result.now ≡ self.now.log }
        ensures replays { Replays self.now.instances self.now.own self.now.log }
    {
        self.lines.as_slice()
    }

    /// How many lines there are, which is the number of the next one.
    pub fn len(&self) -> usize
        ensures { result ≡ length self.now.log }
    {
        self.lines.len()
    }

    /// The query's table instances.
    pub fn instances(&self) -> &'q [TableInstance]
        ensures { result.now ≡ self.now.instances }
    {
        self.instances
    }

    /// What is known of the classes that the lines found.
    pub fn classes(&self) -> KnownClasses<'_>
        ensures known { known result ≡ logs.knowledge self.now.instances self.now.log }
        ensures count { length result.columns.columns.now ≡ length self.now.log }
    {
        self.known.classes()
    }

    /// Adds a line if it may stand behind the others; else nothing is changed.
    pub fn push(&mut self, alloc: Global, line: Line) -> Result<(), LineFault>
        ensures verdict { Gives (λ _. line) result (stands self.old.instances self.old.own self.old.log line) }
        ensures added { OnOk result (self.new ≡ with_line self.old line) }
        ensures refused { OnErr result (self.new ≡ self.old) }
    {
        let verdict = self.judge(alloc, &line);
        note(
            alloc,
            verdict,
            self.instances,
            &mut self.lines,
            &mut self.known,
            &mut self.additions,
            &line,
        )?;
        self.lines.push_reserved(line);
        Ok(())
    }

    /// Whether a line may stand behind the others.
    pub fn judge(&self, alloc: Global, line: &Line) -> Result<(), LineFault>
        ensures { Gives (λ _. line.now) result (stands self.now.instances self.now.own self.now.log line.now) }
    {
        self.behind().judge(alloc, line)
    }

    /// What a line is judged by.
    fn behind(&self) -> Behind<'_>
        ensures given { (result.instances.now ≡ self.now.instances) × (result.own.now ≡ self.now.own) }
        ensures log { the_log result ≡ self.now.log }
        ensures count { IsBehind result }
        ensures known { known result.classes ≡ logs.knowledge self.now.instances self.now.log }
    {
        Behind {
            instances: self.instances,
            own: self.own,
            lines: self.lines(),
            classes: self.classes(),
        }
    }

    /// The expression of a line, and the class of which it is; none where the line has none or isn't there.
    pub fn member(&self, line: LineId) -> Option<MatchedLine<'_>>
        ensures { option_map line_in result ≡ logs.member self.now.log line }
    {
        member(self.lines(), line)
    }

    /// Whether a line of this number founds a class.
    pub fn founds(&self, class: ClassId) -> bool
        ensures { result ≡ logs.founds self.now.log class }
    {
        founds(self.lines(), class)
    }

    /// The lines with an expression of a class, or of one that is the same, each once, in no order; none where no line founds the class.
    pub fn members(&self, alloc: Global, class: ClassId) -> Result<Vec<LineId>, AllocError>
        ensures { IfOk result (λ found. (n : ℕ) → times n found.items ≡ once_if (is_member self.now.log class n)) }
    {
        lines_of(
            alloc,
            self.lines.as_slice(),
            &self.additions,
            self.known.sets.classes_of(class),
        )
    }

    /// Whether two classes are the same.
    pub fn are_same(&self, first: ClassId, second: ClassId) -> bool
        ensures { result ≡ logs.are_same self.now.log first second }
    {
        self.classes().are_same(first, second)
    }

    /// The lines, which are the log's no more.
    pub fn into_lines(self) -> Vec<Line>
        ensures { reverse result.items ≡ self.entry.log }
    {
        let Log {
            instances: _,
            own: _,
            lines,
            known: _,
            additions: _,
        } = self;
        lines
    }
}
